//! Writes that are collected, and made later.

ghost use Rattle.std.specs.Prelude.{◌≡◌, ◌+◌, ◌≤◌, IfOk, length, vec_items};
ghost use Rattle.aegis_storage.specs.declared.store.TheConstants.{MAX_STORAGE_BYTES};

use crate::store::MAX_STORAGE_BYTES;
use std::alloc::{AllocError, Allocator};

/// A write that is to be made: some bytes, and the place of the first of them.
#[derive(Drop)]
pub struct PendingWrite<A: Allocator> {
    pub place: u64,
    pub bytes: Vec<u8, A>,
    ghost within: { place + length (vec_items bytes) ≤ MAX_STORAGE_BYTES },
}

impl<A: Allocator> PendingWrite<A> {
    /// A write of a copy of `bytes`.
    pub fn new(alloc: A, place: u64, bytes: &[u8]) -> Result<PendingWrite<A>, AllocError>
        requires { place + length bytes.now ≤ MAX_STORAGE_BYTES }
        ensures place { IfOk result (λ write. write.place ≡ place) }
        ensures bytes { IfOk result (λ write. write.bytes.items ≡ bytes.now) }
    {
        Ok(PendingWrite {
            place,
            bytes: bytes.to_vec(alloc)?,
        })
    }
}
