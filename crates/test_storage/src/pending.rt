//! Changes that are not synced yet.

ghost use Rattle.std.specs.Prelude.{◌≤◌};
ghost use Rattle.aegis_storage.specs.declared.store.TheConstants.{MAX_STORAGE_BYTES};

use aegis_storage::PendingWrite;
use std::alloc::Global;

/// A size that a storage may be set to.
#[derive(Drop)]
pub struct NewSize {
    pub size: u64,
    ghost within: { size ≤ MAX_STORAGE_BYTES },
}

/// A change that is not synced yet.
#[derive(Drop)]
pub enum PendingChange {
    Write(PendingWrite<Global>),
    Size(NewSize),
}
