//! Reading a storage.

ghost use Rattle.std.specs.Prelude.{◌≡◌, IfErr, IfOk, IfSome};
ghost use Rattle.aegis_storage.specs.Journal.{IsReadAllError};

use crate::store::{MAX_STORAGE_BYTES, Storage};
use std::alloc::Allocator;
use std::io;
use std::io::ErrorKind;

/// Returns all the bytes. The error is that of a call, or `OutOfMemory`, or `InvalidData` if there are more than
/// [`MAX_STORAGE_BYTES`].
pub fn read_all<S: Storage, A: Allocator>(alloc: A, storage: &S) -> io::Result<Vec<u8, A>>
    ensures read { IfOk result (λ found. IfSome (S.bytes storage.now) (λ xs. found.items ≡ xs)) }
    ensures cause { IfErr result (IsReadAllError S.errors (S.bytes storage.now)) }
{
    let size = storage.size()?;
    if size > MAX_STORAGE_BYTES {
        return Err(io::Error::from(ErrorKind::InvalidData));
    }
    let mut bytes = vec![in alloc; 0; size as usize]?;
    storage.read_at(0, &mut bytes)?;
    Ok(bytes)
}
