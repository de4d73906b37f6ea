//! Opening a stream.

ghost use Rattle.std.specs.Prelude.{◌≡◌, ◌≢◌, ◌≤◌, ◌⊎◌, ◌++◌, IfErr, IfNone, IfOk, IfSome, List, length, take, ℕ};
ghost use Rattle.aegis.specs.RecordResults.{IsRecord, IsRefused, OpensTo, messages, sealing_of};
ghost use Rattle.aegis.specs.RecordStream.{AreRecords, IsFault, IsFaultAt, header};

use crate::aegis256::Key;
use crate::record::error::RecordError;
use crate::record::frame::Frame;
use crate::record::position::RecordPosition;
use crate::record::record_cipher::{MAX_CONTEXT_BYTES, RecordCipher};
use crate::record::version::Version;
use std::alloc::Allocator;

// Returns the version of the header that the bytes begin with, and the bytes after it.
pub(crate) fn version_of(bytes: &[u8]) -> Option<(Version, &[u8])>
    ensures some { IfSome result (λ found. bytes.now ≡ header found.0 ++ found.1.now) }
    ensures none { IfNone result ((v : Version) → take 4 bytes.now ≢ header v) }
{
    if bytes.len() < 4 {
        return None;
    }
    let (beginning, rest) = bytes.split_at(4);
    if beginning == Version::First.header() {
        Some((Version::First, rest))
    } else if beginning == Version::Second.header() {
        Some((Version::Second, rest))
    } else {
        None
    }
}

// Opens the record that the bytes begin with. Returns its parts and its message.
pub(crate) fn open_record<'a, A: Allocator>(
    alloc: A,
    cipher: &RecordCipher<'_>,
    position: RecordPosition,
    bytes: &'a [u8],
) -> Result<(Frame<'a>, Vec<u8, A>), RecordError>
    requires { length cipher.now.context.now ≤ MAX_CONTEXT_BYTES }
    ensures opened { IfOk result (λ found. IsRecord (sealing_of cipher.now) position
        found.0.flag found.1.items found.0.rest.now bytes.now) }
    ensures refused { IfErr result (λ e. (e ≡ RecordError.OutOfMemory)
        ⊎ IsFaultAt (sealing_of cipher.now) position bytes.now e) }
{
    let frame = Frame::read(position.version, bytes)?;
    let message = cipher.open(alloc, position, frame.flag, frame.sealed)?;
    Ok((frame, message))
}

// Returns the messages of a stream, opened one record after the other.
fn open_each<A: Allocator + Copy>(
    alloc: A,
    cipher: &RecordCipher<'_>,
    bytes: &[u8],
) -> Result<Vec<Vec<u8, A>, A>, RecordError>
    requires { length cipher.now.context.now ≤ MAX_CONTEXT_BYTES }
    ensures opened { IfOk result (λ ms. (v : Version)
        × AreRecords v cipher.now.key.now cipher.now.prefix.now cipher.now.context.now
        (messages ms.items) bytes.now) }
    ensures refused { IfErr result (λ e. (e ≡ RecordError.OutOfMemory)
        ⊎ IsFault cipher.now.key.now cipher.now.prefix.now cipher.now.context.now bytes.now e) }
{
    let Some((version, mut rest)) = version_of(bytes) else {
        return Err(RecordError::Header);
    };
    let mut position = RecordPosition {
        version,
        number: 0,
        before: 0,
    };
    let mut found = Vec::new(alloc);
    'records: loop {
        let (frame, message) = open_record(alloc, cipher, position, rest)?;
        position.number += 1;
        position.before += message.len() as u64;
        found.push(message)?;
        rest = frame.rest;
        if frame.flag == 1 {
            if !rest.is_empty() {
                return Err(RecordError::Trailing);
            }
            return Ok(found);
        }
    }
}

/// Opens a stream, of the version of its header, and returns the list of messages whose stream the bytes are.
///
/// It returns `Ok` exactly if there is such a list, unless memory runs out. Otherwise the error is the first fault of
/// the bytes, read from the start; [`RecordError::Damaged`] has the number of a record that no message is sealed to.
/// After an error no message is returned, not even those of the records before the fault.
///
/// The context has at most [`MAX_CONTEXT_BYTES`]. Memory is taken for the messages, a vector each, and for the list of
/// them.
pub fn open_records<A: Allocator + Copy>(
    alloc: A,
    key: &Key,
    prefix: &[u8; 24],
    context: &[u8],
    bytes: &[u8],
) -> Result<Vec<Vec<u8, A>, A>, RecordError>
    requires { length context.now ≤ MAX_CONTEXT_BYTES }
    ensures opened { IfOk result (λ ms. (v : Version)
        × AreRecords v key.now prefix.now context.now (messages ms.items) bytes.now) }
    ensures accepted { (v : Version) (ms : List (List ℕ))
        → AreRecords v key.now prefix.now context.now ms bytes.now → OpensTo ms result }
    ensures refused { IfErr result (λ e. (e ≡ RecordError.OutOfMemory)
        ⊎ IsFault key.now prefix.now context.now bytes.now e) }
    ensures faults { (e : RecordError) → IsFault key.now prefix.now context.now bytes.now e
        → IsRefused e result }
{
    open_each(
        alloc,
        &RecordCipher {
            key,
            prefix,
            context,
        },
        bytes,
    )
}
