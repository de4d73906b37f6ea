//! Sealing a stream.

ghost use Rattle.std.specs.Prelude.{◌≡◌, ◌<◌, ◌≤◌, IfErr, IfOk, length};
ghost use Rattle.aegis_base.specs.declared.error.TheConstants.{MAX_AEAD_BYTES};
ghost use Rattle.aegis_base.specs.Chunks.{texts};
ghost use Rattle.aegis.specs.RecordStream.{AreRecords, AreWithin, records_length};
ghost use Rattle.aegis.specs.declared.record.version.Version.TheVariants.{Second};

use crate::aegis256::Key;
use crate::record::error::RecordError;
use crate::record::length::records_len;
use crate::record::record_cipher::MAX_CONTEXT_BYTES;
use crate::record::record_sealer::RecordSealer;
use std::alloc::Allocator;

/// Returns the stream of the messages, in version 2, under a key, a prefix and a context. There is at least one
/// message.
///
/// A message has at most [`MAX_MESSAGE_BYTES`] and the context [`MAX_CONTEXT_BYTES`], and [`records_len`] must return a
/// number, which is the length of the stream. [`RecordError::OutOfMemory`] is the only error. Memory is taken once, for
/// the whole stream, in which the messages are sealed piece by piece.
pub fn seal_records<A: Allocator + Copy>(
    alloc: A,
    key: &Key,
    prefix: &[u8; 24],
    context: &[u8],
    messages: &[&[u8]],
) -> Result<Vec<u8, A>, RecordError>
    requires some { 0 < length messages.now }
    requires within { AreWithin Second (texts messages.now) }
    requires context_within { length context.now ≤ MAX_CONTEXT_BYTES }
    requires fits { records_length (texts messages.now) ≤ MAX_AEAD_BYTES }
    ensures sealed { IfOk result
        (λ stream. AreRecords Second key.now prefix.now context.now (texts messages.now)
        stream.items) }
    ensures length { IfOk result (λ stream. length stream.items
        ≡ records_length (texts messages.now)) }
    ensures error { IfErr result (λ e. e ≡ RecordError.OutOfMemory) }
{
    let length = records_len(messages).unwrap();
    let mut stream = Vec::with_capacity(alloc, length as usize)?;
    let mut sealer = RecordSealer::new(key, prefix, context, &mut stream)?;
    let last = messages.len() - 1;
    'records: for number in 0..last {
        sealer.seal_next(messages[number], &mut stream)?;
    }
    sealer.seal_last(messages[last], &mut stream)?;
    Ok(stream)
}
