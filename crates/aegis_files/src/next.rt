//! The next message of a record stream, in the buffer that its record is read into.

ghost use Rattle.std.specs.Prelude.{◌≡◌, ◌+◌, ◌≤◌, [], ◌++◌, Err, IfErr, IfOk, List, length, take, ℕ};
ghost use Rattle.std.specs.Io.KnownBytes.{Consumes, IsAtEnd};
ghost use Rattle.aegis.specs.RecordResults.{message_of, record_of, start_of};
ghost use Rattle.aegis.specs.RecordStream.{parts};
ghost use Rattle.aegis_base.specs.declared.error.TheConstants.{MAX_AEAD_BYTES};
ghost use Rattle.aegis_files.specs.Private.{FailsNext, ReadsNext};

use crate::error::FileError;
use crate::reading::fill_part;
use aegis::record::{
    MAX_MESSAGE_BYTES, OpenedInPlace, RECORD_HEAD_BYTES, RecordError, RecordOpener,
};
use std::alloc::Allocator;
use std::io::Read;

// Reads the next record to the beginning of the buffer, or the bytes that there are of it. Returns how many.
fn read_record<R: Read, A: Allocator>(
    input: &mut R,
    opener: &RecordOpener<'_>,
    buffer: &mut Vec<u8, A>,
) -> Result<usize, FileError>
    ensures within { IfOk result (λ n. n ≤ length buffer.new.items) }
    ensures read { IfOk result
        (λ n. Consumes (R.remaining input.old) (R.remaining input.new) (take n buffer.new.items)) }
    ensures alone { IfOk result (λ n. (flag : ℕ) (m rest : List ℕ) → length m ≤ MAX_MESSAGE_BYTES
        → take n buffer.new.items ≡ record_of opener.now flag m ++ rest → rest ≡ []) }
    ensures cut { IfOk result
        (λ n. parts opener.now.position.version (take n buffer.new.items)
        ≡ Err RecordError.Truncated → IsAtEnd (R.remaining input.new)) }
    ensures failed { IfErr result (λ e. FailsNext opener.now (R.remaining input.old) e) }
{
    let count = fill_part(input, buffer, 0, RECORD_HEAD_BYTES)?;
    if count < RECORD_HEAD_BYTES {
        return Ok(count);
    }
    let mut head = [0; RECORD_HEAD_BYTES];
    head.copy_from_slice(&buffer[..RECORD_HEAD_BYTES]);
    let len = opener.record_len(&head)?;
    fill_part(input, buffer, RECORD_HEAD_BYTES, len)
}

// Reads the next record, and opens it where it lies: at the beginning of the buffer, which is made longer only if the
// record needs more.
pub(crate) fn next_message<R: Read, A: Allocator>(
    input: &mut R,
    opener: &mut RecordOpener<'_>,
    buffer: &mut Vec<u8, A>,
) -> Result<OpenedInPlace, FileError>
    ensures size { IfOk result
        (λ opened. RECORD_HEAD_BYTES + opened.message_len ≤ length buffer.new.items) }
    ensures opened { IfOk result (λ opened. ReadsNext opener.old opener.new
        (R.remaining input.old) (R.remaining input.new)
        opened.is_last (message_of opened buffer.new.items)) }
    ensures fits { IfOk result (λ opened. start_of opener.new ≤ MAX_AEAD_BYTES) }
    ensures failed { IfErr result (λ e. FailsNext opener.old (R.remaining input.old) e) }
{
    let count = read_record(input, opener, buffer)?;
    // Nothing follows a record that is not the last one.
    if count == 0 {
        return Err(FileError::Stream(RecordError::Truncated));
    }
    if opener.remaining() < count as u64 {
        return Err(FileError::TooLong);
    }
    let (record, _) = buffer.split_at_mut(count);
    Ok(opener.open_next_in_place(record)?)
}

// The message in the buffer.
pub(crate) fn message<'b>(buffer: &'b [u8], opened: OpenedInPlace) -> &'b [u8]
    requires { RECORD_HEAD_BYTES + opened.message_len ≤ length buffer.now }
    ensures { result.now ≡ message_of opened buffer.now }
{
    &buffer[RECORD_HEAD_BYTES..RECORD_HEAD_BYTES + opened.message_len]
}
