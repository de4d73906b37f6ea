//! Reading until a buffer is full.

ghost use Rattle.std.specs.Prelude.{◌≡◌, ◌<◌, ◌≤◌, ◌⊎◌, IfErr, IfOk, length, take};
ghost use Rattle.std.specs.Io.KnownBytes.{Consumes, IsAtEnd};
ghost use Rattle.aegis_files.specs.Private.{ReadsPart};
ghost use Rattle.aegis_files.specs.Opening.{IsReadError};

use crate::error::FileError;
use crate::seal::PIECE_BYTES;
use aegis::record::{RECORD_BYTES, RecordError};
use std::alloc::Allocator;
use std::io;
use std::io::{ErrorKind, Read};

/// Reads until the buffer is full or the input is at its end, and returns the number of bytes read. An interrupted read
/// is tried again. Returns [`FileError::Read`] if a read fails; some bytes may have been read before.
#[tactic(auto, using(std::proofs::lemmas::Grind::common_steps, crate::proofs::Filling::fill_laws))]
pub fn fill<R: Read>(input: &mut R, buffer: &mut [u8]) -> Result<usize, FileError>
    ensures within { IfOk result (λ n. n ≤ length buffer.new) }
    ensures read { IfOk result
        (λ n. Consumes (R.remaining input.old) (R.remaining input.new) (take n buffer.new)) }
    ensures end { IfOk result (λ n. n < length buffer.new → IsAtEnd (R.remaining input.new)) }
    ensures err { IfErr result IsReadError }
{
    let mut filled = 0;
    'reads: for _ in 0..u64::MAX {
        if filled == buffer.len() {
            return Ok(filled);
        }
        match input.read(&mut buffer[filled..]) {
            Ok(0) => return Ok(filled),
            Ok(count) => filled += count,
            Err(error) => {
                if error.kind() != ErrorKind::Interrupted {
                    return Err(FileError::Read(error));
                }
            }
        }
    }
    Err(FileError::Read(io::Error::from(ErrorKind::TimedOut)))
}

// The most bytes by which a buffer is made longer before they are read: those of a record of the length that sealing
// writes, so that its bytes come in one step.
const STEP_BYTES: usize = RECORD_BYTES as usize + PIECE_BYTES;

// Reads the bytes `from..to` of the buffer, or all that are left of the input, and returns where they end. The buffer
// is made longer if it is shorter than that, and is not filled again.
#[tactic(auto, using(std::proofs::lemmas::Grind::common_steps, crate::proofs::Filling::filled_part, crate::proofs::Filling::longer))]
fn fill_step<R: Read, A: Allocator>(
    input: &mut R,
    buffer: &mut Vec<u8, A>,
    from: usize,
    to: usize,
) -> Result<usize, FileError>
    requires ordered { from ≤ to }
    requires within { from ≤ length buffer.old.items }
    ensures ok { IfOk result (λ end. ReadsPart buffer.old.items buffer.new.items from to end
        (R.remaining input.old) (R.remaining input.new)) }
    ensures err { IfErr result
        (λ e. IsReadError e ⊎ (e ≡ FileError.Stream RecordError.OutOfMemory)) }
{
    if buffer.len() < to {
        buffer.resize(to, 0)?;
    }
    Ok(from + fill(input, &mut buffer[from..to])?)
}

// The same in steps. A record's length is not authenticated before its tag, so memory for it is allocated as its bytes
// come.
pub(crate) fn fill_part<R: Read, A: Allocator>(
    input: &mut R,
    buffer: &mut Vec<u8, A>,
    from: usize,
    to: usize,
) -> Result<usize, FileError>
    requires ordered { from ≤ to }
    requires within { from ≤ length buffer.old.items }
    ensures ok { IfOk result (λ end. ReadsPart buffer.old.items buffer.new.items from to end
        (R.remaining input.old) (R.remaining input.new)) }
    ensures err { IfErr result
        (λ e. IsReadError e ⊎ (e ≡ FileError.Stream RecordError.OutOfMemory)) }
{
    let mut end = from;
    'steps: while end < to {
        let step = STEP_BYTES.max(buffer.len() - end).min(to - end);
        let next = end + step;
        end = fill_step(input, buffer, end, next)?;
        if end < next {
            return Ok(end);
        }
    }
    Ok(end)
}
