//! Sealing a file, from a reader to a writer.

ghost use Rattle.std.specs.Prelude.{◌≡◌, ◌+◌, ◌<◌, ◌≤◌, ◌++◌, Err, IfErr, IfOk, IfSome, List, OnOk, length, ℕ};
ghost use Rattle.std.specs.Io.KnownBytes.{Appends, Consumes, IsAtEnd};
ghost use Rattle.aegis.specs.RecordResults.{message_at, progress_at};
ghost use Rattle.aegis.specs.RecordStream.{first_position, header};
ghost use Rattle.aegis.specs.declared.record.version.Version.TheVariants.{Second};
ghost use Rattle.aegis.specs.declared.record.error.RecordError.{RecordError};
ghost use Rattle.aegis_files.specs.Opening.{IsFileInPieces, IsReadError, WritesFileBeginning};

use crate::error::FileError;
use crate::reading::fill;
use crate::write::{write, write_last};
use aegis::aegis256::Key;
use aegis::record::{
    MAX_CONTEXT_BYTES, RECORD_BYTES, RECORD_HEAD_BYTES, RecordError, RecordSealer,
};
use std::alloc::{AllocError, Allocator};
use std::io::{Read, Write};

/// The number of bytes of the input in each record. The last record is empty, and the one before it may be shorter.
pub const PIECE_BYTES: usize = 65_536;

// A buffer for the record of one piece.
fn record_buffer<A: Allocator>(alloc: A) -> Result<Vec<u8, A>, AllocError>
    ensures { IfOk result (λ buffer. length buffer.items ≡ RECORD_BYTES + PIECE_BYTES) }
{
    vec![in alloc; 0; RECORD_BYTES as usize + PIECE_BYTES]
}

// Reads a piece to its place in the buffer, and returns how many bytes it has.
#[tactic(auto, using(std::proofs::lemmas::Grind::common_steps, crate::proofs::Sealing::piece_laws))]
fn read_piece<R: Read, A: Allocator>(
    input: &mut R,
    buffer: &mut Vec<u8, A>,
) -> Result<usize, FileError>
    requires { length buffer.old.items ≡ RECORD_BYTES + PIECE_BYTES }
    ensures room { length buffer.new.items ≡ RECORD_BYTES + PIECE_BYTES }
    ensures within { IfOk result (λ n. n ≤ PIECE_BYTES) }
    ensures read { IfOk result (λ n. Consumes (R.remaining input.old) (R.remaining input.new)
        (message_at n buffer.new.items)) }
    ensures end { IfOk result (λ n. n < PIECE_BYTES → IsAtEnd (R.remaining input.new)) }
    ensures err { IfErr result IsReadError }
{
    Ok(fill(
        input,
        &mut buffer[RECORD_HEAD_BYTES..RECORD_HEAD_BYTES + PIECE_BYTES],
    )?)
}

// Appends the prefix and the header of a file, and returns the sealer of its records.
pub(crate) fn begin<'a, A: Allocator>(
    key: &'a Key,
    prefix: &'a [u8; 24],
    context: &'a [u8],
    out: &mut Vec<u8, A>,
) -> Result<RecordSealer<'a>, FileError>
    requires { length context.now ≤ MAX_CONTEXT_BYTES }
    ensures appended { OnOk result
        (out.new.items ≡ out.old.items ++ (prefix.now ++ header Second)) }
    ensures progress { IfOk result (λ sealer. sealer
        ≡ progress_at key.now prefix.now context.now (first_position Second)) }
    ensures err { IfErr result (λ e. e ≡ FileError.Stream RecordError.OutOfMemory) }
{
    out.extend_from_slice(prefix)?;
    Ok(RecordSealer::new(key, prefix, context, out)?)
}

/// Seals the whole input: writes the prefix, and then the record stream of the input's pieces. Each has
/// [`PIECE_BYTES`], and the last one may have fewer. An empty message ends the stream, so that each piece is written
/// before the next one is read. The file has 65 bytes more than the input, and 37 for each piece.
///
/// Under one key, a prefix must be used for one file only. The context must have at most [`MAX_CONTEXT_BYTES`]. Memory
/// is allocated at the start only, for one record: each piece is read to its place in it, and sealed there.
///
/// After an error, a beginning of such a file was written, whose pieces are a beginning of the contents. If it opens,
/// it has the whole contents, and a write or the flush failed. So after any other error it does not open. The error is
/// [`FileError::TooLong`] only if the record stream would have more than [`aegis::MAX_AEAD_BYTES`], and
/// [`FileError::Stream`] only with [`RecordError::OutOfMemory`].
pub fn seal_stream<R: Read, W: Write, A: Allocator + Copy>(
    alloc: A,
    key: &Key,
    prefix: &[u8; 24],
    context: &[u8],
    input: &mut R,
    output: &mut W,
) -> Result<(), FileError>
    requires { length context.now ≤ MAX_CONTEXT_BYTES }
    ensures sealed { OnOk result (IfSome (R.remaining input.old) (λ contents. (file : List ℕ)
        × IsFileInPieces key.now prefix.now context.now contents file
        × Appends (W.contents output.old) (W.contents output.new) file)) }
    ensures memory { (why : RecordError) → result ≡ Err (FileError.Stream why)
        → why ≡ RecordError.OutOfMemory }
    ensures stopped { IfErr result (λ e. IfSome (R.remaining input.old)
        (λ contents. WritesFileBeginning key.now prefix.now context.now contents
        (W.contents output.old) (W.contents output.new) e)) }
{
    let mut buffer = record_buffer(alloc)?;
    // The prefix and the header, and later the last record.
    let mut out = Vec::with_capacity(alloc, RECORD_BYTES as usize)?;
    let mut sealer = begin(key, prefix, context, &mut out)?;
    write(output, &out)?;
    'pieces: loop {
        let count = read_piece(input, &mut buffer)?;
        if count == 0 {
            out.clear();
            sealer.seal_last(&[], &mut out)?;
            write_last(output, &out)?;
            return Ok(());
        }
        if sealer.remaining() < 2 * RECORD_BYTES + count as u64 {
            return Err(FileError::TooLong);
        }
        let record = &mut buffer[..RECORD_BYTES as usize + count];
        sealer.seal_next_in_place(record);
        write(output, record)?;
    }
}
