//! Opening a sealed file, from a reader to a writer.

ghost use Rattle.std.specs.Prelude.{◌≡◌, ◌+◌, ◌≤◌, ◌⊎◌, ◌++◌, IfErr, IfOk, IfSome, List, OnOk, length, ℕ};
ghost use Rattle.std.specs.Io.KnownBytes.{Appends, Consumes, IsAtEnd};
ghost use Rattle.aegis_base.specs.declared.error.TheConstants.{MAX_AEAD_BYTES};
ghost use Rattle.aegis.specs.RecordStream.{header};
ghost use Rattle.aegis.specs.declared.record.version.Version.TheVariants.{Second};
ghost use Rattle.aegis_files.specs.Opening.{FailsWith, HasNoHead, IsReadError, IsSealedFile};
ghost use Rattle.aegis_files.specs.Private.{LeavesSome};

use crate::error::FileError;
use crate::range::{ContentsRange, open_range};
use crate::reading::fill;
use aegis::aegis256::Key;
use aegis::record::{MAX_CONTEXT_BYTES, RecordError, RecordPosition, Version};
use std::alloc::Allocator;
use std::io::{Read, Write};

/// The position of the first record of a file.
pub const FIRST: RecordPosition = RecordPosition {
    version: Version::Second,
    number: 0,
    before: 0,
};

/// The number of bytes in front of the first record of a file: the prefix and the header.
pub const BEGINNING_BYTES: usize = 24 + 4;

/// Reads the prefix and the header of a file, and returns the prefix. Returns [`RecordError::Header`] if the file is
/// shorter, or if the header is another one.
#[tactic(auto, using(std::proofs::lemmas::Grind::common_steps, crate::proofs::Files::other_head, crate::proofs::Files::short_head))]
pub fn read_prefix<R: Read>(input: &mut R) -> Result<[u8; 24], FileError>
    ensures read { IfOk result (λ prefix. Consumes (R.remaining input.old)
        (R.remaining input.new) (prefix ++ header Second)) }
    ensures long { IfOk result (λ prefix. length prefix ≡ 24) }
    ensures refused { IfErr result (λ e. IsReadError e
        ⊎ ((e ≡ FileError.Stream RecordError.Header) × HasNoHead (R.remaining input.old))) }
{
    let mut head = [0; BEGINNING_BYTES];
    if fill(input, &mut head)? < BEGINNING_BYTES {
        return Err(FileError::Stream(RecordError::Header));
    }
    let (first, header) = head.split_at(24);
    if header != Version::Second.header() {
        return Err(FileError::Stream(RecordError::Header));
    }
    let mut prefix = [0; 24];
    prefix.copy_from_slice(first);
    Ok(prefix)
}

// Returns an error unless the input is at its end.
#[tactic(auto, using(std::proofs::lemmas::Grind::common_steps, crate::proofs::Pieces::end_laws))]
pub(crate) fn end<R: Read>(input: &mut R) -> Result<(), FileError>
    ensures end { OnOk result (IsAtEnd (R.remaining input.old)) }
    ensures err { IfErr result (λ e. LeavesSome (R.remaining input.old) e) }
{
    if fill(input, &mut [0])? == 0 {
        Ok(())
    } else {
        Err(FileError::Stream(RecordError::Trailing))
    }
}

/// Opens a sealed file: reads the prefix and then the record stream, and writes each message after its tag has been
/// verified.
///
/// Returns `Ok` only if the whole input is the file of the contents that were written, and its record stream has at
/// most [`aegis::MAX_AEAD_BYTES`]. A file is rejected only if it is not the file of any contents, with its first fault
/// as the error, or if memory runs out. The error is [`FileError::TooLong`] only if its stream has more bytes than
/// that.
///
/// After any error, whatever the file is, only the messages of verified records at its beginning were written, all of
/// them unless a write failed: a beginning of the file's contents, if it has one. A caller that needs the whole
/// contents must discard it.
///
/// The context must have at most [`MAX_CONTEXT_BYTES`]. Memory is allocated for one record, which is opened where it
/// lies. In a file that someone else made with the key, it can have up to 16 MiB.
pub fn open_stream<R: Read, W: Write, A: Allocator + Copy>(
    alloc: A,
    key: &Key,
    context: &[u8],
    input: &mut R,
    output: &mut W,
) -> Result<(), FileError>
    requires { length context.now ≤ MAX_CONTEXT_BYTES }
    ensures opened { OnOk result (IfSome (R.remaining input.old) (λ file. (contents : List ℕ)
        × Appends (W.contents output.old) (W.contents output.new) contents
        × IsSealedFile key.now context.now contents file)) }
    ensures within { OnOk result
        (IfSome (R.remaining input.old) (λ file. length file ≤ 24 + MAX_AEAD_BYTES)) }
    ensures refused { IfErr result (λ e. IfSome (R.remaining input.old)
        (λ file. FailsWith key.now context.now file
        (W.contents output.old) (W.contents output.new) e)) }
{
    let prefix = read_prefix(input)?;
    let all = ContentsRange {
        position: FIRST,
        skip: 0,
        length: u64::MAX,
    };
    open_range(alloc, key, &prefix, context, all, input, output)?;
    end(input)
}
