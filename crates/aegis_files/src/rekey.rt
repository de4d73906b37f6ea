//! Sealing the contents of a sealed file anew under another key, from a reader to a writer.

ghost use Rattle.std.specs.Prelude.{◌≡◌, ◌≤◌, ◌++◌, IfErr, IfSome, List, OnOk, length, ℕ};
ghost use Rattle.std.specs.Io.KnownBytes.{Appends};
ghost use Rattle.aegis.specs.RecordStream.{header};
ghost use Rattle.aegis.specs.declared.record.version.Version.TheVariants.{Second};
ghost use Rattle.aegis_files.specs.Opening.{IsRekeyed, RekeysBeginning};

use crate::error::FileError;
use crate::next::{message, next_message};
use crate::open::{FIRST, end, read_prefix};
use crate::seal::begin;
use crate::write::{write, write_last};
use aegis::aegis256::Key;
use aegis::record::{MAX_CONTEXT_BYTES, RecordOpener};
use std::alloc::Allocator;
use std::io::{Read, Write};

// The key and the prefix of a file.
#[derive(Clone, Copy)]
struct FileKey<'a> {
    key: &'a Key,
    prefix: &'a [u8; 24],
}

// Seals the messages of the records that follow the old file's prefix and header. Both streams have the same length at
// each record, so what fits into the old one fits into the new one.
#[tactic(auto, using(crate::proofs::Rekeying::next_fits))]
fn rekey_under<'a, R: Read, W: Write, A: Allocator + Copy>(
    alloc: A,
    from: FileKey<'a>,
    to: FileKey<'a>,
    context: &'a [u8],
    input: &mut R,
    output: &mut W,
) -> Result<(), FileError>
    requires context { length context.now ≤ MAX_CONTEXT_BYTES }
    requires old_long { length from.prefix.now ≡ 24 }
    requires new_long { length to.prefix.now ≡ 24 }
    ensures rekeyed { OnOk result (IfSome (R.remaining input.old) (λ records. (file : List ℕ)
        × IsRekeyed from.entry.key.now to.entry.key.now to.entry.prefix.now context.now
        (from.entry.prefix.now ++ (header Second ++ records)) file
        × Appends (W.contents output.old) (W.contents output.new) file)) }
    ensures stopped { IfErr result (λ e. IfSome (R.remaining input.old)
        (λ records. RekeysBeginning from.entry.key.now
        to.entry.key.now to.entry.prefix.now context.now
        (from.entry.prefix.now ++ (header Second ++ records))
        (W.contents output.old) (W.contents output.new) e)) }
{
    let mut opener = RecordOpener::begin_at(from.key, from.prefix, context, FIRST);
    let FileKey { key, prefix } = to;
    let mut out = Vec::new(alloc);
    let mut sealer = begin(key, prefix, context, &mut out)?;
    let mut buffer = Vec::new(alloc);
    'records: loop {
        let opened = next_message(input, &mut opener, &mut buffer)?;
        let contents = message(&buffer, opened);
        if opened.is_last {
            end(input)?;
            sealer.seal_last(contents, &mut out)?;
            write_last(output, &out)?;
            return Ok(());
        }
        sealer.seal_next(contents, &mut out)?;
        write(output, &out)?;
        out.clear();
    }
}

/// Seals the contents of a sealed file anew under another key: reads a file of `key`, and writes the file of the same
/// contents under `new_key`, `prefix` and the same context. Each message is sealed again after its tag has been
/// verified, so the new file has the same pieces and the same length.
///
/// Returns `Ok` only if the whole input is a file of some contents, and the file of those contents was written. A file
/// is rejected only if it is not the file of any contents, with its first fault as the error, or if memory runs out.
/// The error is [`FileError::TooLong`] only if the input's record stream has more than [`aegis::MAX_AEAD_BYTES`], and
/// such a file is always rejected.
///
/// After an error, a beginning of a file under the new key was written, whose messages are those of verified records at
/// the input's beginning. If it opens, it has the input's whole contents, and a write or the flush failed. So after any
/// other error it does not open.
///
/// Under one key, a prefix must be used for one file only. The context must have at most [`MAX_CONTEXT_BYTES`]. Memory
/// is allocated for one record and the new record. In a file that someone else made with the key, each can have up to
/// 16 MiB.
#[tactic(auto, using(std::proofs::lemmas::Result::err_from_is_err_and, crate::proofs::Rekeying::rekey_laws))]
pub fn rekey_stream<R: Read, W: Write, A: Allocator + Copy>(
    alloc: A,
    key: &Key,
    new_key: &Key,
    prefix: &[u8; 24],
    context: &[u8],
    input: &mut R,
    output: &mut W,
) -> Result<(), FileError>
    requires { length context.now ≤ MAX_CONTEXT_BYTES }
    ensures rekeyed { OnOk result (IfSome (R.remaining input.old) (λ file. (new_file : List ℕ)
        × IsRekeyed key.now new_key.now prefix.now context.now file new_file
        × Appends (W.contents output.old) (W.contents output.new) new_file)) }
    ensures stopped { IfErr result (λ e. IfSome (R.remaining input.old)
        (λ file. RekeysBeginning key.now new_key.now prefix.now context.now file
        (W.contents output.old) (W.contents output.new) e)) }
{
    let old_prefix = read_prefix(input)?;
    let from = FileKey {
        key,
        prefix: &old_prefix,
    };
    let to = FileKey {
        key: new_key,
        prefix,
    };
    rekey_under(alloc, from, to, context, input, output)
}
