//! Opening a part of the contents of a sealed file, from a reader to a writer.

ghost use Rattle.std.specs.Prelude.{◌≡◌, ◌<◌, ◌≤◌, ◌⊎◌, IfErr, IfOk, IfSome, drop, false, length, take, true};
ghost use Rattle.std.specs.Bool.{OnFalse, OnTrue};
ghost use Rattle.aegis_base.specs.declared.error.TheConstants.{MAX_AEAD_BYTES};
ghost use Rattle.aegis.specs.RecordStream.{start_at};
ghost use Rattle.aegis.specs.declared.record.version.Version.TheVariants.{Second};
ghost use Rattle.aegis_files.specs.Opening.{OpensRange, StopsRange};

use crate::error::FileError;
use crate::next::{message, next_message};
use crate::write::{write, write_last};
use aegis::aegis256::Key;
use aegis::record::{MAX_CONTEXT_BYTES, RecordOpener, RecordPosition};
use std::alloc::Allocator;
use std::io::{Read, Write};

/// A part of the contents, from one of its records on.
#[derive(Clone, Copy, Debug, PartialEq, Eq)]
pub struct ContentsRange {
    /// The position of the record at which the input begins.
    pub position: RecordPosition,
    /// How many bytes of the contents, from that record's first one on, come before the part.
    pub skip: u64,
    /// How many bytes the part has at most.
    pub length: u64,
}

/// What was opened of a part of the contents.
#[derive(Clone, Copy, Debug, PartialEq, Eq)]
pub struct OpenedRange {
    /// How many bytes of the contents were written.
    pub length: u64,
    /// The position after the last of the records that were opened.
    pub end: RecordPosition,
    /// Whether that is the last record of the file, so that `end` has the number of all its records and of all bytes of
    /// its contents.
    pub is_last: bool,
}

// At most `length` bytes of the message, after its first `skip` ones.
fn part<'b>(message: &'b [u8], skip: u64, length: u64) -> &'b [u8]
    ensures { result.now ≡ take length (drop skip message.now) }
{
    let start = skip.min(message.len() as u64) as usize;
    let end = start + length.min((message.len() - start) as u64) as usize;
    &message[start..end]
}

// Whether a part ends with a record: with the last one, or if no more bytes are asked for.
fn is_done(is_last: bool, left: u64, skip: u64) -> bool
    ensures done { OnTrue result ((is_last ≡ true) ⊎ ((left ≡ 0) × (skip ≡ 0))) }
    ensures more { OnFalse result ((is_last ≡ false) × ((0 < left) ⊎ (0 < skip))) }
{
    is_last || (left == 0 && skip == 0)
}

/// Opens a part of the contents of a sealed file, from one of its records on. Writes those bytes of each message that
/// are in the part, after the message's tag has been verified.
///
/// The input begins at the record at `range.position`. That record is opened whatever the part has of it, and after it
/// those up to the part's end, and only they are read. So `Ok` is never returned before a tag has been verified. The
/// prefix is the file's first 24 bytes. The record starts at byte `28 + 37 * number + before` of the file;
/// [`RecordOpener::position`] returns such positions.
///
/// Fewer than `range.length` bytes are written only if the last record was opened, so that the contents end there. If
/// it is a sealed file, they are the contents' bytes from `before + skip` on. Whatever the file is, they are
/// bytes of messages that are sealed at just these positions. Nothing is known of the records before those that were
/// read, nor of the ones after them.
///
/// After any error, only bytes of the part from verified records were written, all of them unless a write failed. A
/// sealed file of any contents is rejected only if memory runs out, or with [`FileError::TooLong`]: only if its record
/// stream has more than [`aegis::MAX_AEAD_BYTES`].
///
/// The context must have at most [`MAX_CONTEXT_BYTES`], the position must be one of the second version, and the record
/// must start at byte [`aegis::MAX_AEAD_BYTES`] of the stream at most. Memory is allocated for one record, as its bytes
/// come.
pub fn open_range<R: Read, W: Write, A: Allocator + Copy>(
    alloc: A,
    key: &Key,
    prefix: &[u8; 24],
    context: &[u8],
    range: ContentsRange,
    input: &mut R,
    output: &mut W,
) -> Result<OpenedRange, FileError>
    requires context_within { length context.now ≤ MAX_CONTEXT_BYTES }
    requires version { range.position.version ≡ Second }
    requires start_within { start_at range.position ≤ MAX_AEAD_BYTES }
    ensures opened { IfOk result (λ opened. IfSome (R.remaining input.old) (λ stream.
        OpensRange key.now prefix.now context.now range opened stream (R.remaining input.new)
        (W.contents output.old) (W.contents output.new))) }
    ensures stopped { IfErr result (λ e. IfSome (R.remaining input.old) (λ stream.
        StopsRange key.now prefix.now context.now range stream
        (W.contents output.old) (W.contents output.new) e)) }
{
    let mut opener = RecordOpener::begin_at(key, prefix, context, range.position);
    let mut buffer = Vec::new(alloc);
    let mut skip = range.skip;
    let mut left = range.length;
    'records: loop {
        let opened = next_message(input, &mut opener, &mut buffer)?;
        let piece = part(message(&buffer, opened), skip, left);
        skip = skip.saturating_sub(opened.message_len as u64);
        left -= piece.len() as u64;
        if is_done(opened.is_last, left, skip) {
            write_last(output, piece)?;
            return Ok(OpenedRange {
                length: range.length - left,
                end: opener.position(),
                is_last: opened.is_last,
            });
        }
        write(output, piece)?;
    }
}
