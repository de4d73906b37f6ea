//! A part of the contents of a sealed file: the record in which it begins is found by the lengths of those before it,
//! which are not verified. A part is what the records that were opened say.

ghost use Rattle.std.specs.Prelude.{◌≡◌, ◌≤◌};
ghost use Rattle.std.specs.Bool.{OnTrue};
ghost use Rattle.aegis.specs.declared.record.version.Version.TheVariants.{Second};

use crate::command::Span;
use crate::failure::PartError;
use aegis::record::{
    RECORD_BYTES, RECORD_HEAD_BYTES, RecordError, RecordOpener, RecordPosition, Version,
};
use aegis_files::{
    BEGINNING_BYTES, ContentsRange, FIRST, FileError, OpenedRange, fill, read_prefix,
};
use std::fs::File;
use std::io::{Seek, SeekFrom};

/// Where a part of the contents begins, and how long it is.
#[derive(Clone, Copy)]
pub struct Start {
    pub prefix: [u8; 24],
    pub range: ContentsRange,
    /// The byte of the contents at which the part begins.
    pub from: u64,
}

impl Start {
    /// Returns an error if the part begins after the last record that was opened, which is then the file's last one.
    pub fn reached(&self, opened: &OpenedRange) -> Result<(), PartError> {
        if self.from <= opened.end.before {
            Ok(())
        } else {
            Err(PartError::PastBytes(opened.end.before))
        }
    }
}

/// Whether a file that a system holds can have a record where the range begins.
pub fn is_reachable(range: &ContentsRange) -> bool
    ensures version { OnTrue result (range.now.position.version ≡ Second) }
    ensures place { OnTrue result ((range.now.position.number ≤ MOST)
        × (range.now.position.before ≤ MOST)) }
{
    matches!(range.position.version, Version::Second)
        && range.position.number <= MOST
        && range.position.before <= MOST
}

/// The most records, and the most bytes of contents, that come before a record in any file.
pub const MOST: u64 = 1 << 54;

// Goes to a byte of a file.
fn seek(file: &mut File, byte: u64) -> Result<(), FileError> {
    match file.seek(SeekFrom::Start(byte)) {
        Ok(_) => Ok(()),
        Err(error) => Err(FileError::Read(error)),
    }
}

/// An opener that finds the lengths of records. Its key is never used.
pub fn lengths() -> RecordOpener<'static> {
    RecordOpener::begin_at(&[0; 32], &[0; 24], &[], FIRST)
}

// A record whose place is known, and not its bytes.
#[derive(Clone, Copy)]
struct Found {
    position: RecordPosition,
    /// How many bytes its message has.
    message_len: u64,
    is_last: bool,
}

// Reads the head of the record at a position.
fn look(
    lengths: &RecordOpener<'_>,
    file: &mut File,
    position: RecordPosition,
) -> Result<Found, FileError> {
    let mut head = [0; RECORD_HEAD_BYTES];
    if fill(file, &mut head)? < head.len() {
        return Err(FileError::Stream(RecordError::Truncated));
    }
    let length = lengths.record_len(&head)? as u64;
    Ok(Found {
        position,
        message_len: length.saturating_sub(RECORD_BYTES),
        is_last: head[0] == 1,
    })
}

// The byte of a file at which the record at a position starts.
fn byte_of(position: RecordPosition) -> u64 {
    position
        .number
        .saturating_mul(RECORD_BYTES)
        .saturating_add(position.before)
        .saturating_add(BEGINNING_BYTES as u64)
}

impl Found {
    // Whether a byte of the contents is in this record.
    fn has(&self, byte: u64) -> bool {
        byte.saturating_sub(self.position.before) < self.message_len
    }

    // The position of the record after this one.
    fn next(&self) -> RecordPosition {
        RecordPosition {
            version: self.position.version,
            number: self.position.number.saturating_add(1),
            before: self.position.before.saturating_add(self.message_len),
        }
    }
}

// Finds the record that a byte of the contents is in, or the last one.
fn find(file: &mut File, byte: u64) -> Result<RecordPosition, FileError> {
    let lengths = lengths();
    let mut position = FIRST;
    for _ in 0..MOST {
        seek(file, byte_of(position))?;
        let found = look(&lengths, file, position)?;
        if found.is_last || found.has(byte) {
            return Ok(position);
        }
        position = found.next();
    }
    Err(FileError::TooLong)
}

/// Finds the record in which a part of the contents begins, and goes to its first byte. The file's key is not used: the
/// lengths are not authenticated until the records are opened.
pub fn start_of(file: &mut File, span: Span) -> Result<Start, PartError> {
    let prefix = read_prefix(file)?;
    let position = find(file, span.from)?;
    seek(file, byte_of(position))?;
    Ok(Start {
        prefix,
        range: ContentsRange {
            position,
            skip: span.from.saturating_sub(position.before),
            length: span.length,
        },
        from: span.from,
    })
}
