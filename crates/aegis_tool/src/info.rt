//! The properties of a sealed file that are visible without its key.

use crate::command::{Place, Transfer};
use crate::failure::{Failure, printed};
use crate::output::{refuse_errors, refuse_inputs};
use crate::progress::buffered;
use crate::range::lengths;
use crate::shown::Name;
use aegis::record::{RECORD_BYTES, RECORD_HEAD_BYTES, RecordError};
use aegis_files::{FileError, fill, read_prefix};
use std::fs::File;
use std::io::Read;

// The numbers that follow from the lengths in a file.
#[derive(Clone, Copy)]
struct Outline {
    /// The number of whole records, including the last one.
    records: u64,
    /// The length of their messages together, in bytes.
    text_bytes: u64,
    /// How many bytes of the record after them are missing, at least; 0 if the file is whole.
    missing: u64,
}

// Fills a buffer. Returns how many bytes are missing.
fn missing_in<R: Read>(input: &mut R, buffer: &mut [u8]) -> Result<u64, FileError> {
    Ok((buffer.len() - fill(input, buffer)?) as u64)
}

// Reads `count` bytes and discards them. Returns how many are missing.
fn skip<R: Read>(input: &mut R, count: usize) -> Result<u64, FileError> {
    let mut buffer = [0; 4096];
    let mut missing: u64 = 0;
    for _ in 0..count / buffer.len() {
        missing = missing.saturating_add(missing_in(input, &mut buffer)?);
    }
    let last = missing_in(input, &mut buffer[..count % 4096])?;
    Ok(missing.saturating_add(last))
}

// Goes from record to record by their lengths.
fn outline_of<R: Read>(input: &mut R) -> Result<Outline, FileError> {
    read_prefix(input)?;
    let lengths = lengths();
    let mut seen = Outline {
        records: 0,
        text_bytes: 0,
        missing: 0,
    };
    for _ in 0..u64::MAX {
        let mut head = [0; RECORD_HEAD_BYTES];
        let missing = missing_in(input, &mut head)?;
        if missing > 0 {
            seen.missing = missing.saturating_add(RECORD_BYTES - RECORD_HEAD_BYTES as u64);
            return Ok(seen);
        }
        let length = lengths.record_len(&head)?;
        seen.missing = skip(input, length - head.len())?;
        if seen.missing > 0 {
            return Ok(seen);
        }
        seen.records = seen.records.saturating_add(1);
        seen.text_bytes = seen.text_bytes.saturating_add(length as u64 - RECORD_BYTES);
        if head[0] == 1 {
            return match fill(input, &mut head)? {
                0 => Ok(seen),
                _ => Err(FileError::Stream(RecordError::Trailing)),
            };
        }
    }
    Err(FileError::TooLong)
}

// The outline of the file of this name.
fn outline_of_file<'a>(rt: &HostRuntime, name: &'a str) -> Result<Outline, Failure<'a>> {
    let file = File::open(rt, name).map_err(|error| Failure::Input(Name(name), error))?;
    match outline_of(&mut buffered(rt, file, None)?) {
        Ok(seen) => Ok(seen),
        Err(error) => Err(Failure::of_outline(error, Place::File(name))),
    }
}

/// Prints the number of records and of bytes of contents of a sealed file, if it consists of whole records. No tag is
/// verified.
pub fn info<'a>(rt: &HostRuntime, paths: Transfer<'a>) -> Result<(), Failure<'a>> {
    refuse_errors(rt, paths.input)?;
    if !paths.quiet {
        refuse_inputs(rt, paths, &[])?;
    }
    let input = paths.input;
    let seen = match input {
        Place::File(name) => outline_of_file(rt, name)?,
        _ => match outline_of(&mut buffered(rt, rt.stdin(), None)?) {
            Ok(seen) => seen,
            Err(error) => return Err(Failure::of_outline(error, input)),
        },
    };
    if seen.missing > 0 {
        return Err(Failure::Missing(input.input_name(), seen.missing));
    }
    if paths.quiet {
        return Ok(());
    }
    let unit = match seen.records {
        1 => "record",
        _ => "records",
    };
    printed(println!(rt;
        "{} {unit}, {} bytes of contents, not verified",
        seen.records, seen.text_bytes
    ))
}
