//! Parts of contents: of a file that is damaged or truncated after them, and over readers and writers that fail.

use super::failures::{cut_off, narrow};
use super::{CONTEXT, KEY, PLACES, PREFIX, three_records};
use aegis::record::{RecordError, RecordPosition, Version};
use aegis_files::{ContentsRange, FileError, OpenedRange, open_range};
use std::alloc::Global;
use std::io::{ErrorKind, Read, Write};
use std::test::Fail;

// The end of the second record and all of the third.
const PART: &[u8] = b"twothree";

// How many bytes of the second record come before the part.
const SKIP: u64 = 4;

// Opens the part, or the beginning of it that has this length, from the second record on.
fn open_part<R: Read, W: Write>(
    alloc: Global,
    length: u64,
    input: &mut R,
    output: &mut W,
) -> Result<OpenedRange, FileError> {
    let position = RecordPosition {
        version: Version::Second,
        number: 1,
        before: 3,
    };
    let range = ContentsRange {
        position,
        skip: SKIP,
        length,
    };
    open_range(alloc, &KEY, &PREFIX, &CONTEXT, range, input, output)
}

// The records of a file from the second one on.
fn records(file: &[u8]) -> &[u8] {
    file.get(PLACES[1]..).unwrap_or(&[])
}

// Opens the part of a file. Returns what was written, and the result.
fn opened_part(
    alloc: Global,
    file: &[u8],
    length: u64,
) -> (Vec<u8>, Result<OpenedRange, FileError>) {
    let mut input = records(file);
    let mut written = Vec::new(alloc);
    let result = open_part(alloc, length, &mut input, &mut written);
    (written, result)
}

#[test]
fn a_part_ends_with_the_contents(rt: HostRuntime) -> Result<(), Fail> {
    let file = three_records(rt.alloc(), &KEY, &PREFIX)?;
    let (written, result) = opened_part(rt.alloc(), &file, u64::MAX);
    assert!(rt; matches!(result, Ok(opened) if opened.length == 8 && opened.is_last));
    assert_eq!(rt; written.as_slice(), PART);
    Ok(())
}

// A part opens though a record after it is damaged or cut off. One that reaches it is refused, after its bytes in front
// of that were written.
#[test]
fn records_after_the_part_need_not_be_whole(rt: HostRuntime) -> Result<(), Fail> {
    let mut file = three_records(rt.alloc(), &KEY, &PREFIX)?;
    if let Some(byte) = file.last_mut() {
        *byte ^= 1;
    }
    let (written, result) = opened_part(rt.alloc(), &file, 3);
    assert!(rt; result.is_ok() && written.as_slice() == b"two".as_slice());
    let (written, result) = opened_part(rt.alloc(), &file, 4);
    let is_damaged = matches!(result, Err(FileError::Stream(RecordError::Damaged(2))));
    assert!(rt; is_damaged && written.as_slice() == b"two".as_slice());
    file.pop();
    let (written, result) = opened_part(rt.alloc(), &file, 4);
    let is_truncated = matches!(result, Err(FileError::Stream(RecordError::Truncated)));
    assert!(rt; is_truncated && written.as_slice() == b"two".as_slice());
    Ok(())
}

#[test]
fn a_part_ends_where_a_read_fails(rt: HostRuntime) -> Result<(), Fail> {
    let file = three_records(rt.alloc(), &KEY, &PREFIX)?;
    let left = records(&file);
    for count in 0..left.len() {
        let mut input = cut_off(&left[..count]);
        let mut written = Vec::new(rt.alloc());
        let result = open_part(rt.alloc(), 8, &mut input, &mut written);
        let is_read = matches!(result, Err(FileError::Read(_)));
        assert!(rt; is_read && PART.starts_with(&written), "at {count}");
    }
    Ok(())
}

#[test]
fn a_part_ends_where_a_write_fails(rt: HostRuntime) -> Result<(), Fail> {
    let file = three_records(rt.alloc(), &KEY, &PREFIX)?;
    for room in 0..PART.len() {
        let mut output = narrow(rt.alloc(), room, Some(ErrorKind::StorageFull));
        let mut input = records(&file);
        let result = open_part(rt.alloc(), 8, &mut input, &mut output);
        let is_write = matches!(result, Err(FileError::Write(_)));
        let is_beginning = output.written.as_slice() == &PART[..room];
        assert!(rt; is_write && is_beginning, "with room {room}");
    }
    Ok(())
}
