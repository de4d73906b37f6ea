//! Readers, writers and memory that fail.

use super::{
    KEY, PREFIX, TEXT, long_contents, open, opened, opened_with, rekey, seal, sealed, three_records,
};
use aegis::record::RecordError;
use aegis_files::{FileError, PIECE_BYTES};
use std::alloc::Global;
use std::io::ErrorKind;
use std::test::Fail;
use test_tools::ends::{CutOff, Narrow};
use test_tools::memory::Rationed;

// More requests than are made to seal or open a small file.
const REQUESTS: u64 = 40;

/// A reader of these bytes that fails after them.
pub fn cut_off(left: &[u8]) -> CutOff<'_> {
    CutOff {
        left,
        error: ErrorKind::Other,
    }
}

/// A writer that has room for so many bytes.
pub fn narrow(alloc: Global, room: usize, error: Option<ErrorKind>) -> Narrow {
    Narrow {
        written: Vec::new(alloc),
        room,
        error,
        flushes: true,
    }
}

// A writer that takes all bytes, and whose flush fails.
fn without_flush(alloc: Global) -> Narrow {
    Narrow {
        written: Vec::new(alloc),
        room: usize::MAX,
        error: None,
        flushes: false,
    }
}

// Seals what a reader has before it fails. Returns the file, and whether the error is the reader's.
fn sealed_until_failure(alloc: Global, left: &[u8]) -> (Vec<u8>, bool) {
    let mut file = Vec::new(alloc);
    let result = seal(alloc, &mut cut_off(left), &mut file);
    (file, matches!(result, Err(FileError::Read(_))))
}

// Whether sealing contents into a writer gives the writer's error.
fn seal_fails(alloc: Global, file: &mut Narrow) -> bool {
    let mut input = TEXT;
    matches!(seal(alloc, &mut input, file), Err(FileError::Write(_)))
}

// Whether opening a file into a writer gives the writer's error.
fn open_fails(alloc: Global, file: &[u8], contents: &mut Narrow) -> bool {
    let mut input = file;
    matches!(open(alloc, &mut input, contents), Err(FileError::Write(_)))
}

// Each length of input before a read fails: the error is the reader's, and what was written is a beginning of the
// contents.
#[test]
fn opening_stops_where_a_read_fails(rt: HostRuntime) -> Result<(), Fail> {
    let file = three_records(rt.alloc(), &KEY, &PREFIX)?;
    for length in 0..=file.len() {
        let (contents, result) = opened_with(rt.alloc(), &mut cut_off(&file[..length]));
        let is_read = matches!(result, Err(FileError::Read(_)));
        assert!(rt; is_read && TEXT.starts_with(&contents), "at {length}");
    }
    Ok(())
}

#[test]
fn sealing_stops_where_a_read_fails(rt: HostRuntime) -> Result<(), Fail> {
    let whole = sealed(rt.alloc(), TEXT)?;
    let beginning = &whole[..whole.len().min(28)];
    for length in 0..=TEXT.len() {
        let (file, is_read) = sealed_until_failure(rt.alloc(), &TEXT[..length]);
        assert!(rt; is_read && file.as_slice() == beginning, "at {length}");
    }
    Ok(())
}

// A reader that fails after two pieces and a part of a third: the pieces are written, with no last record, so what was
// written does not open.
#[test]
fn a_read_that_fails_leaves_no_whole_file(rt: HostRuntime) -> Result<(), Fail> {
    let contents = long_contents(rt.alloc(), 2 * PIECE_BYTES + 9)?;
    let whole = sealed(rt.alloc(), &contents)?;
    let (file, is_read) = sealed_until_failure(rt.alloc(), &contents);
    assert!(rt; is_read && whole.starts_with(&file));
    assert_eq!(rt; file.len(), 24 + 4 + 2 * (37 + PIECE_BYTES));
    let (found, result) = opened(rt.alloc(), &file);
    assert!(rt; matches!(result, Err(FileError::Stream(RecordError::Truncated))));
    assert_eq!(rt; found.len(), 2 * PIECE_BYTES);
    assert!(rt; contents.starts_with(&found));
    Ok(())
}

// A writer that fails after each number of bytes has a beginning of the file.
#[test]
fn sealing_stops_where_a_write_fails(rt: HostRuntime) -> Result<(), Fail> {
    let whole = sealed(rt.alloc(), TEXT)?;
    for room in 0..whole.len() {
        let mut file = narrow(rt.alloc(), room, None);
        assert!(rt; seal_fails(rt.alloc(), &mut file), "with room {room}");
        assert!(rt;
            file.written.as_slice() == &whole[..room],
            "with room {room}"
        );
    }
    Ok(())
}

#[test]
fn opening_stops_where_a_write_fails(rt: HostRuntime) -> Result<(), Fail> {
    let file = three_records(rt.alloc(), &KEY, &PREFIX)?;
    for room in 0..TEXT.len() {
        let mut contents = narrow(rt.alloc(), room, Some(ErrorKind::StorageFull));
        assert!(rt;
            open_fails(rt.alloc(), &file, &mut contents),
            "with room {room}"
        );
        assert!(rt;
            contents.written.as_slice() == &TEXT[..room],
            "with room {room}"
        );
    }
    Ok(())
}

// A flush that fails is reported, though all bytes were written.
#[test]
fn a_failed_flush_is_reported(rt: HostRuntime) -> Result<(), Fail> {
    let whole = sealed(rt.alloc(), TEXT)?;
    let mut file = without_flush(rt.alloc());
    assert!(rt; seal_fails(rt.alloc(), &mut file));
    assert!(rt; file.written == whole);
    let mut contents = without_flush(rt.alloc());
    assert!(rt; open_fails(rt.alloc(), &whole, &mut contents));
    assert!(rt; contents.written.as_slice() == TEXT);
    Ok(())
}

// The file of contents, with so many requests of memory.
fn sealed_within(
    alloc: Global,
    contents: &[u8],
    requests: u64,
) -> (Vec<u8>, Result<(), FileError>) {
    let heap = Rationed::new(alloc, requests);
    let mut file = Vec::new(alloc);
    let mut input = contents;
    let result = seal(&heap, &mut input, &mut file);
    (file, result)
}

// The contents of a file, with so many requests of memory.
fn opened_within(alloc: Global, file: &[u8], requests: u64) -> (Vec<u8>, Result<(), FileError>) {
    let heap = Rationed::new(alloc, requests);
    let mut contents = Vec::new(alloc);
    let mut input = file;
    let result = open(&heap, &mut input, &mut contents);
    (contents, result)
}

// Whether these bytes were written, or memory ran out.
fn is_whole_or_refused(written: &[u8], ending: &Result<(), FileError>, whole: &[u8]) -> bool {
    match ending {
        Ok(()) => written == whole,
        Err(error) => matches!(error, FileError::Stream(RecordError::OutOfMemory)),
    }
}

// With each request refused in turn, a file is sealed and opened as with enough memory, or the error is `OutOfMemory`.
#[test]
fn memory_is_refused_in_turn(rt: HostRuntime) -> Result<(), Fail> {
    let whole = sealed(rt.alloc(), TEXT)?;
    for requests in 0..REQUESTS {
        let (file, result) = sealed_within(rt.alloc(), TEXT, requests);
        assert!(rt; is_whole_or_refused(&file, &result, &whole), "{requests}");
        let (contents, result) = opened_within(rt.alloc(), &whole, requests);
        assert!(rt; is_whole_or_refused(&contents, &result, TEXT), "{requests}");
    }
    Ok(())
}

// The record's buffer, and the vector of the other bytes: no piece takes memory.
#[test]
fn memory_is_taken_at_the_start_alone(rt: HostRuntime) -> Result<(), Fail> {
    let contents = long_contents(rt.alloc(), 2 * PIECE_BYTES + 9)?;
    for requests in 0..3 {
        let (file, result) = sealed_within(rt.alloc(), &contents, requests);
        assert_eq!(rt; result.is_ok(), requests == 2, "{requests}");
        assert_eq!(rt; file.is_empty(), requests < 2, "{requests}");
    }
    Ok(())
}

// How many requests are left after the file of contents of this length was opened, and sealed anew.
fn requests_left(alloc: Global, length: usize) -> Result<u64, FileError> {
    let file = sealed(alloc, &long_contents(alloc, length)?)?;
    let heap = Rationed::new(alloc, REQUESTS);
    let mut found = Vec::new(alloc);
    let mut input = file.as_slice();
    open(&heap, &mut input, &mut found)?;
    let mut anew = Vec::new(alloc);
    let mut input = file.as_slice();
    rekey(&heap, &[8; 32], &[10; 24], &mut input, &mut anew)?;
    Ok(heap.left())
}

// After the first record, those that are no longer take no memory.
#[test]
fn later_records_take_no_memory(rt: HostRuntime) -> Result<(), Fail> {
    let left = requests_left(rt.alloc(), PIECE_BYTES)?;
    assert!(rt; left > 0);
    assert_eq!(rt; requests_left(rt.alloc(), 4 * PIECE_BYTES)?, left);
    Ok(())
}
