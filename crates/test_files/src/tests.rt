//! Files with one fault, and what the tests share.

mod failures;
mod ranges;

use aegis::record::{RecordError, RecordSealer};
use aegis_files::{FileError, open_stream, rekey_stream, seal_stream};
use std::alloc::{Allocator, Global};
use std::io::{Read, Write};
use std::test::Fail;

const KEY: [u8; 32] = [7; 32];

const PREFIX: [u8; 24] = [9; 24];

const CONTEXT: [u8; 4] = *b"test";

/// Seals contents.
fn seal<A: Allocator + Copy, R: Read, W: Write>(
    alloc: A,
    input: &mut R,
    file: &mut W,
) -> Result<(), FileError> {
    seal_stream(alloc, &KEY, &PREFIX, &CONTEXT, input, file)
}

/// Opens a file.
fn open<A: Allocator + Copy, R: Read, W: Write>(
    alloc: A,
    input: &mut R,
    contents: &mut W,
) -> Result<(), FileError> {
    open_stream(alloc, &KEY, &CONTEXT, input, contents)
}

/// Seals a file anew under another key.
fn rekey<A: Allocator + Copy, R: Read, W: Write>(
    alloc: A,
    key: &[u8; 32],
    prefix: &[u8; 24],
    input: &mut R,
    file: &mut W,
) -> Result<(), FileError> {
    rekey_stream(alloc, &KEY, key, prefix, &CONTEXT, input, file)
}

/// The file of contents.
fn sealed(alloc: Global, contents: &[u8]) -> Result<Vec<u8>, FileError> {
    let mut file = Vec::new(alloc);
    let mut input = contents;
    seal(alloc, &mut input, &mut file)?;
    Ok(file)
}

/// Opens a file. Returns what was written, and the result.
fn opened_with<R: Read>(alloc: Global, input: &mut R) -> (Vec<u8>, Result<(), FileError>) {
    let mut contents = Vec::new(alloc);
    let result = open(alloc, input, &mut contents);
    (contents, result)
}

/// The same, of the bytes of a file.
fn opened(alloc: Global, file: &[u8]) -> (Vec<u8>, Result<(), FileError>) {
    let mut input = file;
    opened_with(alloc, &mut input)
}

/// Contents of equal bytes.
fn long_contents(alloc: Global, length: usize) -> Result<Vec<u8>, FileError> {
    let mut contents = Vec::new(alloc);
    contents.resize(length, 0x5a)?;
    Ok(contents)
}

/// The messages of the small file.
const MESSAGES: [&[u8]; 3] = [b"one", b"and two", b"three"];

/// The contents of the small file.
const TEXT: &[u8] = b"oneand twothree";

/// A file of three records, under a key and a prefix.
fn three_records(alloc: Global, key: &[u8; 32], prefix: &[u8; 24]) -> Result<Vec<u8>, FileError> {
    let mut file = Vec::new(alloc);
    file.extend_from_slice(prefix)?;
    let mut sealer = RecordSealer::new(key, prefix, &CONTEXT, &mut file)?;
    sealer.seal_next(MESSAGES[0], &mut file)?;
    sealer.seal_next(MESSAGES[1], &mut file)?;
    sealer.seal_last(MESSAGES[2], &mut file)?;
    Ok(file)
}

// The places of the small file's records and of its end. A record has 37 bytes more than its message.
const PLACES: [usize; 4] = [28, 28 + 40, 28 + 40 + 44, 28 + 40 + 44 + 42];

// Whether a file is refused after a beginning of the small file's contents was written.
fn is_refused(written: &[u8], ending: &Result<(), FileError>) -> bool {
    TEXT.starts_with(written) && matches!(ending, Err(FileError::Stream(_)))
}

#[test]
fn each_proper_beginning_is_refused(rt: HostRuntime) -> Result<(), Fail> {
    let file = three_records(rt.alloc(), &KEY, &PREFIX)?;
    assert_eq!(rt; file.len(), PLACES[3]);
    for length in 0..file.len() {
        let (contents, result) = opened(rt.alloc(), &file[..length]);
        let fault = matches!(
            result,
            Err(FileError::Stream(RecordError::Header | RecordError::Truncated))
        );
        assert!(rt; fault, "at {length}");
        assert!(rt; TEXT.starts_with(&contents), "at {length}");
    }
    Ok(())
}

#[test]
fn each_changed_byte_is_refused(rt: HostRuntime) -> Result<(), Fail> {
    let mut file = three_records(rt.alloc(), &KEY, &PREFIX)?;
    for at in 0..file.len() {
        for bit in [0x01, 0x80] {
            file[at] ^= bit;
            let (contents, result) = opened(rt.alloc(), &file);
            assert!(rt; is_refused(&contents, &result), "at {at}");
            file[at] ^= bit;
        }
    }
    Ok(())
}

// A part of a file, or no bytes if it does not have this part.
fn cut(file: &[u8], from: usize, to: usize) -> &[u8] {
    file.get(from..to).unwrap_or(&[])
}

// Swapped, left out, repeated, and taken from the file of another prefix or key.
#[test]
fn records_elsewhere_are_refused(rt: HostRuntime) -> Result<(), Fail> {
    let file = three_records(rt.alloc(), &KEY, &PREFIX)?;
    let other_prefix = three_records(rt.alloc(), &KEY, &[8; 24])?;
    let other_key = three_records(rt.alloc(), &[6; 32], &PREFIX)?;
    let beginning = cut(&file, 0, PLACES[0]);
    let first = cut(&file, PLACES[0], PLACES[1]);
    let second = cut(&file, PLACES[1], PLACES[2]);
    let third = cut(&file, PLACES[2], PLACES[3]);
    let cases = [
        [beginning, second, first, third],
        [beginning, first, third, &[]],
        [beginning, second, third, &[]],
        [beginning, third, &[], &[]],
        [beginning, first, first, third],
        [
            beginning,
            cut(&other_prefix, PLACES[0], PLACES[3]),
            &[],
            &[],
        ],
        [
            beginning,
            first,
            cut(&other_prefix, PLACES[1], PLACES[3]),
            &[],
        ],
        [beginning, first, cut(&other_key, PLACES[1], PLACES[3]), &[]],
    ];
    for parts in cases {
        let mut changed = Vec::new(rt.alloc());
        for part in parts {
            changed.extend_from_slice(part)?;
        }
        let (contents, result) = opened(rt.alloc(), &changed);
        assert!(rt; is_refused(&contents, &result));
    }
    Ok(())
}
