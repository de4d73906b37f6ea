//! Sockets that keep the boundaries of messages: a read that is shorter than a message loses the rest of it.

use crate::output::STANDARD_INPUT;
use std::alloc::AllocError;
use std::fs::File;
use std::io::{BufRead, BufReader};
use std::os::unix::fs::{FileTypeExt, MetadataExt};
use std::{fs, io, str};

// A word of a line, by its place.
#[derive(Clone, Copy)]
struct Word<'a> {
    place: usize,
    text: &'a str,
}

// Whether a line has all of these words.
fn has(line: &str, words: &[Word<'_>]) -> bool {
    words.iter().all(|word| line.split_whitespace().nth(word.place) == Some(word.text))
}

// Whether a table of the system has a line with these words.
fn is_listed(rt: &HostRuntime, table: &str, words: &[Word<'_>]) -> io::Result<bool> {
    let file = File::open(rt, table)?;
    for line in BufReader::new(rt.alloc(), file)?.split(rt.alloc(), b'\n') {
        let line = line?;
        // The name of another socket need not be UTF-8.
        let Ok(text) = str::from_utf8(&line) else {
            continue;
        };
        if has(text, words) {
            return Ok(true);
        }
    }
    Ok(false)
}

// Whether the system lists the socket of this number as a stream. The numbers of sockets are in columns 6 and 9, and
// `0001` is the type of a stream.
fn is_stream(rt: &HostRuntime, number: &str) -> bool {
    let local = [
        Word {
            place: 4,
            text: "0001",
        },
        Word {
            place: 6,
            text: number,
        },
    ];
    let remote = [Word {
        place: 9,
        text: number,
    }];
    let tables = [
        is_listed(rt, "/proc/self/net/unix", &local),
        is_listed(rt, "/proc/self/net/tcp", &remote),
        is_listed(rt, "/proc/self/net/tcp6", &remote),
    ];
    tables.iter().any(|found| matches!(found, Ok(true)))
}

/// Returns whether standard input is a socket that is not known to be a stream.
pub fn keeps_messages(rt: &HostRuntime) -> Result<bool, AllocError> {
    match fs::metadata(rt, STANDARD_INPUT) {
        Ok(found) if found.file_type().is_socket() => {
            let number = format!(in rt.alloc(); "{}", found.ino())?;
            Ok(!is_stream(rt, number.as_str()))
        }
        _ => Ok(false),
    }
}
