//! Key files: 64 hexadecimal digits and a line feed.

use crate::command::Place;
use crate::failure::Failure;
use crate::output::{Identity, STANDARD_INPUT};
use crate::shown::Name;
use aegis::aegis256::Key;
use aegis_files::{FileError, fill};
use hex::FromHex;
use std::fs::{File, Metadata};
use std::io::Read;
use std::os::unix::fs::MetadataExt;
use std::random::RandomSource;
use std::{fs, io, str};

// The bits of a file's mode that let others than its owner read or write it.
const OTHERS: u32 = 0o066;

// A key file has two more bytes at most: it ends with a line feed, or with a carriage return before it.
const MOST_BYTES: usize = 66;

/// Generates a random key, and returns it as the line of a key file.
pub fn draw<'a>(rt: &(impl RandomSource + AllocGlobal)) -> Result<String, Failure<'a>> {
    let mut key = [0; 32];
    if let Err(error) = rt.fill_bytes(&mut key) {
        return Err(Failure::Random(error));
    }
    let mut text = hex::encode(rt.alloc(), key.as_slice())?;
    text.push('\n')?;
    Ok(text)
}

// The key of a key file's bytes.
fn parse(bytes: &[u8]) -> Option<Key> {
    if bytes.len() > MOST_BYTES {
        return None;
    }
    let text = str::from_utf8(bytes).ok()?;
    <Key as FromHex>::from_hex(text.trim_end()).ok()
}

// Reads a key file, or as much of it as shows that it is none.
fn read_key<R: Read>(input: &mut R) -> io::Result<Option<Key>> {
    let mut bytes = [0; MOST_BYTES + 1];
    match fill(input, &mut bytes) {
        Ok(count) => Ok(parse(&bytes[..count])),
        Err(FileError::Read(error)) => Err(error),
        Err(_) => Err(io::Error::from(io::ErrorKind::OutOfMemory)),
    }
}

/// A key, and the file that it was read from.
#[derive(Clone, Copy)]
pub struct KeyFile<'a> {
    pub key: Key,
    pub name: Name<'a>,
    // The file's identity, unless it is standard input.
    identity: Option<Identity>,
    is_standard: bool,
}

impl<'a> KeyFile<'a> {
    /// Returns the identity of the file that the key was read from.
    pub fn identity(&self, rt: &HostRuntime) -> Result<Option<Identity>, Failure<'a>> {
        if !self.is_standard {
            return Ok(self.identity);
        }
        Identity::of_standard_input(rt).map_err(|error| Failure::KeyFile(self.name, error))
    }

    /// Returns whether the file of this name is a key file with the key: its contents show that, also if the key comes
    /// through a pipe from another program. A file that the user may not read is taken for none.
    pub fn is_in(&self, rt: &HostRuntime, name: &str) -> io::Result<bool> {
        if !fs::metadata(rt, name)?.is_file() {
            return Ok(false);
        }
        match File::open(rt, name) {
            Ok(mut file) => Ok(read_key(&mut file)? == Some(self.key)),
            Err(error) if error.kind() == io::ErrorKind::PermissionDenied => Ok(false),
            Err(error) => Err(error),
        }
    }
}

/// The name of a key file that is standard input.
pub const STANDARD: &str = "-";

/// Returns the place of a key file.
pub fn place_of(name: &str) -> Place<'_> {
    match name {
        STANDARD => Place::Standard,
        _ => Place::File(name),
    }
}

// The key that an input has.
fn key_in<'a, R: Read>(input: &mut R, name: Name<'a>) -> Result<Key, Failure<'a>> {
    match read_key(input) {
        Ok(Some(key)) => Ok(key),
        Ok(None) => Err(Failure::NoKey(name)),
        Err(error) => Err(Failure::KeyFile(name, error)),
    }
}

// Warns if the mode of a key file lets others read or change it, unless `quiet`.
fn warn(rt: &HostRuntime, name: Name<'_>, found: &Metadata, quiet: bool) {
    if !quiet && found.is_file() && found.mode() & OTHERS != 0 {
        let _ = eprintln!(rt;
            "hunkravy: the mode of {name} lets others read or change the key: run chmod 600"
        );
    }
}

// Reads the key of standard input.
fn read_standard<'a>(rt: &HostRuntime, quiet: bool) -> Result<KeyFile<'a>, Failure<'a>> {
    let name = Name("standard input");
    let key = key_in(&mut rt.stdin(), name)?;
    if let Ok(found) = fs::metadata(rt, STANDARD_INPUT) {
        warn(rt, name, &found, quiet);
    }
    Ok(KeyFile {
        key,
        name,
        identity: None,
        is_standard: true,
    })
}

/// Reads the key of a key file, or of standard input if the name is [`STANDARD`]. Warns on standard error if the mode
/// of the file lets others read or change it, unless `quiet`.
pub fn read<'a>(rt: &HostRuntime, name: &'a str, quiet: bool) -> Result<KeyFile<'a>, Failure<'a>> {
    if name == STANDARD {
        return read_standard(rt, quiet);
    }
    let name = Name(name);
    let unreadable = |error| Failure::KeyFile(name, error);
    let mut file = File::open(rt, name.0).map_err(unreadable)?;
    let key = key_in(&mut file, name)?;
    let found = file.metadata().map_err(unreadable)?;
    warn(rt, name, &found, quiet);
    Ok(KeyFile {
        key,
        name,
        identity: Identity::of(&found),
        is_standard: false,
    })
}
