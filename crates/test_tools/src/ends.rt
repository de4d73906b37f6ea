//! Readers and writers that fail after some bytes.

use std::io;
use std::io::{ErrorKind, Read, Write};

/// A reader that returns its bytes, and then an error instead of the end.
#[derive(Drop)]
pub struct CutOff<'a> {
    pub left: &'a [u8],
    pub error: ErrorKind,
}

impl Read for CutOff<'_> {
    fn read(&mut self, buf: &mut [u8]) -> io::Result<usize> {
        if self.left.is_empty() {
            return Err(io::Error::from(self.error));
        }
        self.left.read(buf)
    }
}

/// A writer that takes one byte of each write while there is room, and then takes none or returns the error.
#[derive(Drop)]
pub struct Narrow {
    /// The bytes that it took.
    pub written: Vec<u8>,
    /// The number of bytes that it takes.
    pub room: usize,
    /// What a write after these returns, or `None` for `Ok(0)`.
    pub error: Option<ErrorKind>,
    /// Whether its flush succeeds.
    pub flushes: bool,
}

impl Write for Narrow {
    fn write(&mut self, buf: &[u8]) -> io::Result<usize> {
        if self.written.len() >= self.room {
            return match self.error {
                Some(error) => Err(io::Error::from(error)),
                None => Ok(0),
            };
        }
        match buf.first() {
            Some(byte) => {
                self.written.push(*byte)?;
                Ok(1)
            }
            None => Ok(0),
        }
    }

    fn flush(&mut self) -> io::Result<()> {
        if self.flushes {
            Ok(())
        } else {
            Err(io::Error::from(ErrorKind::BrokenPipe))
        }
    }
}
