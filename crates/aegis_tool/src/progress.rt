//! Counted inputs and outputs, and the progress of a long input on a terminal.

ghost use Rattle.std.specs.Prelude.{None};

use crate::failure::Failure;
use std::io;
use std::io::{BufReader, ErrorKind, Read, Write};
use std::time::Instant;

/// The number of bytes from one message to the next.
const STEP: u64 = 64 * 1024 * 1024;

const KIBIBYTE: u64 = 1024;

const MEBIBYTE: u64 = 1024 * 1024;

/// The milliseconds that pass before a rate forgets what was read earlier.
const WINDOW: u64 = 4000;

// What is done, in tenths.
const BARS: [&str; 11] = [
    "..........",
    "#.........",
    "##........",
    "###.......",
    "####......",
    "#####.....",
    "######....",
    "#######...",
    "########..",
    "#########.",
    "##########",
];

/// Where progress is shown: a terminal, with a clock.
#[derive(Clone, Copy)]
pub struct Display<'a> {
    pub terminal: &'a HostRuntime,
    pub begun: Instant,
    /// The length of the input in bytes, if it is known.
    pub length: Option<u64>,
}

impl Display<'_> {
    // The milliseconds since the beginning. A clock that fails stands at 0.
    fn milliseconds(&self) -> u64 {
        match self.begun.elapsed(self.terminal) {
            Ok(time) => time
                .as_secs()
                .saturating_mul(1000)
                .saturating_add(time.subsec_millis() as u64),
            Err(_) => 0,
        }
    }

    // Shows how much was read, and how many MiB a second, in at most 30 columns. A terminal with fewer keeps the line
    // in one row, since wrapping is turned off while it is written.
    fn show(&self, read: u64, rate: u64) {
        let _ = match self.length {
            Some(length) => {
                let done = (read / (length / 100).max(1)).min(100);
                let bar = match BARS.get((done / 10) as usize) {
                    Some(bar) => *bar,
                    None => "",
                };
                eprint!(self.terminal; "\x1b[?7l\r[{}] {}% {} MiB/s  \x1b[?7h", bar, done, rate)
            }
            None => {
                let read = read / MEBIBYTE;
                eprint!(self.terminal; "\x1b[?7l\r{} MiB, {} MiB/s  \x1b[?7h", read, rate)
            }
        };
    }
}

// How much was read after so many milliseconds.
#[derive(Clone, Copy)]
struct Mark {
    read: u64,
    milliseconds: u64,
}

const BEGINNING: Mark = Mark {
    read: 0,
    milliseconds: 0,
};

impl Mark {
    // How many MiB were read a second since another mark.
    fn rate_since(&self, older: Mark) -> u64 {
        let read = self.read.saturating_sub(older.read);
        let milliseconds = self.milliseconds.saturating_sub(older.milliseconds);
        (read / KIBIBYTE).saturating_mul(1000) / milliseconds.max(1) / KIBIBYTE
    }
}

/// A reader that shows how much was read from it. Once it has ended, it is not read again: a terminal, a pipe or a file
/// might go on.
#[derive(Drop)]
pub struct Counted<'a, R: Read + Drop> {
    inner: R,
    display: Option<Display<'a>>,
    read: u64,
    said: u64,
    has_ended: bool,
    // The last two times that are at least `WINDOW` apart.
    older: Mark,
    newer: Mark,
}

impl<'a, R: Read + Drop> Counted<'a, R> {
    /// Creates a reader that has shown nothing yet.
    pub fn new(inner: R, display: Option<Display<'a>>) -> Self {
        Counted {
            inner,
            display,
            read: 0,
            said: 0,
            has_ended: false,
            older: BEGINNING,
            newer: BEGINNING,
        }
    }

    /// How many bytes were read.
    pub fn count(&self) -> u64 {
        self.read
    }

    // Shows the progress, with the rate of the last seconds.
    fn show(&mut self, display: Display<'_>) {
        let now = Mark {
            read: self.read,
            milliseconds: display.milliseconds(),
        };
        if now.milliseconds.saturating_sub(self.newer.milliseconds) >= WINDOW {
            self.older = self.newer;
            self.newer = now;
        }
        display.show(now.read, now.rate_since(self.older));
    }

    /// Ends the line that shows the progress, if one was shown, and prints how much was read in which time.
    pub fn end(&mut self) {
        if self.said > 0 {
            if let Some(display) = self.display {
                self.show(display);
                let (read, milliseconds) = (self.read / MEBIBYTE, display.milliseconds());
                let _ = eprintln!(display.terminal; "\n{} MiB in {} s", read, milliseconds / 1000);
            }
        }
    }
}

impl<R: Read + Drop> Read for Counted<'_, R> {
    // What a file has left is unknown in any case.
    ghost remaining = { λ _. None };

    fn read(&mut self, buf: &mut [u8]) -> io::Result<usize> {
        if self.has_ended {
            return Ok(0);
        }
        let count = self.inner.read(buf)?;
        self.has_ended = count == 0;
        self.read = self.read.saturating_add(count as u64);
        if self.read.saturating_sub(self.said) >= STEP {
            self.said = self.read;
            if let Some(display) = self.display {
                self.show(display);
            }
        }
        Ok(count)
    }
}

// The most bytes of a message that a pipe keeps in one piece (`PIPE_BUF`). A shorter read would lose the rest of it.
const MESSAGE_BYTES: usize = 4096;

/// Counts an input, and reads at least one message of a pipe at a time from it.
pub fn buffered<'a, 'r, R: Read + Drop>(
    rt: &HostRuntime,
    inner: R,
    display: Option<Display<'r>>,
) -> Result<Counted<'r, BufReader<R>>, Failure<'a>> {
    match BufReader::with_capacity(rt.alloc(), MESSAGE_BYTES, inner) {
        Ok(reader) => Ok(Counted::new(reader, display)),
        Err(_) => Err(Failure::OutOfMemory),
    }
}

/// A writer that counts what was written to it.
#[derive(Drop)]
pub struct Measured<W: Write + Drop> {
    inner: W,
    /// How many bytes were written.
    pub written: u64,
}

impl<W: Write + Drop> Measured<W> {
    /// Creates a writer that has written nothing yet.
    pub fn new(inner: W) -> Self {
        Measured { inner, written: 0 }
    }
}

impl<W: Write + Drop> Write for Measured<W> {
    ghost contents = { λ t. W.contents t.inner };

    fn write(&mut self, buf: &[u8]) -> io::Result<usize> {
        let count = self.inner.write(buf)?;
        self.written = self.written.saturating_add(count as u64);
        Ok(count)
    }

    fn flush(&mut self) -> io::Result<()> {
        self.inner.flush()
    }
}
