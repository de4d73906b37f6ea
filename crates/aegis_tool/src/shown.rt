//! What messages show of file names and other words: characters that a terminal acts on are escaped.

use std::fmt;

/// A word of the command line in a message. Its characters that cannot be printed are escaped as Rust escapes them.
#[derive(Clone, Copy, Debug)]
pub struct Word<'a>(pub &'a str);

impl fmt::Display for Word<'_> {
    fn fmt<W: fmt::Write>(&self, f: &mut fmt::Formatter<W>) -> fmt::Result {
        for character in self.0.chars() {
            match character {
                '\'' | '"' => write!(f, "{character}")?,
                _ => write!(f, "{}", character.escape_debug())?,
            }
        }
        Ok(())
    }
}

/// A name in a message, escaped like a word. An empty name is shown as two quotation marks.
#[derive(Clone, Copy, Debug)]
pub struct Name<'a>(pub &'a str);

impl fmt::Display for Name<'_> {
    fn fmt<W: fmt::Write>(&self, f: &mut fmt::Formatter<W>) -> fmt::Result {
        match self.0 {
            "" => write!(f, "''"),
            name => write!(f, "{}", Word(name)),
        }
    }
}

/// How many bytes of the contents were verified before a fault, if they were counted.
#[derive(Clone, Copy, Debug)]
pub struct Verified(pub Option<u64>);

impl fmt::Display for Verified {
    fn fmt<W: fmt::Write>(&self, f: &mut fmt::Formatter<W>) -> fmt::Result {
        match self.0 {
            Some(bytes) => write!(f, "; the first {bytes} bytes of the contents are verified"),
            None => Ok(()),
        }
    }
}

/// The bytes of the contents that a damaged record has according to its length, if that is known.
#[derive(Clone, Copy, Debug)]
pub struct Lost(pub Option<(u64, u64)>);

impl fmt::Display for Lost {
    fn fmt<W: fmt::Write>(&self, f: &mut fmt::Formatter<W>) -> fmt::Result {
        match self.0 {
            Some((from, end)) if from < end => write!(
                f,
                " (bytes {from} to {} of the contents, if the length of the record is right; if anything follows, try --from {end})",
                end - 1
            ),
            Some((_, end)) => write!(
                f,
                " (no byte of the contents, if the length of the record is right; if anything follows, try --from {end})"
            ),
            None => Ok(()),
        }
    }
}
