//! Text on a terminal, which acts on other bytes.

use std::io::{ErrorKind, Write};
use std::{io, str};

// The most bytes that a character has.
const CHARACTER_BYTES: usize = 4;

/// A writer of text alone. Bytes that are no UTF-8, and characters that a terminal acts on, fail with
/// [`ErrorKind::InvalidData`], and are not written. A character is written once all of its bytes have come.
#[derive(Drop)]
pub struct TextOnly<W: Write + Drop> {
    inner: W,
    // The first bytes of a character, at the beginning.
    begun: [u8; CHARACTER_BYTES],
    begun_len: usize,
}

// Whether a character sets the direction of a text, and so where the terminal shows the characters after it.
fn is_direction(character: char) -> bool {
    matches!(
        character,
        '\u{61c}' | '\u{200e}' | '\u{200f}' | '\u{202a}'..='\u{202e}' | '\u{2066}'..='\u{206f}'
    )
}

// Whether a terminal shows the character as a part of a text, and does not act on it.
fn is_text(character: char) -> bool {
    match character {
        '\t' | '\n' => true,
        _ => !character.is_control() && !is_direction(character),
    }
}

// How many of the bytes are whole characters of a text. Only the first bytes of one more may follow them.
fn text_len(bytes: &[u8]) -> io::Result<usize> {
    let len = match str::from_utf8(bytes) {
        Ok(_) => bytes.len(),
        Err(error) if error.error_len().is_none() => error.valid_up_to(),
        Err(_) => return Err(io::Error::from(ErrorKind::InvalidData)),
    };
    let text = str::from_utf8(bytes.get(..len).unwrap_or(&[])).unwrap_or("");
    if text.chars().all(|character| is_text(character)) {
        Ok(len)
    } else {
        Err(io::Error::from(ErrorKind::InvalidData))
    }
}

impl<W: Write + Drop> TextOnly<W> {
    /// Creates a writer that has written nothing yet.
    pub fn new(inner: W) -> Self {
        TextOnly {
            inner,
            begun: [0; CHARACTER_BYTES],
            begun_len: 0,
        }
    }

    // Adds bytes to the character that has begun, until it is whole, and writes it. Returns how many.
    fn finish(&mut self, bytes: &[u8]) -> io::Result<usize> {
        for (taken, byte) in bytes.iter().enumerate() {
            if self.begun_len == 0 || self.begun_len >= CHARACTER_BYTES {
                return Ok(taken);
            }
            self.begun[self.begun_len] = *byte;
            self.begun_len += 1;
            if text_len(&self.begun[..self.begun_len])? > 0 {
                self.inner.write_all(&self.begun[..self.begun_len])?;
                self.begun_len = 0;
            }
        }
        Ok(bytes.len())
    }
}

impl<W: Write + Drop> Write for TextOnly<W> {
    fn write(&mut self, buf: &[u8]) -> io::Result<usize> {
        let taken = self.finish(buf)?;
        let rest = buf.get(taken..).unwrap_or(&[]);
        let whole = text_len(rest)?;
        self.inner.write_all(rest.get(..whole).unwrap_or(&[]))?;
        let begun = rest.get(whole..).unwrap_or(&[]);
        for (place, byte) in self.begun.iter_mut().zip(begun) {
            *place = *byte;
        }
        if !begun.is_empty() {
            self.begun_len = begun.len().min(CHARACTER_BYTES);
        }
        Ok(buf.len())
    }

    fn flush(&mut self) -> io::Result<()> {
        if self.begun_len > 0 {
            return Err(io::Error::from(ErrorKind::InvalidData));
        }
        self.inner.flush()
    }
}
