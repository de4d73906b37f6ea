//! The versions of the format, and the limits of a record.

ghost use Rattle.std.specs.Prelude.{◌≡◌, ◌≤◌, ◌∷◌};
ghost use Rattle.std.specs.Int.{to_le_bytes, w32};
ghost use Rattle.aegis.specs.RecordStream.{header, limit};

use crate::record::length::RECORD_HEAD_BYTES;

/// How many bytes a record's message may have at most.
pub const MAX_MESSAGE_BYTES: usize = 16_777_216;

/// How many bytes a record's message may have in the first version.
const MAX_FIRST_MESSAGE_BYTES: usize = 65_536;

/// A version of the format, by the header of its streams.
#[derive(Clone, Copy, Debug, PartialEq, Eq)]
pub enum Version {
    /// `AGR1`.
    First,
    /// `AGR2`.
    Second,
}

impl Version {
    /// The four bytes that a stream begins with.
    pub fn header(self) -> &'static [u8]
        ensures { result.now ≡ header self }
    {
        match self {
            Version::First => b"AGR1",
            Version::Second => b"AGR2",
        }
    }

    /// Returns what a record has in front of the ciphertext of a message of so many bytes.
    pub fn head(self, flag: u8, message_len: usize) -> [u8; RECORD_HEAD_BYTES]
        requires { message_len ≤ limit self }
        ensures { result ≡ flag ∷ to_le_bytes w32 message_len }
    {
        let [a, b, c, d] = (message_len as u32).to_le_bytes();
        [flag, a, b, c, d]
    }

    /// How many bytes a record's message may have.
    pub fn limit(self) -> u32
        ensures { result ≡ limit self }
    {
        match self {
            Version::First => MAX_FIRST_MESSAGE_BYTES as u32,
            Version::Second => MAX_MESSAGE_BYTES as u32,
        }
    }
}
