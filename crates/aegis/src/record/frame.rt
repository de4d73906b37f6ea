//! The parts of a record.

ghost use Rattle.std.specs.Prelude.{◌≡◌};
ghost use Rattle.aegis.specs.Private.{HasParts};
ghost use Rattle.aegis.specs.RecordStream.{parts};

use crate::record::error::RecordError;
use crate::record::version::Version;

// How many bytes the length of a message takes.
const LENGTH_BYTES: usize = 4;

/// How many bytes the tag of a record has.
pub const TAG_BYTES: usize = 32;

/// The parts of bytes that begin with a record.
#[derive(Clone, Copy)]
pub struct Frame<'a> {
    pub flag: u8,
    /// The ciphertext and the tag.
    pub sealed: &'a [u8],
    /// The bytes after the record.
    pub rest: &'a [u8],
}

impl<'a> Frame<'a> {
    /// Splits the bytes into the parts of their first record and the bytes after it. Nothing is opened.
    #[tactic(auto, unfolding(crate::specs::RecordStream::parts))]
    pub fn read(version: Version, bytes: &'a [u8]) -> Result<Frame<'a>, RecordError>
        ensures { HasParts result (parts version bytes.now) }
    {
        let Some((flag, bytes)) = bytes.split_first() else {
            return Err(RecordError::Truncated);
        };
        let flag = *flag;
        if flag > 1 {
            return Err(RecordError::Flag);
        }
        if bytes.len() < LENGTH_BYTES {
            return Err(RecordError::Truncated);
        }
        let (four, body) = bytes.split_at(LENGTH_BYTES);
        let length = u32::from_le_bytes([four[0], four[1], four[2], four[3]]);
        if length > version.limit() {
            return Err(RecordError::TooLong);
        }
        let sealed_length = length as usize + TAG_BYTES;
        if body.len() < sealed_length {
            return Err(RecordError::Truncated);
        }
        let (sealed, rest) = body.split_at(sealed_length);
        Ok(Frame { flag, sealed, rest })
    }
}
