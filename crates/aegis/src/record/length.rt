//! The length of a stream.

ghost use Rattle.std.specs.Prelude.{◌≡◌, ◌<◌, ◌≤◌};
ghost use Rattle.aegis_base.specs.Chunks.{texts};
ghost use Rattle.aegis.specs.RecordStream.{records_length};

use aegis_base::MAX_AEAD_BYTES;

/// How many bytes a header has.
pub const HEADER_BYTES: u64 = 4;

/// How many bytes a record has before its message: a flag and a length.
pub const RECORD_HEAD_BYTES: usize = 1 + 4;

/// How many bytes a record adds to its message: a flag, a length and a tag.
pub const RECORD_BYTES: u64 = 1 + 4 + 32;

/// Returns how many bytes the stream of the messages has: 4, and for each message 37 and its length. Returns `None`
/// exactly if that is more than [`MAX_AEAD_BYTES`].
#[tactic(auto, using(crate::proofs::Lengths::frames_length_more, crate::proofs::Lengths::frames_length_within))]
pub fn records_len(messages: &[&[u8]]) -> Option<u64>
    ensures within { records_length (texts messages.now) ≤ MAX_AEAD_BYTES
        → result ≡ Some (records_length (texts messages.now)) }
    ensures past { MAX_AEAD_BYTES < records_length (texts messages.now) → result ≡ None }
{
    let mut length = HEADER_BYTES;
    for message in messages {
        let record = RECORD_BYTES + message.len() as u64;
        if record > MAX_AEAD_BYTES - length {
            return None;
        }
        length += record;
    }
    Some(length)
}
