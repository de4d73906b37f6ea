//! Lengths of chunked messages.

ghost use Rattle.std.specs.Prelude.{◌≡◌, ◌+◌, ◌<◌, ◌≤◌, IfErr, IfOk, length};
ghost use Rattle.aegis_base.specs.Chunks.{joined};

use crate::error::{Error, MAX_AEAD_BYTES};

/// Returns the length in bytes of a message of `total` bytes after `more` bytes, or [`Error::MessageTooLong`] exactly
/// if it is more than [`MAX_AEAD_BYTES`].
pub fn counted(total: u64, more: u64) -> Result<u64, Error>
    requires { total ≤ MAX_AEAD_BYTES }
    ensures sum { IfOk result (λ sum. (sum ≡ total + more) × (sum ≤ MAX_AEAD_BYTES)) }
    ensures too_long { IfErr result (λ e. (e ≡ Error.MessageTooLong)
        × (MAX_AEAD_BYTES < total + more)) }
{
    if more > MAX_AEAD_BYTES - total {
        return Err(Error::MessageTooLong);
    }
    Ok(total + more)
}

/// Returns the length in bytes of a message of `total` bytes after `more` bytes, which the limit has room for.
#[inline(always)]
pub fn counted_within(total: u64, more: usize) -> u64
    requires { total + more ≤ MAX_AEAD_BYTES }
    ensures { result ≡ total + more }
{
    match counted(total, more as u64) {
        Ok(sum) => sum,
        Err(_) => unreachable!(),
    }
}

/// Returns the length of all chunks together, in bytes, or `None` exactly if it is more than [`MAX_AEAD_BYTES`].
#[tactic(auto, using(std::proofs::lemmas::Grind::common_steps, crate::proofs::ChunkFacts::chunk_laws))]
pub fn chunks_len(chunks: &[&[u8]]) -> Option<u64>
    ensures within { length (joined chunks.now) ≤ MAX_AEAD_BYTES
        → result ≡ Some (length (joined chunks.now)) }
    ensures past { MAX_AEAD_BYTES < length (joined chunks.now) → result ≡ None }
{
    let mut length = 0;
    for chunk in chunks {
        let Ok(sum) = counted(length, chunk.len() as u64) else {
            return None;
        };
        length = sum;
    }
    Some(length)
}
