//! Tags, the limit on lengths, and the errors of all calls.

use thiserror::Error;

/// The maximum length of associated data, and of a message, in bytes: 2^61 - 1 (AEGIS), so that a length in bits fits
/// in 64 bits.
pub const MAX_AEAD_BYTES: u64 = (1 << 61) - 1;

/// A tag of 16 or 32 bytes.
pub type Tag<const TAG_BYTES: usize> = [u8; TAG_BYTES];

/// The error of a call that did not succeed. Each call's documentation has the state after each error.
#[derive(Clone, Copy, Debug, PartialEq, Eq, Error)]
pub enum Error {
    /// No message is sealed to this ciphertext and tag, or the MAC is not that of the input.
    #[error("Invalid tag")]
    InvalidTag,
    /// The destination has no room for the chunk.
    #[error("Output buffer too small")]
    OutputBufferTooSmall,
    /// The message would pass [`MAX_AEAD_BYTES`].
    #[error("Message too long")]
    MessageTooLong,
    /// The allocator refused memory.
    #[error("Out of memory")]
    OutOfMemory,
}
