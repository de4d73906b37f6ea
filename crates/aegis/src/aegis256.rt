//! AEGIS-256: one lane, keys and nonces of 32 bytes, and a rate of 16 bytes.
//!
//! A message that is sealed in any chunks can be opened in others:
//!
//! ```
//! pub fn seal_in_chunks_and_open_in_others(
//!     key: &[u8; 32],
//!     nonce: &[u8; 32],
//!     associated_data: &[u8],
//!     chunks: &[&[u8]],
//!     sealed: &mut [u8],
//!     at: usize,
//!     message: &mut [u8],
//! ) -> Result<usize, Error>
//!     requires lengths { length sealed.old ≡ length (joined chunks.now) }
//!     requires message_within { length sealed.old ≤ MAX_AEAD_BYTES }
//!     requires associated_data_within { length associated_data.now ≤ MAX_AEAD_BYTES }
//!     requires cut { at ≤ length sealed.old }
//!     requires room { length sealed.old ≤ length message.old }
//!     ensures opened { IsOk result }
//!     ensures same { IfOk result (λ n. take n message.new ≡ joined chunks.now) }
//! {
//!     let cipher = Aegis256::<32>::new(key, nonce);
//!     let tag = cipher.seal_chunks(associated_data, chunks, sealed);
//!     let mut decryptor = cipher.decryptor(associated_data, message);
//!     decryptor.update(&sealed[..at])?;
//!     decryptor.update(&sealed[at..])?;
//!     decryptor.finalize_len(&tag)
//! }
//! ```

use aegis_256::State256X1 as State;
pub use aegis_base::{Error, Tag};
use aegis_engine::{Cipher, Once};

/// A key of 32 bytes.
pub type Key = [u8; 32];

/// A nonce of 32 bytes. It must be used only once under a key.
pub type Nonce = [u8; 32];

/// AEGIS-256 with tags of `TAG_BYTES` bytes, 16 or 32, under a key and a nonce. Its calls are those of [`Cipher`].
pub type Aegis256<const TAG_BYTES: usize> = Cipher<State, Once, 32, TAG_BYTES>;

/// Seals a message in chunks with AEGIS-256; [`Cipher::encryptor`] creates one. Its calls are those of
/// [`aegis_engine::Encryptor`].
pub type Encryptor<const TAG_BYTES: usize> = aegis_engine::Encryptor<State, TAG_BYTES>;

/// Opens a ciphertext in chunks with AEGIS-256; [`Cipher::decryptor`] creates one. Its calls are those of
/// [`aegis_engine::Decryptor`].
pub type Decryptor<'a, const TAG_BYTES: usize> = aegis_engine::Decryptor<'a, State, TAG_BYTES>;

/// A MAC of `TAG_BYTES` bytes, 16 or 32, with AEGIS-256. Its calls are those of [`aegis_engine::Mac`].
pub type Aegis256Mac<const TAG_BYTES: usize> = aegis_engine::Mac<State, 32, TAG_BYTES>;
