//! AEGIS-256X2: two lanes, keys and nonces of 32 bytes, and a rate of 32 bytes.
//!
//! A message that is sealed into a new vector and opened into another one is unchanged, unless memory runs out:
//!
//! ```
//! pub fn sealed_and_opened_to_vec<A: Allocator + Copy>(
//!     alloc: A,
//!     key: &[u8; 32],
//!     nonce: &[u8; 32],
//!     associated_data: &[u8],
//!     message: &[u8],
//! ) -> Result<Vec<u8, A>, Error>
//!     requires message_within { length message.now ≤ MAX_AEAD_BYTES }
//!     requires associated_data_within { length associated_data.now ≤ MAX_AEAD_BYTES }
//!     ensures { IfOk result (λ opened. opened.items ≡ message.now) }
//! {
//!     let sealing = Aegis256X2::<32>::new(key, nonce);
//!     let (ciphertext, tag) = sealing.encrypt(alloc, message, associated_data)?;
//!     let opening = Aegis256X2::new(key, nonce);
//!     let opened = opening.decrypt(alloc, &ciphertext, &tag, associated_data)?;
//!     Ok(opened)
//! }
//! ```

use aegis_256::State256X2 as State;
pub use aegis_base::{Error, Tag};
use aegis_engine::{Cipher, Reusable};

/// A key of 32 bytes.
pub type Key = [u8; 32];

/// A nonce of 32 bytes. It must be used only once under a key.
pub type Nonce = [u8; 32];

/// AEGIS-256X2 with tags of `TAG_BYTES` bytes, 16 or 32, under a key and a nonce. Its calls are those of [`Cipher`].
pub type Aegis256X2<const TAG_BYTES: usize> = Cipher<State, Reusable, 32, TAG_BYTES>;

/// Seals a message in chunks with AEGIS-256X2; [`Cipher::encryptor`] creates one. Its calls are those of
/// [`aegis_engine::Encryptor`].
pub type Encryptor<const TAG_BYTES: usize> = aegis_engine::Encryptor<State, TAG_BYTES>;

/// Opens a ciphertext in chunks with AEGIS-256X2; [`Cipher::decryptor`] creates one. Its calls are those of
/// [`aegis_engine::Decryptor`].
pub type Decryptor<'a, const TAG_BYTES: usize> = aegis_engine::Decryptor<'a, State, TAG_BYTES>;

/// A MAC of `TAG_BYTES` bytes, 16 or 32, with AEGIS-256X2. Its calls are those of [`aegis_engine::Mac`].
pub type Aegis256X2Mac<const TAG_BYTES: usize> = aegis_engine::Mac<State, 32, TAG_BYTES>;
