//! AEGIS-128L: one lane, keys and nonces of 16 bytes, and a rate of 32 bytes.
//!
//! A message that is sealed in place and opened again is unchanged:
//!
//! ```
//! pub fn round_trip(key: &Key, nonce: &Nonce, header: &[u8], message: &mut [u8]) -> Result<(), Error>
//!     requires header_within { length header.now ≤ MAX_AEAD_BYTES }
//!     requires message_within { length message.old ≤ MAX_AEAD_BYTES }
//!     ensures opened { IsOk result }
//!     ensures same { message.new ≡ message.old }
//! {
//!     let tag = Aegis128L::<32>::new(key, nonce).encrypt_in_place(message, header);
//!     Aegis128L::new(key, nonce).decrypt_in_place(message, &tag, header)
//! }
//! ```

use aegis_128::State128X1 as State;
pub use aegis_base::{Error, Tag};
use aegis_engine::{Cipher, Once};

/// A key of 16 bytes.
pub type Key = [u8; 16];

/// A nonce of 16 bytes. It must be used only once under a key.
pub type Nonce = [u8; 16];

/// AEGIS-128L with tags of `TAG_BYTES` bytes, 16 or 32, under a key and a nonce. Its calls are those of [`Cipher`].
pub type Aegis128L<const TAG_BYTES: usize> = Cipher<State, Once, 16, TAG_BYTES>;

/// Seals a message in chunks with AEGIS-128L; [`Cipher::encryptor`] creates one. Its calls are those of
/// [`aegis_engine::Encryptor`].
pub type Encryptor<const TAG_BYTES: usize> = aegis_engine::Encryptor<State, TAG_BYTES>;

/// Opens a ciphertext in chunks with AEGIS-128L; [`Cipher::decryptor`] creates one. Its calls are those of
/// [`aegis_engine::Decryptor`].
pub type Decryptor<'a, const TAG_BYTES: usize> = aegis_engine::Decryptor<'a, State, TAG_BYTES>;

/// A MAC of `TAG_BYTES` bytes, 16 or 32, with AEGIS-128L. Its calls are those of [`aegis_engine::Mac`].
pub type Aegis128LMac<const TAG_BYTES: usize> = aegis_engine::Mac<State, 16, TAG_BYTES>;
