//! AEGIS-128X2: two lanes, keys and nonces of 16 bytes, and a rate of 64 bytes.
//!
//! A message can be sealed in chunks of any lengths. Its ciphertext and tag are those of the whole message:
//!
//! ```
//! pub fn seal_two_into(
//!     key: &[u8; 16],
//!     nonce: &[u8; 16],
//!     associated_data: &[u8],
//!     first: &[u8],
//!     second: &[u8],
//!     out: &mut [u8],
//!     more: &mut [u8],
//! ) -> [u8; 32]
//!     requires message_within { length first.now + length second.now ≤ MAX_AEAD_BYTES }
//!     requires associated_data_within { length associated_data.now ≤ MAX_AEAD_BYTES }
//!     requires first_length { length out.old ≡ length first.now }
//!     requires second_length { length more.old ≡ length second.now }
//!     ensures { (out.new ++ more.new, result)
//!         ≡ seal Aegis128X2 32 key.now nonce.now associated_data.now (first.now ++ second.now) }
//! {
//!     let mut encryptor = Aegis128X2::<32>::new(key, nonce).encryptor(associated_data);
//!     encryptor.update(first, out);
//!     encryptor.update(second, more);
//!     encryptor.finalize()
//! }
//! ```

use aegis_128::State128X2 as State;
pub use aegis_base::{Error, Tag};
use aegis_engine::{Cipher, Reusable};

/// A key of 16 bytes.
pub type Key = [u8; 16];

/// A nonce of 16 bytes. It must be used only once under a key.
pub type Nonce = [u8; 16];

/// AEGIS-128X2 with tags of `TAG_BYTES` bytes, 16 or 32, under a key and a nonce. Its calls are those of [`Cipher`].
pub type Aegis128X2<const TAG_BYTES: usize> = Cipher<State, Reusable, 16, TAG_BYTES>;

/// Seals a message in chunks with AEGIS-128X2; [`Cipher::encryptor`] creates one. Its calls are those of
/// [`aegis_engine::Encryptor`].
pub type Encryptor<const TAG_BYTES: usize> = aegis_engine::Encryptor<State, TAG_BYTES>;

/// Opens a ciphertext in chunks with AEGIS-128X2; [`Cipher::decryptor`] creates one. Its calls are those of
/// [`aegis_engine::Decryptor`].
pub type Decryptor<'a, const TAG_BYTES: usize> = aegis_engine::Decryptor<'a, State, TAG_BYTES>;

/// A MAC of `TAG_BYTES` bytes, 16 or 32, with AEGIS-128X2. Its calls are those of [`aegis_engine::Mac`].
pub type Aegis128X2Mac<const TAG_BYTES: usize> = aegis_engine::Mac<State, 16, TAG_BYTES>;
