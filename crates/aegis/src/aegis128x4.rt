//! AEGIS-128X4: four lanes, keys and nonces of 16 bytes, and a rate of 128 bytes.
//!
//! A message that is xored with the keystream twice is unchanged:
//!
//! ```
//! pub fn xored_twice(key: &[u8; 16], nonce: &[u8; 16], message: &mut [u8])
//!     ensures { message.new ≡ message.old }
//! {
//!     Aegis128X4::<16>::new(key, nonce).stream_xor_in_place(message);
//!     Aegis128X4::<16>::new(key, nonce).stream_xor_in_place(message);
//! }
//! ```

use aegis_128::State128X4 as State;
pub use aegis_base::{Error, Tag};
use aegis_engine::{Cipher, Reusable};

/// A key of 16 bytes.
pub type Key = [u8; 16];

/// A nonce of 16 bytes. It must be used only once under a key.
pub type Nonce = [u8; 16];

/// AEGIS-128X4 with tags of `TAG_BYTES` bytes, 16 or 32, under a key and a nonce. Its calls are those of [`Cipher`].
pub type Aegis128X4<const TAG_BYTES: usize> = Cipher<State, Reusable, 16, TAG_BYTES>;

/// Seals a message in chunks with AEGIS-128X4; [`Cipher::encryptor`] creates one. Its calls are those of
/// [`aegis_engine::Encryptor`].
pub type Encryptor<const TAG_BYTES: usize> = aegis_engine::Encryptor<State, TAG_BYTES>;

/// Opens a ciphertext in chunks with AEGIS-128X4; [`Cipher::decryptor`] creates one. Its calls are those of
/// [`aegis_engine::Decryptor`].
pub type Decryptor<'a, const TAG_BYTES: usize> = aegis_engine::Decryptor<'a, State, TAG_BYTES>;

/// A MAC of `TAG_BYTES` bytes, 16 or 32, with AEGIS-128X4. Its calls are those of [`aegis_engine::Mac`].
pub type Aegis128X4Mac<const TAG_BYTES: usize> = aegis_engine::Mac<State, 16, TAG_BYTES>;
