//! AEGIS-256X4: four lanes, keys and nonces of 32 bytes, and a rate of 64 bytes.
//!
//! An input is accepted with its MAC:
//!
//! ```
//! pub fn has_mac(
//!     key: &[u8; 32],
//!     nonce: &[u8; 32],
//!     input: &[u8],
//!     expected: &[u8; 32],
//! ) -> Result<(), Error>
//!     requires { length input.now ≤ MAX_AEAD_BYTES }
//!     ensures { expected.now ≡ mac Aegis256X4 32 key.now nonce.now input.now → IsOk result }
//! {
//!     let mut mac = Aegis256X4Mac::<32>::new_with_nonce(key, nonce);
//!     mac.update(input);
//!     mac.verify(expected)
//! }
//! ```

use aegis_256::State256X4 as State;
pub use aegis_base::{Error, Tag};
use aegis_engine::{Cipher, Reusable};

/// A key of 32 bytes.
pub type Key = [u8; 32];

/// A nonce of 32 bytes. It must be used only once under a key.
pub type Nonce = [u8; 32];

/// AEGIS-256X4 with tags of `TAG_BYTES` bytes, 16 or 32, under a key and a nonce. Its calls are those of [`Cipher`].
pub type Aegis256X4<const TAG_BYTES: usize> = Cipher<State, Reusable, 32, TAG_BYTES>;

/// Seals a message in chunks with AEGIS-256X4; [`Cipher::encryptor`] creates one. Its calls are those of
/// [`aegis_engine::Encryptor`].
pub type Encryptor<const TAG_BYTES: usize> = aegis_engine::Encryptor<State, TAG_BYTES>;

/// Opens a ciphertext in chunks with AEGIS-256X4; [`Cipher::decryptor`] creates one. Its calls are those of
/// [`aegis_engine::Decryptor`].
pub type Decryptor<'a, const TAG_BYTES: usize> = aegis_engine::Decryptor<'a, State, TAG_BYTES>;

/// A MAC of `TAG_BYTES` bytes, 16 or 32, with AEGIS-256X4. Its calls are those of [`aegis_engine::Mac`].
pub type Aegis256X4Mac<const TAG_BYTES: usize> = aegis_engine::Mac<State, 32, TAG_BYTES>;
