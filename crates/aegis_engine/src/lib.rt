//! The engine of AEGIS: all calls of ciphers and MACs, generic in the family and the number of lanes.
//!
//! From the lowest module: `pass` processes rate blocks, `context` associated data and a message in pieces of any
//! lengths, `pieces` several slices and bytes for a vector, and `opening` the chunks of a ciphertext. `cipher`,
//! `encryptor`, `decryptor` and `mac` have the public calls, and `saved` the calls on a context that its caller keeps
//! as bytes.
#![tactic(auto)]

mod cipher;
mod context;
mod decryptor;
mod destination;
mod encryptor;
mod mac;
mod opening;
mod pass;
mod pieces;
mod saved;
mod tag;

pub use cipher::{Cipher, ERASED, Once, Reusable};
pub use decryptor::Decryptor;
pub use encryptor::Encryptor;
pub use mac::{Mac, mac_at_once};
pub use saved::{BEGUN, ENDED, SavedContext};
pub use tag::same_bytes;
