//! The AEGIS family of authenticated ciphers: a module for each of the six variants, streams of sealed records, and the
//! laws that follow from the definitions.
//!
//! The samples of the modules are functions of the crate `aegis_caller`, which are proved from the contracts alone.
#![tactic(auto)]

pub mod aegis128l;
pub mod aegis128x2;
pub mod aegis128x4;
pub mod aegis256;
pub mod aegis256x2;
pub mod aegis256x4;
pub mod aes;
pub mod laws;
pub mod record;

pub use aegis_base::{Error, MAX_AEAD_BYTES, chunks_len};
pub use aegis_engine::{Cipher, Decryptor, ERASED, Encryptor, Mac};
