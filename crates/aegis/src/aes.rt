//! The AES round (FIPS 197) on a block of 16 bytes, and on two or four blocks side by side.

pub use aegis_aes::{AesBlock, AesBlock2, AesBlock4};
