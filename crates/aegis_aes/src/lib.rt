//! The AES round on blocks of sixteen bytes (FIPS 197), and rows of blocks, one for each lane of AEGIS.
//!
//! The source of a round indexes no memory by data, and `make check-time` tests the compiled code. The round is
//! implemented twice, under one definition: `round` of the block types computes in the field, on all bytes of a vector
//! at once, and [`Pair::update_from`], which the ciphers call, uses byte permutes and is several times as fast.
#![tactic(auto)]

mod block;
mod block2;
mod block4;
pub mod field;
mod lanes;
mod pair;
pub mod permutes;
mod round;
mod row;
mod vectors;

pub use block::AesBlock;
pub use block2::AesBlock2;
pub use block4::AesBlock4;
pub use pair::{Pair, Rows2};
pub use row::Row;
