//! Blocks of sixteen bytes.

ghost use Rattle.std.specs.Prelude.{◌≡◌, ℕ, ◌+◌, ◌*◌, ◌<◌, ◌≤◌, length, List, slice_index, replicate};
ghost use Rattle.aegis_aes.specs.Block.{and, block_at, xor};
ghost use Rattle.aegis_aes.specs.Round.{round};

use crate::round::round_by_field;
use std::marker::Model;
use std::simd::prelude::*;

/// A block of 16 bytes: the state or the key of an AES round (FIPS 197, section 3.4). Byte 4c + r is row r of column c.
/// The default is 16 zero bytes.
#[derive(Clone, Copy, Debug)]
pub struct AesBlock {
    pub(crate) bytes: u8x16,
}

impl Model for AesBlock {
    ghost Value = { List ℕ };

    ghost invariant = { λ b. length b.bytes ≡ 16 };

    ghost view = { λ b. b.bytes };

    ghost inverse = { λ bytes. record { bytes = bytes } };
}

impl Default for AesBlock {
    ghost is_default = { λ b. b ≡ replicate 16 0 };

    fn default() -> AesBlock {
        AesBlock {
            bytes: u8x16::splat(0),
        }
    }
}

impl AesBlock {
    /// Creates a block from 16 bytes, in order.
    #[inline]
    pub fn from_bytes(bytes: &[u8]) -> AesBlock
        requires { length bytes.now ≡ 16 }
        ensures { result ≡ bytes.now }
    {
        AesBlock {
            bytes: u8x16::from_slice(bytes),
        }
    }

    /// Returns the 16 bytes, in order.
    #[inline]
    pub fn to_bytes(self) -> [u8; 16]
        ensures { result ≡ self }
    {
        self.bytes.to_array()
    }

    /// Returns the bitwise xor of two blocks.
    #[inline]
    #[tactic(auto, using(crate::proofs::Places::zip2_laws))]
    pub fn xor(&self, other: AesBlock) -> AesBlock
        ensures { result ≡ xor self.now other }
    {
        AesBlock {
            bytes: self.bytes ^ other.bytes,
        }
    }

    /// Returns the bitwise and of two blocks.
    #[inline]
    #[tactic(auto, using(crate::proofs::Places::zip2_laws))]
    pub fn and(&self, other: AesBlock) -> AesBlock
        ensures { result ≡ and self.now other }
    {
        AesBlock {
            bytes: self.bytes & other.bytes,
        }
    }

    /// Returns the block after one AES round: SubBytes, ShiftRows, MixColumns, and then the xor with `key` (FIPS 197,
    /// sections 5.1.1 to 5.1.4). The AEGIS specification calls it AESRound.
    #[tactic(auto, using(crate::proofs::Places::block_at_all))]
    pub fn round(&self, key: AesBlock) -> AesBlock
        ensures { result ≡ round self.now key }
    {
        AesBlock {
            bytes: round_by_field(self.bytes, key.bytes),
        }
    }
}
