//! Two blocks of 16 bytes side by side, as in AEGIS with two lanes.

ghost use Rattle.std.proofs.Common.{ap, inl, inr};
ghost use Rattle.std.specs.Prelude.{◌≡◌, ℕ, ◌+◌, ◌*◌, ◌<◌, ◌≤◌, ◌++◌, length, List, refl, replicate, slice_index};
ghost use Rattle.aegis_aes.specs.Block.{and, block_at, xor};
ghost use Rattle.aegis_aes.specs.Blocks.{block_of_two, each_of_two};
ghost use Rattle.aegis_aes.specs.Private.{two_blocks};
ghost use Rattle.aegis_aes.specs.Round.{round, sub_bytes};

use crate::block::AesBlock;
use crate::permutes::{repeated, sub_bytes};
use crate::round::{complete, round_by_field};
use crate::row::{Row, context_block};
use crate::vectors::{and_each, load, store, xor_each};
use std::marker::Model;
use std::simd::prelude::*;

/// Two blocks of 16 bytes, on which each operation works block by block. As a [`Row`] it has one block of each of two
/// lanes. It is one vector of 32 bytes.
#[derive(Clone, Copy, Debug)]
pub struct AesBlock2 {
    bytes: u8x32,
}

impl Model for AesBlock2 {
    ghost Value = { List ℕ × List ℕ };

    ghost invariant = { λ b. length b.bytes ≡ 32 };

    ghost view = { λ b. (block_at b.bytes 0, block_at b.bytes 16) };

    ghost inverse = { λ b. record { bytes = b.0 ++ b.1 } };

    ghost inverse_ok = { λ b long. ap (λ bytes. record { bytes = bytes }) (two_blocks b.bytes long) };
}

impl AesBlock2 {
    /// Puts two blocks side by side, `b0` first.
    pub fn from_blocks(b0: AesBlock, b1: AesBlock) -> AesBlock2
        ensures { result ≡ (b0, b1) }
    {
        AesBlock2 {
            bytes: b0.bytes.shuffle(
                b1.bytes,
                [
                    0, 1, 2, 3, 4, 5, 6, 7, 8, 9, 10, 11, 12, 13, 14, 15, 16, 17, 18, 19, 20, 21,
                    22, 23, 24, 25, 26, 27, 28, 29, 30, 31,
                ],
            ),
        }
    }

    /// Returns the two blocks, in order.
    #[tactic(auto, unfolding(crate::specs::Block::bytes_at), using(crate::proofs::Places::block_at_first))]
    pub fn as_blocks(&self) -> (AesBlock, AesBlock)
        ensures first { result.0 ≡ self.now.0 }
        ensures second { result.1 ≡ self.now.1 }
    {
        let first = self
            .bytes
            .swizzle([0, 1, 2, 3, 4, 5, 6, 7, 8, 9, 10, 11, 12, 13, 14, 15]);
        let second = self.bytes.swizzle([
            16, 17, 18, 19, 20, 21, 22, 23, 24, 25, 26, 27, 28, 29, 30, 31,
        ]);
        (AesBlock { bytes: first }, AesBlock { bytes: second })
    }

    /// Returns the second block and then the first.
    #[tactic(auto, unfolding(crate::specs::Block::bytes_at), using(crate::proofs::Places::block_at_first))]
    pub fn exchanged(&self) -> AesBlock2
        ensures { result ≡ (self.now.1, self.now.0) }
    {
        AesBlock2 {
            bytes: self.bytes.swizzle([
                16, 17, 18, 19, 20, 21, 22, 23, 24, 25, 26, 27, 28, 29, 30, 31, 0, 1, 2, 3, 4, 5,
                6, 7, 8, 9, 10, 11, 12, 13, 14, 15,
            ]),
        }
    }

    /// Returns the bitwise xor, block by block.
    pub fn xor(&self, other: AesBlock2) -> AesBlock2
        ensures { result ≡ each_of_two xor self.now other }
    {
        AesBlock2 {
            bytes: xor_each(self.bytes, other.bytes),
        }
    }

    /// Returns the bitwise xor of the first block and `block`, beside the second block as it is.
    pub fn xor_first(&self, block: AesBlock) -> AesBlock2
        ensures { result ≡ (xor self.now.0 block, self.now.1) }
    {
        let both = AesBlock2::from_blocks(block, AesBlock::default());
        AesBlock2 {
            bytes: xor_each(self.bytes, both.bytes),
        }
    }

    /// Returns the bitwise and, block by block.
    pub fn and(&self, other: AesBlock2) -> AesBlock2
        ensures { result ≡ each_of_two and self.now other }
    {
        AesBlock2 {
            bytes: and_each(self.bytes, other.bytes),
        }
    }

    /// Returns each block after one AES round (FIPS 197, sections 5.1.1 to 5.1.4), with the block of `key` at the same
    /// place as its key.
    pub fn round(&self, key: AesBlock2) -> AesBlock2
        ensures { result ≡ each_of_two round self.now key }
    {
        AesBlock2 {
            bytes: round_by_field(self.bytes, key.bytes),
        }
    }
}

impl Default for AesBlock2 {
    // All bytes are 0.
    ghost is_default = { λ b. b ≡ (replicate 16 0, replicate 16 0) };

    fn default() -> AesBlock2 {
        let zero = AesBlock::from_bytes(&[0; 16]);
        AesBlock2::from_blocks(zero, zero)
    }
}

impl Row for AesBlock2 {
    const LANES: usize = 2;

    ghost LANES = { 2 };

    ghost block = { block_of_two };

    fn splat(value: AesBlock) -> AesBlock2 {
        AesBlock2 {
            bytes: repeated(value.to_bytes()),
        }
    }

    fn contexts() -> AesBlock2 {
        AesBlock2::from_blocks(context_block(0, 2), context_block(1, 2))
    }

    fn load(bytes: &[u8], at: usize) -> AesBlock2 {
        AesBlock2 {
            bytes: load(bytes, at),
        }
    }

    fn store(self, out: &mut [u8], at: usize) {
        store(self.bytes, out, at);
    }

    fn xor_row(self, other: AesBlock2) -> AesBlock2 {
        AesBlock2::xor(&self, other)
    }

    fn and_row(self, other: AesBlock2) -> AesBlock2 {
        AesBlock2::and(&self, other)
    }

    fn sub_bytes_row(self) -> AesBlock2 {
        AesBlock2 {
            bytes: sub_bytes(self.bytes),
        }
    }

    fn complete_row(self, key: AesBlock2) -> AesBlock2 {
        AesBlock2 {
            bytes: complete(self.bytes, key.bytes),
        }
    }

    #[tactic(auto, unfolding(crate::specs::Lanes::xor_lanes))]
    fn xor_of_lanes(self) -> AesBlock {
        let (first, second) = self.as_blocks();
        first.xor(second)
    }

    ghost one_two_or_four = { inr (inl refl) };
}
