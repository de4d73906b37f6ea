//! Four blocks of 16 bytes side by side, as in AEGIS with four lanes.

ghost use Rattle.std.proofs.Common.{inr};
ghost use Rattle.std.specs.Prelude.{◌≡◌, ℕ, ◌+◌, ◌*◌, ◌<◌, ◌≤◌, length, List, refl, replicate, slice_index};
ghost use Rattle.aegis_aes.specs.Block.{and, block_at, xor};
ghost use Rattle.aegis_aes.specs.Blocks.{block_of_four, each_of_four};
ghost use Rattle.aegis_aes.specs.Round.{round};

use crate::block::AesBlock;
use crate::block2::AesBlock2;
use crate::row::{Row, context_block};
use std::marker::Model;

/// Four blocks of 16 bytes, on which each operation works block by block. As a [`Row`] it has one block of each of four
/// lanes. It is two vectors of 32 bytes: the working values of a round on 64 bytes would not fit the registers.
#[derive(Clone, Copy, Debug)]
pub struct AesBlock4 {
    front: AesBlock2,
    back: AesBlock2,
}

impl Model for AesBlock4 {
    ghost Value = { List ℕ × List ℕ × List ℕ × List ℕ };

    ghost view = { λ b. (b.front.0, b.front.1, b.back.0, b.back.1) };

    ghost inverse = { λ b. record { front = (b.0, b.1); back = (b.2, b.3) } };
}

impl AesBlock4 {
    /// Puts four blocks side by side, in this order.
    pub fn from_blocks(b0: AesBlock, b1: AesBlock, b2: AesBlock, b3: AesBlock) -> AesBlock4
        ensures { result ≡ (b0, b1, b2, b3) }
    {
        AesBlock4 {
            front: AesBlock2::from_blocks(b0, b1),
            back: AesBlock2::from_blocks(b2, b3),
        }
    }

    /// Returns the four blocks, in order.
    pub fn as_blocks(&self) -> (AesBlock, AesBlock, AesBlock, AesBlock)
        ensures first { result.0 ≡ self.now.0 }
        ensures second { result.1 ≡ self.now.1 }
        ensures third { result.2 ≡ self.now.2 }
        ensures fourth { result.3 ≡ self.now.3 }
    {
        let (b0, b1) = self.front.as_blocks();
        let (b2, b3) = self.back.as_blocks();
        (b0, b1, b2, b3)
    }

    /// Returns the bitwise xor, block by block.
    pub fn xor(&self, other: AesBlock4) -> AesBlock4
        ensures { result ≡ each_of_four xor self.now other }
    {
        AesBlock4 {
            front: self.front.xor(other.front),
            back: self.back.xor(other.back),
        }
    }

    /// Returns the bitwise and, block by block.
    pub fn and(&self, other: AesBlock4) -> AesBlock4
        ensures { result ≡ each_of_four and self.now other }
    {
        AesBlock4 {
            front: self.front.and(other.front),
            back: self.back.and(other.back),
        }
    }

    /// Returns each block after one AES round (FIPS 197, sections 5.1.1 to 5.1.4), with the block of `key` at the same
    /// place as its key.
    pub fn round(&self, key: AesBlock4) -> AesBlock4
        ensures { result ≡ each_of_four round self.now key }
    {
        AesBlock4 {
            front: self.front.round(key.front),
            back: self.back.round(key.back),
        }
    }
}

impl Default for AesBlock4 {
    // All bytes are 0.
    ghost is_default = { λ b. b ≡ (replicate 16 0, replicate 16 0, replicate 16 0, replicate 16 0) };

    fn default() -> AesBlock4 {
        AesBlock4 {
            front: AesBlock2::default(),
            back: AesBlock2::default(),
        }
    }
}

impl Row for AesBlock4 {
    const LANES: usize = 4;

    ghost LANES = { 4 };

    ghost block = { block_of_four };

    fn splat(value: AesBlock) -> AesBlock4 {
        AesBlock4::from_blocks(value, value, value, value)
    }

    fn contexts() -> AesBlock4 {
        AesBlock4::from_blocks(
            context_block(0, 4),
            context_block(1, 4),
            context_block(2, 4),
            context_block(3, 4),
        )
    }

    fn load(bytes: &[u8], at: usize) -> AesBlock4 {
        AesBlock4 {
            front: AesBlock2::load(bytes, at),
            back: AesBlock2::load(bytes, at + 32),
        }
    }

    fn store(self, out: &mut [u8], at: usize) {
        self.front.store(out, at);
        self.back.store(out, at + 32);
    }

    fn xor_row(self, other: AesBlock4) -> AesBlock4 {
        AesBlock4::xor(&self, other)
    }

    fn and_row(self, other: AesBlock4) -> AesBlock4 {
        AesBlock4::and(&self, other)
    }

    // Inlined, since a call returns vectors of 32 bytes in memory.
    #[inline(always)]
    fn sub_bytes_row(self) -> AesBlock4 {
        AesBlock4 {
            front: self.front.sub_bytes_row(),
            back: self.back.sub_bytes_row(),
        }
    }

    fn complete_row(self, key: AesBlock4) -> AesBlock4 {
        AesBlock4 {
            front: self.front.complete_row(key.front),
            back: self.back.complete_row(key.back),
        }
    }

    #[tactic(auto, unfolding(crate::specs::Lanes::xor_lanes))]
    fn xor_of_lanes(self) -> AesBlock {
        let (b0, b1, b2, b3) = self.as_blocks();
        b0.xor(b1).xor(b2).xor(b3)
    }

    ghost one_two_or_four = { inr (inr refl) };
}
