//! ShiftRows, MixColumns and AddRoundKey on blocks side by side.

ghost use Rattle.std.specs.Prelude.{◌≡◌, ℕ, ◌+◌, ◌%◌, ◌≤◌, length};
ghost use Rattle.aegis_aes.specs.Permutes.{IsWidth};
ghost use Rattle.aegis_aes.specs.Block.{block_at};
ghost use Rattle.aegis_aes.specs.Round.{complete_round, round};

use crate::field::times_x;
use crate::lanes;
use crate::permutes::{permute, repeated};
use std::simd::prelude::*;

// The place from which ShiftRows takes each byte of a block.
const SHIFTED: [u8; 16] = [0, 5, 10, 15, 4, 9, 14, 3, 8, 13, 2, 7, 12, 1, 6, 11];
// The place from which it takes the byte one row below, in the same column.
const SHIFTED_NEXT: [u8; 16] = [5, 10, 15, 0, 9, 14, 3, 4, 13, 2, 7, 8, 1, 6, 11, 12];
// The place two rows below, in the same column.
const TWO_ROWS_ON: [u8; 16] = [2, 3, 0, 1, 6, 7, 4, 5, 10, 11, 8, 9, 14, 15, 12, 13];

/// The rest of a round on each block after SubBytes: ShiftRows, MixColumns and AddRoundKey.
#[inline(always)]
pub(crate) fn complete<const N: usize>(blocks: Simd<u8, N>, keys: Simd<u8, N>) -> Simd<u8, N>
    requires { IsWidth N }
    ensures long { length result ≡ N }
    ensures each { (p : ℕ) → p % 16 ≡ 0 → p + 16 ≤ N
        → block_at result p
        ≡ complete_round (block_at blocks.entry p) (block_at keys.entry p) }
{
    let shifted = permute(blocks, repeated(SHIFTED));
    let next = permute(blocks, repeated(SHIFTED_NEXT));
    let sum = shifted ^ next;
    let across = permute(sum, repeated(TWO_ROWS_ON));
    // Row r is 2a + 3b + c + d, where a is its own byte and b, c and d are those of the next rows.
    next ^ across ^ times_x(sum) ^ keys
}

/// A round of AES on each block, computed in the field.
#[tactic(auto, unfolding(crate::specs::Round::round, crate::specs::Round::sub_bytes), using(crate::proofs::Places::block_at_map))]
pub(crate) fn round_by_field<const N: usize>(blocks: Simd<u8, N>, keys: Simd<u8, N>) -> Simd<u8, N>
    requires { IsWidth N }
    ensures long { length result ≡ N }
    ensures each { (p : ℕ) → p % 16 ≡ 0 → p + 16 ≤ N
        → block_at result p ≡ round (block_at blocks.entry p) (block_at keys.entry p) }
{
    complete(lanes::sub_bytes(blocks), keys)
}
