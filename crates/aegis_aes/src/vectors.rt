//! Any number of blocks side by side in one vector.

ghost use Rattle.std.specs.Prelude.{◌≡◌, ℕ, ◌+◌, ◌*◌, ◌<◌, ◌≤◌, length, slice_index};
ghost use Rattle.aegis_aes.specs.Private.{IsSameBefore, IsSameFrom};
ghost use Rattle.aegis_aes.specs.Block.{and, block_at, xor};

use std::simd::prelude::*;

/// Reads blocks from `bytes`, beginning at byte `at`.
#[inline(always)]
#[tactic(auto, using(crate::proofs::Places::block_at_chunk))]
pub(crate) fn load<const N: usize>(bytes: &[u8], at: usize) -> Simd<u8, N>
    requires { at + N ≤ length bytes.now }
    ensures long { length result ≡ N }
    ensures each { (p : ℕ) → p + 16 ≤ N
        → block_at result p ≡ block_at bytes.now (at + p) }
{
    Simd::from_slice(&bytes[at..])
}

/// Writes the blocks into `out`, beginning at byte `at`. The other bytes of `out` are unchanged.
#[inline(always)]
#[tactic(auto, using(crate::proofs::Places::put_chunk_laws))]
pub(crate) fn store<const N: usize>(blocks: Simd<u8, N>, out: &mut [u8], at: usize)
    requires { at + N ≤ length out.old }
    ensures written { (p : ℕ) → p + 16 ≤ N
        → block_at out.new (at + p) ≡ block_at blocks.entry p }
    ensures below { IsSameBefore at out.old out.new }
    ensures above { IsSameFrom (at + N) out.old out.new }
{
    blocks.copy_to_slice(&mut out[at..]);
}

/// The bitwise xor, block by block.
#[inline(always)]
#[tactic(auto, using(crate::proofs::Places::zip2_laws))]
pub(crate) fn xor_each<const N: usize>(a: Simd<u8, N>, b: Simd<u8, N>) -> Simd<u8, N>
    ensures long { length result ≡ N }
    ensures each { (p : ℕ) → p + 16 ≤ N
        → block_at result p ≡ xor (block_at a.entry p) (block_at b.entry p) }
{
    a ^ b
}

/// The bitwise and, block by block.
#[inline(always)]
#[tactic(auto, using(crate::proofs::Places::zip2_laws))]
pub(crate) fn and_each<const N: usize>(a: Simd<u8, N>, b: Simd<u8, N>) -> Simd<u8, N>
    ensures long { length result ≡ N }
    ensures each { (p : ℕ) → p + 16 ≤ N
        → block_at result p ≡ and (block_at a.entry p) (block_at b.entry p) }
{
    a & b
}
