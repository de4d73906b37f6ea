//! SubBytes by byte permutes: each half of a byte selects one of the 16 bytes of a constant vector, so that no memory
//! is indexed by data. After Hamburg, "Accelerating AES with vector permute instructions" (2009).
//!
//! A byte is u + v * t, where u and v are in the subfield of 16 elements and t = 0x34 is a root of t^2 = a * t + a,
//! with a = 0x0c. Elements of the subfield are represented by their coordinates in the powers 0 to 3 of its generator
//! 0x0d, and 0x80 stands for 1 / 0. Let
//!
//! - p = 1 / (1 / v + a / u) + (u + v)
//! - q = 1 / (1 / (u + v) + a / u) + v
//!
//! Then the inverse of the byte is 1 / p + t * (1 / p + (1 / p + 1 / q) / a) / a. This is the sum of a part that
//! depends on p alone and a part that depends on q alone; the last two tables hold these parts with the linear part of
//! the affine map applied.
//!
//! The constants are public for the tests, which compute them again from the field.

ghost use Rattle.std.specs.Prelude.{◌≡◌, ℕ, ◌+◌, ◌%◌, ◌<◌, ◌≤◌, bit_and, length, map, replicate, slice_index};
ghost use Rattle.std.specs.Simd.Lanes.{zip2};
ghost use Rattle.aegis_aes.specs.Block.{block_at};
ghost use Rattle.aegis_aes.specs.Permutes.{ArePlaces, IsWidth, table_entry, entry_beside};
ghost use Rattle.aegis_aes.specs.Round.{sub_bytes, substitute};

use std::simd::prelude::*;

/// Entry n holds the coordinates of the byte n: those of u in the low four bits, and those of v in the high four.
pub const IN_LOW: [u8; 16] = [
    0x00, 0x01, 0x27, 0x26, 0xc0, 0xc1, 0xe7, 0xe6, 0xc3, 0xc2, 0xe4, 0xe5, 0x03, 0x02, 0x24, 0x25,
];
/// Entry n holds the coordinates of the byte 16n, in the same way.
pub const IN_HIGH: [u8; 16] = [
    0x00, 0xaa, 0x7a, 0xd0, 0xaf, 0x05, 0xd5, 0x7f, 0xd8, 0x72, 0xa2, 0x08, 0x77, 0xdd, 0x0d, 0xa7,
];
/// Entry n is 1 / n, in coordinates, and entry 0 is 0x80.
pub const INVERSE: [u8; 16] = [
    0x80, 0x01, 0x0c, 0x08, 0x06, 0x0f, 0x04, 0x0e, 0x03, 0x0d, 0x0b, 0x0a, 0x02, 0x09, 0x07, 0x05,
];
/// Entry n is a / n, in coordinates, and entry 0 is 0x80.
pub const SCALED: [u8; 16] = [
    0x80, 0x03, 0x0d, 0x01, 0x0a, 0x08, 0x0c, 0x0b, 0x05, 0x0e, 0x04, 0x07, 0x06, 0x02, 0x09, 0x0f,
];
/// Entry p is the part of the inverse that depends on p, after the linear part of SubBytes' affine map.
pub const OUT_ONE: [u8; 16] = [
    0x00, 0xfa, 0x35, 0x6a, 0x2b, 0xbb, 0x5f, 0x41, 0x8e, 0xcf, 0xe4, 0x1e, 0x74, 0x90, 0xd1, 0xa5,
];
/// Entry q is the part of the inverse that depends on q, after the same map.
pub const OUT_TWO: [u8; 16] = [
    0x00, 0x81, 0x99, 0x76, 0x0a, 0xfd, 0xef, 0x7c, 0x64, 0x18, 0x12, 0x93, 0xe5, 0xf7, 0x8b, 0x6e,
];

// For each byte of `at`, the byte at that place of the same block of `from`, or 0 if the place is 128 or more.
#[inline(always)]
pub(crate) fn permute<const N: usize>(from: Simd<u8, N>, at: Simd<u8, N>) -> Simd<u8, N>
    requires width { IsWidth N }
    requires places { ArePlaces at }
    ensures long { length result ≡ N }
    ensures each { (i : ℕ) → i < N
        → slice_index result i ≡ entry_beside from.entry i (slice_index at.entry i) }
{
    let from = from.to_array();
    let at = at.to_array();
    if N == 16 {
        let moved = u8x16::from_slice(&from).swizzle_dyn(u8x16::from_slice(&at));
        Simd::from_slice(&moved.to_array())
    } else {
        let moved = u8x32::from_slice(&from).swizzle_dyn_within::<16>(u8x32::from_slice(&at));
        Simd::from_slice(&moved.to_array())
    }
}

#[inline(always)]
fn twice(bytes: [u8; 16]) -> u8x32
    ensures { (i : ℕ) → i < 32 → slice_index result i ≡ slice_index bytes (i % 16) }
{
    u8x16::from_array(bytes).swizzle([
        0, 1, 2, 3, 4, 5, 6, 7, 8, 9, 10, 11, 12, 13, 14, 15, 0, 1, 2, 3, 4, 5, 6, 7, 8, 9, 10, 11,
        12, 13, 14, 15,
    ])
}

// The same sixteen bytes in each block.
#[inline(always)]
#[tactic(auto, using(std::proofs::lemmas::Grind::common_steps, crate::proofs::Places::repeated_laws))]
pub(crate) fn repeated<const N: usize>(bytes: [u8; 16]) -> Simd<u8, N>
    requires { N ≤ 32 }
    ensures long { length result ≡ N }
    ensures each { (i : ℕ) → i < N → slice_index result i ≡ slice_index bytes (i % 16) }
    ensures blocks { (p : ℕ) → p % 16 ≡ 0 → p + 16 ≤ N → block_at result p ≡ bytes }
{
    let two = twice(bytes).to_array();
    Simd::from_slice(&two)
}

// The entries of `table` at these places, and 0 for a place of 128 or more. If the table has places alone, so has the
// result.
#[inline(always)]
fn look<const N: usize>(table: [u8; 16], at: Simd<u8, N>) -> Simd<u8, N>
    requires width { IsWidth N }
    requires places { ArePlaces at }
    ensures entries { result ≡ map (table_entry table) at.entry }
    ensures places { ArePlaces table → ArePlaces result }
{
    permute(repeated(table), at)
}

// The low four bits of each byte.
#[inline(always)]
fn low<const N: usize>(xs: Simd<u8, N>) -> Simd<u8, N>
    ensures bits { result ≡ zip2 bit_and xs.entry (replicate N 15) }
    ensures places { ArePlaces result }
{
    xs & Simd::splat(15)
}

/// SubBytes of each byte.
#[inline(always)]
#[tactic(auto, using(crate::proofs::Nibbles::xor_places, crate::proofs::Nibbles::inverse_places, crate::proofs::Nibbles::scaled_places))]
pub(crate) fn sub_bytes<const N: usize>(bytes: Simd<u8, N>) -> Simd<u8, N>
    requires { IsWidth N }
    ensures bytes { result ≡ map substitute bytes.entry }
    ensures blocks { (p : ℕ) → p % 16 ≡ 0 → p + 16 ≤ N
        → block_at result p ≡ sub_bytes (block_at bytes.entry p) }
{
    let coordinates = look(IN_LOW, low(bytes)) ^ look(IN_HIGH, low(bytes >> 4));
    let u = low(coordinates);
    let v = low(coordinates >> 4);
    let sum = v ^ u;
    let scaled = look(SCALED, u);
    let p = look(INVERSE, look(INVERSE, v) ^ scaled) ^ sum;
    let q = look(INVERSE, look(INVERSE, sum) ^ scaled) ^ v;
    look(OUT_ONE, p) ^ look(OUT_TWO, q) ^ Simd::splat(0x63)
}
