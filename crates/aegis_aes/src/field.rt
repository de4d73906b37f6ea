//! The field of bytes (FIPS 197, section 4), on bytes side by side.

ghost use Rattle.std.specs.Prelude.{◌≡◌, ℕ, ◌<◌, ◌==◌, bit_and, if◌then◌else◌, map};
ghost use Rattle.std.specs.Simd.Lanes.{zip2};
ghost use Rattle.aegis_aes.specs.Field.{inverse, mul, xtime};

use std::simd::prelude::*;

/// Does nothing. Its contract states that `inverse`, which the definition of a round finds by search, is the
/// multiplicative inverse of SubBytes (FIPS 197, sections 4.2 and 5.1.1): for each byte but 0 it is the only byte whose
/// product with it is 1, and for 0 it is 0.
pub fn inverse_is_unique()
    ensures byte { (a : ℕ) → a < 256 → inverse a < 256 }
    ensures product { (a : ℕ) → a < 256 → 0 < a → mul a (inverse a) ≡ 1 }
    ensures unique { (a b : ℕ) → a < 256 → b < 256 → mul a b ≡ 1 → b ≡ inverse a }
    ensures zero { inverse 0 ≡ 0 }
{}

/// The product of each byte with x.
#[inline(always)]
#[tactic(auto, using(std::proofs::lemmas::Simd::shifts_fit_splat, crate::proofs::Mixing::doubled))]
pub(crate) fn times_x<const N: usize>(a: Simd<u8, N>) -> Simd<u8, N>
    ensures { result ≡ map xtime a.entry }
{
    let reduction = a
        .simd_ge(Simd::splat(0x80))
        .select(Simd::splat(0x1b), Simd::splat(0));
    (a << 1) ^ reduction
}

// Each byte of `a` if the byte of `b` at its place has the bit set, and otherwise 0.
#[inline(always)]
fn selected<const N: usize>(a: Simd<u8, N>, b: Simd<u8, N>, bit: u8) -> Simd<u8, N>
    ensures { result ≡ zip2 (λ x y. if bit_and y bit == 0 then 0 else x) a.entry b.entry }
{
    (b & Simd::splat(bit))
        .simd_eq(Simd::splat(0))
        .select(Simd::splat(0), a)
}

/// The products, byte by byte: the sum of `a` times each power of x that `b` contains.
pub(crate) fn product<const N: usize>(a: Simd<u8, N>, b: Simd<u8, N>) -> Simd<u8, N>
    ensures { result ≡ zip2 mul a.entry b.entry }
{
    let a1 = times_x(a);
    let a2 = times_x(a1);
    let a3 = times_x(a2);
    let a4 = times_x(a3);
    let a5 = times_x(a4);
    let a6 = times_x(a5);
    let a7 = times_x(a6);
    let low = selected(a, b, 0x01)
        ^ selected(a1, b, 0x02)
        ^ selected(a2, b, 0x04)
        ^ selected(a3, b, 0x08);
    let high = selected(a4, b, 0x10)
        ^ selected(a5, b, 0x20)
        ^ selected(a6, b, 0x40)
        ^ selected(a7, b, 0x80);
    low ^ high
}

/// Returns the inverse of each byte, and 0 for 0 (FIPS 197, sections 4.2 and 5.1.1). It is the power 254, since the
/// power 255 of each byte but 0 is 1.
#[tactic(auto, using(crate::proofs::Powers::powers))]
pub fn power_254<const N: usize>(a: Simd<u8, N>) -> Simd<u8, N>
    ensures { result ≡ map inverse a.entry }
{
    let a2 = product(a, a);
    let a3 = product(a2, a);
    let a6 = product(a3, a3);
    let a12 = product(a6, a6);
    let a15 = product(a12, a3);
    let a30 = product(a15, a15);
    let a60 = product(a30, a30);
    let a120 = product(a60, a60);
    let a240 = product(a120, a120);
    let a252 = product(a240, a12);
    product(a252, a2)
}
