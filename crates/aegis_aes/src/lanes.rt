//! SubBytes by the arithmetic of the field, on bytes side by side (FIPS 197, section 5.1.1).

ghost use Rattle.std.specs.Prelude.{◌≡◌, ◌-◌, ◌*◌, ◌/◌, ◌%◌, ◌^◌, ◌<◌, bit_or, map};
ghost use Rattle.aegis_aes.specs.Round.{substitute};

use crate::field::power_254;
use std::simd::prelude::*;

// Each byte rotated left.
#[inline(always)]
fn rotated<const N: usize>(a: Simd<u8, N>, places: u8) -> Simd<u8, N>
    requires { (0 < places) × (places < 8) }
    ensures { result
        ≡ map (λ x. bit_or (x * 2 ^ places % 2 ^ 8) (x / 2 ^ (8 - places))) a.entry }
{
    (a << Simd::splat(places)) | (a >> Simd::splat(8 - places))
}

/// SubBytes of each byte: the affine map of its inverse.
pub(crate) fn sub_bytes<const N: usize>(a: Simd<u8, N>) -> Simd<u8, N>
    ensures { result ≡ map substitute a.entry }
{
    let b = power_254(a);
    b ^ rotated(b, 1) ^ rotated(b, 2) ^ rotated(b, 3) ^ rotated(b, 4) ^ Simd::splat(0x63)
}
