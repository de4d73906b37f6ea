//! The exports for a whole message or input. `variant` is a number of `aegis_c_calls::variant`.
//!
//! Each returns a code of `aegis_c_calls::refusal`. After a code for a variant or a length, nothing has changed.

ghost use Rattle.std.specs.Prelude.{◌≡◌, length};
ghost use Rattle.aegis_c_calls.specs.Calls.{Decrypt, Encrypt, Mac, MacVerify, Stream, StreamXorInPlace};
ghost use Rattle.aegis_c_calls.specs.Codes.{lengths_code, key_bytes_of, variant_numbered};

use crate::by_variant::by_variant;
use aegis_128::{State128X1, State128X2, State128X4};
use aegis_256::{State256X1, State256X2, State256X4};
use aegis_c_calls::message as calls;
use aegis_c_calls::refusal::{Refusal, code};
use aegis_c_calls::variant::*;

/// Returns the length of the variant's keys, and of its nonces, in bytes. Returns 0 if no variant has this number.
#[unsafe(no_mangle)]
pub extern "C" fn hunkravy_proved_key_bytes(variant: u32) -> usize
    ensures { result ≡ key_bytes_of (variant_numbered variant) }
{
    key_bytes(variant)
}

/// Returns the code of a call on a message for its variant and these lengths, unless a tag is wrong.
#[unsafe(no_mangle)]
pub extern "C" fn hunkravy_proved_check_lengths(
    variant: u32,
    npublen: usize,
    klen: usize,
    mlen: usize,
    adlen: usize,
    maclen: usize,
) -> i32
    ensures { result ≡ lengths_code (variant_numbered variant) klen npublen mlen adlen maclen }
{
    by_variant!(
        variant,
        Refusal::WrongVariant,
        calls::check_lengths::<N>(npublen, klen, mlen, adlen, maclen)
    )
}

/// Encrypts `mc` in place, and writes the tag, of 16 or 32 bytes, to `mac`.
#[unsafe(no_mangle)]
pub extern "C" fn hunkravy_proved_encrypt_in_place(
    variant: u32,
    mc: &mut [u8],
    ad: &[u8],
    npub: &[u8],
    k: &[u8],
    mac: &mut [u8],
) -> i32
    ensures { Encrypt (variant_numbered variant) k.now npub.now ad.now
        mc.old mc.old mc.new mac.old mac.new result }
{
    by_variant!(
        variant,
        Refusal::WrongVariant,
        calls::encrypt_in_place::<N>(mc, ad, npub, k, mac)
    )
}

/// Encrypts `m` into `c`, which is as long, and writes the tag, of 16 or 32 bytes, to `mac`.
#[unsafe(no_mangle)]
pub extern "C" fn hunkravy_proved_encrypt(
    variant: u32,
    m: &[u8],
    c: &mut [u8],
    ad: &[u8],
    npub: &[u8],
    k: &[u8],
    mac: &mut [u8],
) -> i32
    requires { length m.now ≡ length c.old }
    ensures { Encrypt (variant_numbered variant) k.now npub.now ad.now
        m.now c.old c.new mac.old mac.new result }
{
    by_variant!(
        variant,
        Refusal::WrongVariant,
        calls::encrypt::<N>(m, c, ad, npub, k, mac)
    )
}

/// Decrypts `mc` in place. If `mac` is not its tag, each byte of `mc` is 0xaa, and the code is -1.
#[unsafe(no_mangle)]
pub extern "C" fn hunkravy_proved_decrypt_in_place(
    variant: u32,
    mc: &mut [u8],
    ad: &[u8],
    npub: &[u8],
    k: &[u8],
    mac: &[u8],
) -> i32
    ensures { Decrypt (variant_numbered variant) k.now npub.now ad.now
        mc.old mc.old mc.new mac.now result }
{
    by_variant!(
        variant,
        Refusal::WrongVariant,
        calls::decrypt_in_place::<N>(mc, ad, npub, k, mac)
    )
}

/// Decrypts `c` into `m`, which is as long. If `mac` is not its tag, each byte of `m` is 0xaa, and the code is -1.
#[unsafe(no_mangle)]
pub extern "C" fn hunkravy_proved_decrypt(
    variant: u32,
    c: &[u8],
    m: &mut [u8],
    ad: &[u8],
    npub: &[u8],
    k: &[u8],
    mac: &[u8],
) -> i32
    requires { length c.now ≡ length m.old }
    ensures { Decrypt (variant_numbered variant) k.now npub.now ad.now
        c.now m.old m.new mac.now result }
{
    by_variant!(
        variant,
        Refusal::WrongVariant,
        calls::decrypt::<N>(c, m, ad, npub, k, mac)
    )
}

/// Overwrites `out` with keystream.
#[unsafe(no_mangle)]
pub extern "C" fn hunkravy_proved_stream(variant: u32, out: &mut [u8], npub: &[u8], k: &[u8]) -> i32
    ensures { Stream (variant_numbered variant) k.now npub.now out.old out.new result }
{
    by_variant!(
        variant,
        Refusal::WrongVariant,
        calls::stream::<N>(out, npub, k)
    )
}

/// Xors `mc` with keystream, in place.
#[unsafe(no_mangle)]
pub extern "C" fn hunkravy_proved_stream_xor_in_place(
    variant: u32,
    mc: &mut [u8],
    npub: &[u8],
    k: &[u8],
) -> i32
    ensures { StreamXorInPlace (variant_numbered variant) k.now npub.now mc.old mc.new result }
{
    by_variant!(
        variant,
        Refusal::WrongVariant,
        calls::stream_xor_in_place::<N>(mc, npub, k)
    )
}

/// Writes the MAC of `input`, of 16 or 32 bytes, to `out`.
#[unsafe(no_mangle)]
pub extern "C" fn hunkravy_proved_mac(
    variant: u32,
    input: &[u8],
    npub: &[u8],
    k: &[u8],
    out: &mut [u8],
) -> i32
    ensures { Mac (variant_numbered variant) k.now npub.now input.now out.old out.new result }
{
    by_variant!(
        variant,
        Refusal::WrongVariant,
        calls::mac::<N>(input, npub, k, out)
    )
}

/// Returns 0 if `mac` is the MAC of `input`, and -1 if it is not.
#[unsafe(no_mangle)]
pub extern "C" fn hunkravy_proved_mac_verify(
    variant: u32,
    input: &[u8],
    npub: &[u8],
    k: &[u8],
    mac: &[u8],
) -> i32
    ensures { MacVerify (variant_numbered variant) k.now npub.now input.now mac.now result }
{
    by_variant!(
        variant,
        Refusal::WrongVariant,
        calls::mac_verify::<N>(input, npub, k, mac)
    )
}
