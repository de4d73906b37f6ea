//! The exports on a state. The state itself says of which variant it is, and whether it is a message that is encrypted,
//! one that is decrypted, or a MAC; a call of another role is refused.
//!
//! Each returns a code of `aegis_c_calls::refusal`. After a code for a variant, a length or a state, nothing has
//! changed.

ghost use Rattle.std.specs.Prelude.{◌≡◌, [], length};
ghost use Rattle.aegis_c_calls.specs.Calls.{Begins, MacFinal, MacFinalVerify, MacUpdate, StateDecryptCheck, StateDecryptFinal, StateDecryptUnverified, StateEncrypt, StateEncryptFinal};
ghost use Rattle.aegis_c_calls.specs.Codes.{chunk_code, variant_numbered};

use crate::by_variant::by_variant;
use aegis_128::{State128X1, State128X2, State128X4};
use aegis_256::{State256X1, State256X2, State256X4};
use aegis_base::SavedLanes;
use aegis_c_calls::refusal::{Refusal, code};
use aegis_c_calls::state as calls;
use aegis_c_calls::state::{DECRYPTING, ENCRYPTING, MAC, MESSAGE, State};
use aegis_c_calls::variant::*;

// The calls on a chunk for one variant, each with its code, so that an export branches to it and does nothing after it:
// a chunk of 64 bytes then takes a twentieth less time.

#[inline(never)]
fn encrypted<S: SavedLanes>(st: &mut State, mc: &mut [u8]) -> i32
    ensures { StateEncrypt (Some S.VARIANT) st.old st.new mc.old mc.old mc.new result }
{
    code(calls::encrypt::<S>(st, None, mc))
}

#[inline(never)]
fn encrypted_into<S: SavedLanes>(st: &mut State, m: &[u8], c: &mut [u8]) -> i32
    requires { length m.now ≡ length c.old }
    ensures { StateEncrypt (Some S.VARIANT) st.old st.new m.now c.old c.new result }
{
    code(calls::encrypt::<S>(st, Some(m), c))
}

#[inline(never)]
fn decrypted<S: SavedLanes>(st: &mut State, mc: &mut [u8]) -> i32
    ensures { StateDecryptUnverified (Some S.VARIANT) st.old st.new mc.old mc.old mc.new result }
{
    code(calls::decrypt_unverified::<S>(st, None, mc))
}

#[inline(never)]
fn decrypted_into<S: SavedLanes>(st: &mut State, c: &[u8], m: &mut [u8]) -> i32
    requires { length c.now ≡ length m.old }
    ensures { StateDecryptUnverified (Some S.VARIANT) st.old st.new c.now m.old m.new result }
{
    code(calls::decrypt_unverified::<S>(st, Some(c), m))
}

#[inline(never)]
fn checked<S: SavedLanes>(st: &mut State, c: &[u8]) -> i32
    ensures { StateDecryptCheck (Some S.VARIANT) st.old st.new c.now result }
{
    code(calls::decrypt_check::<S>(st, c))
}

#[inline(never)]
fn updated<S: SavedLanes>(st: &mut State, input: &[u8]) -> i32
    ensures { MacUpdate (Some S.VARIANT) st.old st.new input.now result }
{
    code(calls::mac_update::<S>(st, input))
}

/// Begins a message of the variant with the associated data `ad` at `st`. Its next call decides whether it is encrypted
/// or decrypted.
#[unsafe(no_mangle)]
pub extern "C" fn hunkravy_proved_state_init(
    variant: u32,
    st: &mut State,
    ad: &[u8],
    npub: &[u8],
    k: &[u8],
) -> i32
    ensures { Begins (variant_numbered variant) variant MESSAGE k.now npub.now ad.now
        st.old st.new result }
{
    by_variant!(
        variant,
        Refusal::WrongVariant,
        calls::begin::<N>(st, variant, MESSAGE, ad, npub, k)
    )
}

/// Returns the code of [`hunkravy_proved_state_encrypt_in_place`] for so many bytes.
#[unsafe(no_mangle)]
pub extern "C" fn hunkravy_proved_state_may_encrypt(st: &State, mlen: usize) -> i32
    ensures { result ≡ chunk_code (variant_numbered st.now.variant) st.now MESSAGE ENCRYPTING mlen }
{
    by_variant!(
        st.variant,
        Refusal::WrongState,
        calls::may_encrypt(st, mlen)
    )
}

/// Returns the code of [`hunkravy_proved_state_decrypt_in_place_unverified`] for so many bytes.
#[unsafe(no_mangle)]
pub extern "C" fn hunkravy_proved_state_may_decrypt(st: &State, clen: usize) -> i32
    ensures { result ≡ chunk_code (variant_numbered st.now.variant) st.now MESSAGE DECRYPTING clen }
{
    by_variant!(
        st.variant,
        Refusal::WrongState,
        calls::may_decrypt(st, clen)
    )
}

/// Encrypts the next bytes of the message in place.
#[unsafe(no_mangle)]
pub extern "C" fn hunkravy_proved_state_encrypt_in_place(st: &mut State, mc: &mut [u8]) -> i32
    ensures { StateEncrypt (variant_numbered st.old.variant) st.old st.new
        mc.old mc.old mc.new result }
{
    by_variant!(st.variant, Refusal::WrongState, chunk encrypted(st, mc))
}

/// Encrypts the next bytes `m` of the message into `c`, which is as long.
#[unsafe(no_mangle)]
pub extern "C" fn hunkravy_proved_state_encrypt(st: &mut State, m: &[u8], c: &mut [u8]) -> i32
    requires { length m.now ≡ length c.old }
    ensures { StateEncrypt (variant_numbered st.old.variant) st.old st.new
        m.now c.old c.new result }
{
    by_variant!(st.variant, Refusal::WrongState, chunk encrypted_into(st, m, c))
}

/// Writes the tag of the message, of 16 or 32 bytes, to `mac`, and ends the state.
#[unsafe(no_mangle)]
pub extern "C" fn hunkravy_proved_state_encrypt_final(st: &mut State, mac: &mut [u8]) -> i32
    ensures { StateEncryptFinal (variant_numbered st.old.variant) st.old st.new
        mac.old mac.new result }
{
    by_variant!(
        st.variant,
        Refusal::WrongState,
        calls::encrypt_final(st, mac)
    )
}

/// Decrypts the next bytes of the ciphertext in place, before the tag is verified.
#[unsafe(no_mangle)]
pub extern "C" fn hunkravy_proved_state_decrypt_in_place_unverified(
    st: &mut State,
    mc: &mut [u8],
) -> i32
    ensures { StateDecryptUnverified (variant_numbered st.old.variant) st.old st.new
        mc.old mc.old mc.new result }
{
    by_variant!(st.variant, Refusal::WrongState, chunk decrypted(st, mc))
}

/// Decrypts the next bytes `c` of the ciphertext into `m`, which is as long, before the tag is verified.
#[unsafe(no_mangle)]
pub extern "C" fn hunkravy_proved_state_decrypt_unverified(
    st: &mut State,
    c: &[u8],
    m: &mut [u8],
) -> i32
    requires { length c.now ≡ length m.old }
    ensures { StateDecryptUnverified (variant_numbered st.old.variant) st.old st.new
        c.now m.old m.new result }
{
    by_variant!(st.variant, Refusal::WrongState, chunk decrypted_into(st, c, m))
}

/// Takes in the next bytes of the ciphertext, without writing the message.
#[unsafe(no_mangle)]
pub extern "C" fn hunkravy_proved_state_decrypt_check(st: &mut State, c: &[u8]) -> i32
    ensures { StateDecryptCheck (variant_numbered st.old.variant) st.old st.new c.now result }
{
    by_variant!(st.variant, Refusal::WrongState, chunk checked(st, c))
}

/// Returns 0 if `mac` is the tag of the message. If it is not, each byte of `m` is 0xaa, and the code is -1. Both end
/// the state.
#[unsafe(no_mangle)]
pub extern "C" fn hunkravy_proved_state_decrypt_final(
    st: &mut State,
    m: &mut [u8],
    mac: &[u8],
) -> i32
    ensures { StateDecryptFinal (variant_numbered st.old.variant) st.old st.new
        m.old m.new mac.now result }
{
    by_variant!(
        st.variant,
        Refusal::WrongState,
        calls::decrypt_final(st, m, mac)
    )
}

/// Begins a MAC of the variant at `st`.
#[unsafe(no_mangle)]
pub extern "C" fn hunkravy_proved_mac_init(
    variant: u32,
    st: &mut State,
    npub: &[u8],
    k: &[u8],
) -> i32
    ensures { Begins (variant_numbered variant) variant MAC k.now npub.now [] st.old st.new result }
{
    by_variant!(
        variant,
        Refusal::WrongVariant,
        calls::begin::<N>(st, variant, MAC, &[], npub, k)
    )
}

/// Takes in the next bytes of the input of a MAC.
#[unsafe(no_mangle)]
pub extern "C" fn hunkravy_proved_mac_update(st: &mut State, input: &[u8]) -> i32
    ensures { MacUpdate (variant_numbered st.old.variant) st.old st.new input.now result }
{
    by_variant!(st.variant, Refusal::WrongState, chunk updated(st, input))
}

/// Writes the MAC of the input so far, of 16 or 32 bytes, to `mac`. The state is unchanged.
#[unsafe(no_mangle)]
pub extern "C" fn hunkravy_proved_mac_final(st: &State, mac: &mut [u8]) -> i32
    ensures { MacFinal (variant_numbered st.now.variant) st.now mac.old mac.new result }
{
    by_variant!(st.variant, Refusal::WrongState, calls::mac_final(st, mac))
}

/// Returns 0 if `mac` is the MAC of the input so far, and -1 if it is not. The state is unchanged.
#[unsafe(no_mangle)]
pub extern "C" fn hunkravy_proved_mac_final_verify(st: &State, mac: &[u8]) -> i32
    ensures { MacFinalVerify (variant_numbered st.now.variant) st.now mac.now result }
{
    by_variant!(
        st.variant,
        Refusal::WrongState,
        calls::mac_final_verify(st, mac)
    )
}
