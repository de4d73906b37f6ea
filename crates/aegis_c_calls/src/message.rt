//! The calls on a whole message or input. `N` is the length of the variant's keys and nonces, in bytes.

ghost use Rattle.std.specs.Prelude.{◌≡◌, ◌≤◌, IfSome, List, false, length, replicate, true, ℕ};
ghost use Rattle.aegis_base.specs.Message.{Opens, erased_byte, seal};
ghost use Rattle.aegis_base.specs.Variant.{key_length};
ghost use Rattle.aegis_engine.specs.Pass.{given};
ghost use Rattle.aegis_c_calls.specs.Calls.{Decrypt, Encrypt, Mac, MacVerify, Stream, StreamXorInPlace};
ghost use Rattle.aegis_c_calls.specs.Private.{code_of};
ghost use Rattle.aegis_c_calls.specs.Codes.{lengths_code};

use crate::keys::{message_keys, nonce_and_key};
use crate::refusal::Refusal;
use aegis_base::{LaneState, MAX_AEAD_BYTES};
use aegis_engine::{Cipher, Once, mac_at_once, same_bytes};

type OneMessage<S, const N: usize, const TAG_BYTES: usize> = Cipher<S, Once, N, TAG_BYTES>;

/// Returns why a call with these lengths is refused, if it is: of a nonce, a key, a message, associated data and a tag.
pub fn check_lengths<S: LaneState, const N: usize>(
    npub: usize,
    k: usize,
    message: usize,
    ad: usize,
    mac: usize,
) -> Result<(), Refusal>
    requires { N ≡ key_length S.VARIANT.family }
    ensures { code_of result ≡ lengths_code (Some S.VARIANT) k npub message ad mac }
{
    if npub != N {
        return Err(Refusal::WrongNonceLength);
    }
    if k != N {
        return Err(Refusal::WrongKeyLength);
    }
    if message as u64 > MAX_AEAD_BYTES {
        return Err(Refusal::MessageTooLong);
    }
    if ad as u64 > MAX_AEAD_BYTES {
        return Err(Refusal::DataTooLong);
    }
    if mac != 16 && mac != 32 {
        return Err(Refusal::WrongTagLength);
    }
    Ok(())
}

/// Encrypts `mc` in place, and writes the tag, of 16 or 32 bytes, to `mac`.
#[inline(never)]
pub fn encrypt_in_place<S: LaneState, const N: usize>(
    mc: &mut [u8],
    ad: &[u8],
    npub: &[u8],
    k: &[u8],
    mac: &mut [u8],
) -> Result<(), Refusal>
    requires { N ≡ key_length S.VARIANT.family }
    ensures { Encrypt (Some S.VARIANT) k.now npub.now ad.now mc.old mc.old mc.new mac.old mac.new
        (code_of result) }
{
    encrypt_given::<S, N>(None, mc, ad, npub, k, mac)
}

/// Encrypts `m` into `c`, which must be as long, and writes the tag, of 16 or 32 bytes, to `mac`.
#[inline(never)]
pub fn encrypt<S: LaneState, const N: usize>(
    m: &[u8],
    c: &mut [u8],
    ad: &[u8],
    npub: &[u8],
    k: &[u8],
    mac: &mut [u8],
) -> Result<(), Refusal>
    requires family { N ≡ key_length S.VARIANT.family }
    requires lengths { length m.now ≡ length c.old }
    ensures { Encrypt (Some S.VARIANT) k.now npub.now ad.now m.now c.old c.new mac.old mac.new
        (code_of result) }
{
    encrypt_given::<S, N>(Some(m), c, ad, npub, k, mac)
}

// Encrypts a message, which is `m`, or if it is `None`, `c`, into `c`.
#[inline(always)]
fn encrypt_given<S: LaneState, const N: usize>(
    m: Option<&[u8]>,
    c: &mut [u8],
    ad: &[u8],
    npub: &[u8],
    k: &[u8],
    mac: &mut [u8],
) -> Result<(), Refusal>
    requires family { N ≡ key_length S.VARIANT.family }
    requires lengths { IfSome m (λ s. length s.now ≡ length c.old) }
    ensures { Encrypt (Some S.VARIANT) k.now npub.now ad.now (given m.entry c.old) c.old c.new
        mac.old mac.new (code_of result) }
{
    let (nonce, key) = message_keys::<N>(npub, k, c.len(), ad.len())?;
    if mac.len() == 16 {
        mac.copy_from_slice(&sealed(OneMessage::<S, N, 16>::new(key, nonce), m, c, ad));
    } else if mac.len() == 32 {
        mac.copy_from_slice(&sealed(OneMessage::<S, N, 32>::new(key, nonce), m, c, ad));
    } else {
        return Err(Refusal::WrongTagLength);
    }
    Ok(())
}

#[inline(always)]
fn sealed<S: LaneState, const N: usize, const TAG_BYTES: usize>(
    cipher: OneMessage<S, N, TAG_BYTES>,
    m: Option<&[u8]>,
    c: &mut [u8],
    ad: &[u8],
) -> [u8; TAG_BYTES]
    requires lengths { IfSome m (λ s. length s.now ≡ length c.old) }
    requires message_within { length c.old ≤ MAX_AEAD_BYTES }
    requires associated_data_within { length ad.now ≤ MAX_AEAD_BYTES }
    ensures { (c.new, result)
        ≡ seal S.VARIANT TAG_BYTES cipher.key cipher.nonce ad.now (given m.entry c.old) }
{
    match m {
        Some(m) => cipher.encrypt_into(m, c, ad),
        None => cipher.encrypt_in_place(c, ad),
    }
}

/// Decrypts `mc` in place. If `mac` is not its tag, each byte of `mc` is `ERASED`.
#[inline(never)]
pub fn decrypt_in_place<S: LaneState, const N: usize>(
    mc: &mut [u8],
    ad: &[u8],
    npub: &[u8],
    k: &[u8],
    mac: &[u8],
) -> Result<(), Refusal>
    requires { N ≡ key_length S.VARIANT.family }
    ensures { Decrypt (Some S.VARIANT) k.now npub.now ad.now mc.old mc.old mc.new mac.now
        (code_of result) }
{
    decrypt_given::<S, N>(None, mc, ad, npub, k, mac)
}

/// Decrypts `c` into `m`, which must be as long. If `mac` is not its tag, each byte of `m` is `ERASED`.
#[inline(never)]
pub fn decrypt<S: LaneState, const N: usize>(
    c: &[u8],
    m: &mut [u8],
    ad: &[u8],
    npub: &[u8],
    k: &[u8],
    mac: &[u8],
) -> Result<(), Refusal>
    requires family { N ≡ key_length S.VARIANT.family }
    requires lengths { length c.now ≡ length m.old }
    ensures { Decrypt (Some S.VARIANT) k.now npub.now ad.now c.now m.old m.new mac.now
        (code_of result) }
{
    decrypt_given::<S, N>(Some(c), m, ad, npub, k, mac)
}

// Decrypts a ciphertext, which is `c`, or if it is `None`, `m`, into `m`.
#[inline(always)]
fn decrypt_given<S: LaneState, const N: usize>(
    c: Option<&[u8]>,
    m: &mut [u8],
    ad: &[u8],
    npub: &[u8],
    k: &[u8],
    mac: &[u8],
) -> Result<(), Refusal>
    requires family { N ≡ key_length S.VARIANT.family }
    requires lengths { IfSome c (λ s. length s.now ≡ length m.old) }
    ensures { Decrypt (Some S.VARIANT) k.now npub.now ad.now (given c.entry m.old) m.old m.new
        mac.now (code_of result) }
{
    let (nonce, key) = message_keys::<N>(npub, k, m.len(), ad.len())?;
    let is_opened = if let Some(tag) = mac.as_array() {
        opened(OneMessage::<S, N, 16>::new(key, nonce), c, m, tag, ad)
    } else if let Some(tag) = mac.as_array() {
        opened(OneMessage::<S, N, 32>::new(key, nonce), c, m, tag, ad)
    } else {
        return Err(Refusal::WrongTagLength);
    };
    if is_opened {
        Ok(())
    } else {
        Err(Refusal::InvalidTag)
    }
}

// Returns whether the tag is right.
#[inline(always)]
fn opened<S: LaneState, const N: usize, const TAG_BYTES: usize>(
    cipher: OneMessage<S, N, TAG_BYTES>,
    c: Option<&[u8]>,
    m: &mut [u8],
    tag: &[u8; TAG_BYTES],
    ad: &[u8],
) -> bool
    requires lengths { IfSome c (λ s. length s.now ≡ length m.old) }
    requires message_within { length m.old ≤ MAX_AEAD_BYTES }
    requires associated_data_within { length ad.now ≤ MAX_AEAD_BYTES }
    ensures opened { result ≡ true → Opens S.VARIANT TAG_BYTES cipher.key cipher.nonce ad.now
        (given c.entry m.old) tag.now m.new }
    ensures accepted { (p : List ℕ) → Opens S.VARIANT TAG_BYTES cipher.key cipher.nonce ad.now
        (given c.entry m.old) tag.now p
        → result ≡ true }
    ensures erased { result ≡ false → m.new ≡ replicate (length m.old) erased_byte }
{
    match c {
        Some(c) => cipher.decrypt_into(c, m, tag, ad).is_ok(),
        None => cipher.decrypt_in_place(m, tag, ad).is_ok(),
    }
}

/// Overwrites `out` with keystream.
#[inline(never)]
pub fn stream<S: LaneState, const N: usize>(
    out: &mut [u8],
    npub: &[u8],
    k: &[u8],
) -> Result<(), Refusal>
    requires { N ≡ key_length S.VARIANT.family }
    ensures { Stream (Some S.VARIANT) k.now npub.now out.old out.new (code_of result) }
{
    let (nonce, key) = nonce_and_key::<N>(npub, k)?;
    OneMessage::<S, N, 16>::new(key, nonce).stream(out);
    Ok(())
}

/// Xors `mc` with keystream, in place.
#[inline(never)]
pub fn stream_xor_in_place<S: LaneState, const N: usize>(
    mc: &mut [u8],
    npub: &[u8],
    k: &[u8],
) -> Result<(), Refusal>
    requires { N ≡ key_length S.VARIANT.family }
    ensures { StreamXorInPlace (Some S.VARIANT) k.now npub.now mc.old mc.new (code_of result) }
{
    let (nonce, key) = nonce_and_key::<N>(npub, k)?;
    OneMessage::<S, N, 16>::new(key, nonce).stream_xor_in_place(mc);
    Ok(())
}

/// Writes the MAC of `input`, of 16 or 32 bytes, to `mac`.
#[inline(never)]
pub fn mac<S: LaneState, const N: usize>(
    input: &[u8],
    npub: &[u8],
    k: &[u8],
    mac: &mut [u8],
) -> Result<(), Refusal>
    requires { N ≡ key_length S.VARIANT.family }
    ensures { Mac (Some S.VARIANT) k.now npub.now input.now mac.old mac.new (code_of result) }
{
    let (nonce, key) = message_keys::<N>(npub, k, input.len(), 0)?;
    if mac.len() == 16 {
        mac.copy_from_slice(&mac_at_once::<S, 16>(key, nonce, input));
    } else if mac.len() == 32 {
        mac.copy_from_slice(&mac_at_once::<S, 32>(key, nonce, input));
    } else {
        return Err(Refusal::WrongTagLength);
    }
    Ok(())
}

/// Refuses `mac` exactly if it is not the MAC of `input`, unless a length is wrong.
#[inline(never)]
pub fn mac_verify<S: LaneState, const N: usize>(
    input: &[u8],
    npub: &[u8],
    k: &[u8],
    mac: &[u8],
) -> Result<(), Refusal>
    requires { N ≡ key_length S.VARIANT.family }
    ensures { MacVerify (Some S.VARIANT) k.now npub.now input.now mac.now (code_of result) }
{
    let (nonce, key) = message_keys::<N>(npub, k, input.len(), 0)?;
    let is_right = if mac.len() == 16 {
        same_bytes(&mac_at_once::<S, 16>(key, nonce, input), mac)
    } else if mac.len() == 32 {
        same_bytes(&mac_at_once::<S, 32>(key, nonce, input), mac)
    } else {
        return Err(Refusal::WrongTagLength);
    };
    if is_right {
        Ok(())
    } else {
        Err(Refusal::InvalidTag)
    }
}
