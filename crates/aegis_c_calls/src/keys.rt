//! The lengths that calls are given.

ghost use Rattle.std.specs.Prelude.{◌≡◌, ◌≢◌, ◌≤◌, ℤ, IfErr, IfOk, length};
ghost use Rattle.aegis_c_calls.specs.Codes.{key_code, message_code, number_of, success};

use crate::refusal::Refusal;
use aegis_base::MAX_AEAD_BYTES;

/// Returns the key as an array of `N` bytes, or why the call is refused if it has another length.
pub fn key_alone<'a, const N: usize>(k: &'a [u8]) -> Result<&'a [u8; N], Refusal>
    ensures key { IfOk result (λ key. key.now ≡ k.now) }
    ensures right { IfOk result (λ key. length k.now ≡ N) }
    ensures wrong { IfErr result (λ refusal. (length k.now ≢ N)
        × (number_of refusal ≡ number_of Refusal.WrongKeyLength)) }
{
    match k.as_array() {
        Some(key) => Ok(key),
        None => Err(Refusal::WrongKeyLength),
    }
}

/// Returns the nonce and the key as arrays of `N` bytes, or why the call is refused if one of them has another length.
pub fn nonce_and_key<'a, const N: usize>(
    npub: &'a [u8],
    k: &'a [u8],
) -> Result<(&'a [u8; N], &'a [u8; N]), Refusal>
    ensures nonce { IfOk result (λ keys. keys.0.now ≡ npub.now) }
    ensures key { IfOk result (λ keys. keys.1.now ≡ k.now) }
    ensures right { IfOk result (λ keys. (rest : ℤ)
        → key_code N (length k.now) (length npub.now) rest ≡ rest) }
    ensures wrong { IfErr result (λ refusal. (rest : ℤ)
        → key_code N (length k.now) (length npub.now) rest ≡ number_of refusal) }
    ensures not_done { IfErr result (λ refusal. number_of refusal ≢ success) }
    ensures not_invalid { IfErr result
        (λ refusal. number_of refusal ≢ number_of Refusal.InvalidTag) }
{
    let Some(nonce) = npub.as_array() else {
        return Err(Refusal::WrongNonceLength);
    };
    let Some(key) = k.as_array() else {
        return Err(Refusal::WrongKeyLength);
    };
    Ok((nonce, key))
}

/// The same for a call with so many bytes of a message and of associated data, which is also refused if one of the two
/// has too many.
pub fn message_keys<'a, const N: usize>(
    npub: &'a [u8],
    k: &'a [u8],
    message: usize,
    ad: usize,
) -> Result<(&'a [u8; N], &'a [u8; N]), Refusal>
    ensures nonce { IfOk result (λ keys. keys.0.now ≡ npub.now) }
    ensures key { IfOk result (λ keys. keys.1.now ≡ k.now) }
    ensures message { IfOk result (λ keys. message ≤ MAX_AEAD_BYTES) }
    ensures ad { IfOk result (λ keys. ad ≤ MAX_AEAD_BYTES) }
    ensures right { IfOk result (λ keys. (rest : ℤ)
        → key_code N (length k.now) (length npub.now) (message_code message ad rest) ≡ rest) }
    ensures wrong { IfErr result (λ refusal. (rest : ℤ)
        → key_code N (length k.now) (length npub.now) (message_code message ad rest)
        ≡ number_of refusal) }
    ensures not_done { IfErr result (λ refusal. number_of refusal ≢ success) }
    ensures not_invalid { IfErr result
        (λ refusal. number_of refusal ≢ number_of Refusal.InvalidTag) }
{
    let keys = nonce_and_key(npub, k)?;
    if message as u64 > MAX_AEAD_BYTES {
        return Err(Refusal::MessageTooLong);
    }
    if ad as u64 > MAX_AEAD_BYTES {
        return Err(Refusal::DataTooLong);
    }
    Ok(keys)
}
