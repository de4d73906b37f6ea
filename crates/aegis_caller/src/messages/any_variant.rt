//! Callers of a variant that is chosen while the program runs.

ghost use Rattle.std.specs.Prelude.{◌≡◌, ◌≤◌, ◌++◌, IsOk, OnErr, false, length, replicate, true};
ghost use Rattle.aegis_base.specs.Mac.{mac};
ghost use Rattle.aegis_base.specs.Message.{keystream};
ghost use Rattle.aegis_variants.specs.Cipher.{key_of, nonce_of, variant_of, standard_of};

use aegis::{Error, MAX_AEAD_BYTES};
use aegis_variants::{AnyCipher, AnyVariant};

/// Decrypting what was encrypted succeeds, and gives the message.
pub fn sealed_and_opened(
    cipher: &AnyCipher,
    header: &[u8],
    message: &[u8],
    sealed: &mut [u8],
    opened: &mut [u8],
) -> Result<(), Error>
    requires header_within { length header.now ≤ MAX_AEAD_BYTES }
    requires message_within { length message.now ≤ MAX_AEAD_BYTES }
    requires sealed_length { length sealed.old ≡ length message.now }
    requires opened_length { length opened.old ≡ length message.now }
    ensures accepted { IsOk result }
    ensures same { opened.new ≡ message.now }
{
    let tag = cipher.seal_chunks::<32>(header, &[message], sealed);
    cipher.open_chunks(header, &[sealed], &tag, opened)
}

/// Decrypts a ciphertext in two chunks. If that fails, zeros alone are left, whatever the ciphertext was.
pub fn opened_or_zeros(
    cipher: &AnyCipher,
    first: &[u8],
    second: &[u8],
    tag: &[u8; 32],
    opened: &mut [u8],
) -> Result<(), Error>
    requires within { length (first.now ++ second.now) ≤ MAX_AEAD_BYTES }
    requires opened_length { length opened.old ≡ length (first.now ++ second.now) }
    ensures { OnErr result (opened.new ≡ replicate (length opened.old) 0) }
{
    cipher.open_chunks(&[], &[first, second], tag, opened)
}

/// Fills a buffer with the keystream of a variant. Returns `false`, and leaves the buffer as it was, if the key or the
/// nonce does not have the variant's length.
pub fn keystream(variant: AnyVariant, key: &[u8], nonce: &[u8], buffer: &mut [u8]) -> bool
    ensures filled { result ≡ true
        → buffer.new ≡ keystream (standard_of variant) key.now nonce.now (length buffer.old) }
    ensures unchanged { result ≡ false → buffer.new ≡ buffer.old }
{
    let Some(cipher) = AnyCipher::from_slices(variant, key, nonce) else {
        return false;
    };
    cipher.stream(buffer);
    true
}

/// Returns the MAC of a message in two chunks.
pub fn mac_of_two(cipher: &AnyCipher, first: &[u8], second: &[u8]) -> [u8; 16]
    requires message_within { length (first.now ++ second.now) ≤ MAX_AEAD_BYTES }
    ensures { result
        ≡ mac (standard_of (variant_of cipher.now)) 16 (key_of cipher.now) (nonce_of cipher.now)
        (first.now ++ second.now) }
{
    cipher.mac_chunks(&[first, second])
}
