//! A key and a nonce for each family, a keystream of a cipher of any variant, and a worked example.

ghost use Rattle.aegis_base.specs.Lane.{IsTagLength};

use aegis::Error;
use aegis_variants::{AnyCipher, AnyVariant, Keys, with_cipher};
use std::alloc::Allocator;

/// The key of the AEGIS-128 ciphers.
pub const SHORT_KEY: [u8; 16] = *b"YELLOW SUBMARINE";

/// Their nonce.
pub const SHORT_NONCE: [u8; 16] = *b"used only once..";

/// The key of the AEGIS-256 ciphers.
pub const LONG_KEY: [u8; 32] = *b"YELLOW SUBMARINEyellow submarine";

/// Their nonce.
pub const LONG_NONCE: [u8; 32] = *b"a longer nonce, used only once..";

/// Returns the cipher of a variant, under the key and the nonce of its family.
pub fn keyed(variant: AnyVariant) -> AnyCipher {
    let short = Keys {
        key: SHORT_KEY,
        nonce: SHORT_NONCE,
    };
    let long = Keys {
        key: LONG_KEY,
        nonce: LONG_NONCE,
    };
    AnyCipher::with_keys(variant, short, long)
}

/// Returns a message xored with the keystream, in a new vector.
pub fn stream_xor<A: Allocator, const TAG_BYTES: usize>(
    cipher: &AnyCipher,
    alloc: A,
    m: &[u8],
) -> Result<Vec<u8, A>, Error>
    requires { IsTagLength TAG_BYTES }
{
    with_cipher!(cipher, TAG_BYTES, cipher => cipher.stream_xor(alloc, m))
}

/// The message of a worked example of AEGIS-256, under `LONG_KEY` and a nonce of zeros. The library did not make its
/// ciphertext and tag.
pub const MESSAGE: [u8; 114] =
    *b"Ladies and Gentlemen of the class of '99: If I could offer you only one tip for the future, sunscreen would be it.";

/// Its associated data.
pub const ASSOCIATED_DATA: [u8; 17] = *b"Comment numero un";

/// The digits of its ciphertext.
pub const AEGIS256_CIPHERTEXT: &str =
    "3e5a155af5b611d637667c0c8c054ee94f860a1d6769e9c5ee31dd6d2cf52a652bccfafb096f0406be6aeebe50640ccba81bfaf0de329bfaf74c1ae9e41211bb34e59f420c3e78ff2a5a0e32f394c56bc29fba5f45785563d4c18e434ac222c409879476d7272c4792f1f748323c10349ce2";

/// The digits of its tag of 16 bytes.
pub const AEGIS256_TAG: &str = "59c6e5d51fdf2bc7c147043fc97281b0";
