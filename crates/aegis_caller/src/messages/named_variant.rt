//! A cipher and a MAC by their names.

ghost use Rattle.std.specs.Prelude.{◌≡◌, ◌≤◌, length};
ghost use Rattle.aegis_base.specs.Chunks.{joined};
ghost use Rattle.aegis_base.specs.Mac.{mac};
ghost use Rattle.aegis_base.specs.Message.{seal};
ghost use Rattle.aegis_base.specs.Variant.{Aegis256X2 as variant};

use aegis::MAX_AEAD_BYTES;
use aegis::aegis256x2::{Aegis256X2, Aegis256X2Mac, Key, Nonce};
use aegis::laws::{HasVariant, variants};

/// Encrypts with `Aegis256X2`, whose variant is that of its name.
pub fn sealed_by_name(key: &Key, nonce: &Nonce, header: &[u8], message: &mut [u8]) -> [u8; 32]
    requires header_within { length header.now ≤ MAX_AEAD_BYTES }
    requires message_within { length message.old ≤ MAX_AEAD_BYTES }
    ensures name { ⟦<Aegis256X2<32> as HasVariant>⟧.VARIANT ≡ variant }
    ensures sealed { (message.new, result) ≡ seal ⟦<Aegis256X2<32> as HasVariant>⟧.VARIANT 32
        key.now nonce.now header.now message.old }
{
    variants::<32>();
    Aegis256X2::new(key, nonce).encrypt_in_place(message, header)
}

/// Computes a MAC with `Aegis256X2Mac`, whose variant is that of its name.
pub fn mac_by_name(key: &Key, nonce: &Nonce, chunks: &[&[u8]]) -> [u8; 32]
    requires { length (joined chunks.now) ≤ MAX_AEAD_BYTES }
    ensures name { ⟦<Aegis256X2Mac<32> as HasVariant>⟧.VARIANT ≡ variant }
    ensures is { result ≡ mac ⟦<Aegis256X2Mac<32> as HasVariant>⟧.VARIANT 32
        key.now nonce.now (joined chunks.now) }
{
    variants::<32>();
    Aegis256X2Mac::new_with_nonce(key, nonce).finalize_chunks(chunks)
}
