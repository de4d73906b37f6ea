//! A message in one call, from one buffer to another.

ghost use Rattle.std.specs.Prelude.{◌≡◌, OnOk, length};
ghost use Rattle.aegis_base.specs.Message.{Opens, seal};
ghost use Rattle.aegis_base.specs.Variant.{key_length};

use aegis_base::LaneState;
use aegis_c_calls::message::{decrypt, encrypt};
use aegis_c_calls::refusal::Refusal;

/// Seals a message: the ciphertext and the tag are those of the definition.
pub fn sealed<S: LaneState, const N: usize>(
    m: &[u8],
    c: &mut [u8],
    ad: &[u8],
    npub: &[u8],
    k: &[u8],
    mac: &mut [u8],
) -> Result<(), Refusal>
    requires family { N ≡ key_length S.VARIANT.family }
    requires lengths { length m.now ≡ length c.old }
    ensures { OnOk result ((c.new, mac.new)
        ≡ seal S.VARIANT (length mac.old) k.now npub.now ad.now m.now) }
{
    encrypt::<S, N>(m, c, ad, npub, k, mac)?;
    Ok(())
}

/// Opens a ciphertext: the message is one that is sealed to it and the tag.
pub fn opened<S: LaneState, const N: usize>(
    c: &[u8],
    m: &mut [u8],
    ad: &[u8],
    npub: &[u8],
    k: &[u8],
    mac: &[u8],
) -> Result<(), Refusal>
    requires family { N ≡ key_length S.VARIANT.family }
    requires lengths { length c.now ≡ length m.old }
    ensures { OnOk result (Opens S.VARIANT (length mac.now)
        k.now npub.now ad.now c.now mac.now m.new) }
{
    decrypt::<S, N>(c, m, ad, npub, k, mac)?;
    Ok(())
}
