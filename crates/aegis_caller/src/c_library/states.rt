//! A state: its functions encrypt, decrypt or authenticate all chunks together as the definition does.

ghost use Rattle.std.specs.Prelude.{◌≡◌, ◌++◌, List, OnOk, length, ℕ};
ghost use Rattle.aegis_base.specs.Mac.{mac};
ghost use Rattle.aegis_base.specs.Message.{Opens, seal};
ghost use Rattle.aegis_base.specs.Variant.{key_length};

use aegis_base::SavedLanes;
use aegis_c_calls::refusal::Refusal;
use aegis_c_calls::state::*;

/// Seals a message of two chunks, the first in place, and the second into another buffer.
pub fn sealed_in_two<S: SavedLanes, const N: usize>(
    variant: u32,
    st: &mut State,
    ad: &[u8],
    npub: &[u8],
    k: &[u8],
    first: &mut [u8],
    second: &[u8],
    sealed: &mut [u8],
    mac: &mut [u8],
) -> Result<(), Refusal>
    requires family { N ≡ key_length S.VARIANT.family }
    requires lengths { length second.now ≡ length sealed.old }
    ensures { OnOk result ((first.new ++ sealed.new, mac.new)
        ≡ seal S.VARIANT (length mac.old) k.now npub.now ad.now (first.old ++ second.now)) }
{
    begin::<S, N>(st, variant, MESSAGE, ad, npub, k)?;
    encrypt::<S>(st, None, first)?;
    encrypt::<S>(st, Some(second), sealed)?;
    encrypt_final::<S>(st, mac)?;
    Ok(())
}

/// Opens a ciphertext of two chunks, the first in place, and the second into another buffer.
pub fn opened_in_two<S: SavedLanes, const N: usize>(
    variant: u32,
    st: &mut State,
    ad: &[u8],
    npub: &[u8],
    k: &[u8],
    first: &mut [u8],
    second: &[u8],
    opened: &mut [u8],
    mac: &[u8],
) -> Result<(), Refusal>
    requires family { N ≡ key_length S.VARIANT.family }
    requires lengths { length second.now ≡ length opened.old }
    ensures { OnOk result (Opens S.VARIANT (length mac.now)
        k.now npub.now ad.now (first.old ++ second.now) mac.now (first.new ++ opened.new)) }
{
    begin::<S, N>(st, variant, MESSAGE, ad, npub, k)?;
    decrypt_unverified::<S>(st, None, first)?;
    decrypt_unverified::<S>(st, Some(second), opened)?;
    decrypt_final::<S>(st, &mut [], mac)?;
    Ok(())
}

/// Checks a ciphertext of two chunks without opening it: `Ok` only if some message is sealed to it and the tag.
pub fn checked_in_two<S: SavedLanes, const N: usize>(
    variant: u32,
    st: &mut State,
    ad: &[u8],
    npub: &[u8],
    k: &[u8],
    first: &[u8],
    second: &[u8],
    mac: &[u8],
) -> Result<(), Refusal>
    requires { N ≡ key_length S.VARIANT.family }
    ensures { OnOk result ((m : List ℕ) × Opens S.VARIANT (length mac.now)
        k.now npub.now ad.now (first.now ++ second.now) mac.now m) }
{
    begin::<S, N>(st, variant, MESSAGE, ad, npub, k)?;
    decrypt_check::<S>(st, first)?;
    decrypt_check::<S>(st, second)?;
    decrypt_final::<S>(st, &mut [], mac)?;
    Ok(())
}

/// Writes the MAC of an input of two chunks.
pub fn mac_in_two<S: SavedLanes, const N: usize>(
    variant: u32,
    st: &mut State,
    npub: &[u8],
    k: &[u8],
    first: &[u8],
    second: &[u8],
    out: &mut [u8],
) -> Result<(), Refusal>
    requires { N ≡ key_length S.VARIANT.family }
    ensures { OnOk result (out.new
        ≡ mac S.VARIANT (length out.old) k.now npub.now (first.now ++ second.now)) }
{
    begin::<S, N>(st, variant, MAC, &[], npub, k)?;
    mac_update::<S>(st, first)?;
    mac_update::<S>(st, second)?;
    mac_final::<S>(st, out)?;
    Ok(())
}

/// Continues a message after its tag was written, which is an error.
pub fn refused_after_the_tag<S: SavedLanes>(
    st: &mut State,
    mac: &mut [u8],
    mc: &mut [u8],
) -> Result<(), Refusal>
    ensures kept { mc.new ≡ mc.old }
    ensures refused { OnOk result ⊥ }
{
    encrypt_final::<S>(st, mac)?;
    encrypt::<S>(st, None, mc)?;
    Ok(())
}

/// Encrypts with a state after it has decrypted, which is an error.
pub fn refused_in_the_other_direction<S: SavedLanes>(
    st: &mut State,
    c: &[u8],
    mc: &mut [u8],
) -> Result<(), Refusal>
    ensures kept { mc.new ≡ mc.old }
    ensures refused { OnOk result ⊥ }
{
    decrypt_check::<S>(st, c)?;
    encrypt::<S>(st, None, mc)?;
    Ok(())
}

/// Uses a message's state for a MAC, which is an error.
pub fn refused_as_a_mac<S: SavedLanes, const N: usize>(
    variant: u32,
    st: &mut State,
    ad: &[u8],
    npub: &[u8],
    k: &[u8],
    out: &mut [u8],
) -> Result<(), Refusal>
    requires { N ≡ key_length S.VARIANT.family }
    ensures kept { out.new ≡ out.old }
    ensures refused { OnOk result ⊥ }
{
    begin::<S, N>(st, variant, MESSAGE, ad, npub, k)?;
    mac_final::<S>(st, out)?;
    Ok(())
}
