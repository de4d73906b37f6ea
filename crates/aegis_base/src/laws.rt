//! Laws of AEGIS: functions that do nothing. Their contracts state facts about the definitions that all other contracts
//! use, for each variant and both lengths of a tag.

ghost use Rattle.std.specs.Prelude.{◌≡◌, ℕ};
ghost use Rattle.aegis_aes.specs.Lanes.{IsLaneCount};
ghost use Rattle.aegis_base.specs.Variant.{Variant, max_aead_bytes};
ghost use Rattle.aegis_base.specs.Lane.{IsTagLength};
ghost use Rattle.aegis_base.specs.Laws.{AreLanesIndependent, IsCiphertextPrefix, IsKeystreamShared, IsLengthKept, HasMacLength, IsMacOfTags, IsOneToOne, IsOnto, IsInitPlain, IsKeystreamPrefix, IsKeystreamSealedZeros, IsKeystreamUndone, HasTagLength};

use crate::error::MAX_AEAD_BYTES;

/// The limit on lengths is that of the definitions.
pub fn limits()
    ensures { MAX_AEAD_BYTES ≡ max_aead_bytes }
{
    let _limit = MAX_AEAD_BYTES;
}

/// Under each key, nonce and associated data, encryption is one-to-one and onto on the messages of each length: a
/// ciphertext is as long as its message, no two messages have the same ciphertext, and every list of bytes is the
/// ciphertext of a list of bytes.
#[tactic(auto, using(crate::proofs::Bijection::bijection_laws))]
pub fn bijection()
    ensures length_kept { (variant : Variant) → IsLaneCount variant.lanes
        → IsLengthKept variant }
    ensures one_to_one { (variant : Variant) → IsLaneCount variant.lanes → IsOneToOne variant }
    ensures onto { (variant : Variant) → IsLaneCount variant.lanes → IsOnto variant }
{}

/// The lanes are independent until the tag: the bytes of a ciphertext that belong to one lane do not depend on the
/// bytes of the associated data and the message that belong to other lanes, except on their number.
#[tactic(auto, using(crate::proofs::LaneIndependence::lanes_independent))]
pub fn lane_independence()
    ensures { (variant : Variant) → IsLaneCount variant.lanes → AreLanesIndependent variant }
{}

/// The ciphertext of a message's beginning is the beginning of the message's ciphertext.
#[tactic(auto, using(crate::proofs::KeystreamFacts::ciphertext_prefix))]
pub fn ciphertext_prefix()
    ensures { (variant : Variant) → IsLaneCount variant.lanes → IsCiphertextPrefix variant }
{}

/// Under one key, nonce and associated data, two messages of one length that agree before a rate block are xored with
/// the same keystream there: in that block the xor of their ciphertexts is the xor of the messages. So a key and a
/// nonce must not be used for two messages.
#[tactic(auto, using(crate::proofs::KeystreamFacts::keystream_shared))]
pub fn keystream_shared()
    ensures { (variant : Variant) → IsLaneCount variant.lanes → IsKeystreamShared variant }
{}

/// With one lane, initialization is the same as if no context block were xored in.
#[tactic(auto, using(crate::proofs::InitFacts::init_plain))]
pub fn init_of_one_lane()
    ensures { (variant : Variant) → variant.lanes ≡ 1 → IsInitPlain variant }
{}

/// Tags and MACs of 16 bytes have 16 bytes and those of 32 have 32, for keys and nonces of any lengths.
#[tactic(auto, using(crate::proofs::Lengths::length_tag, crate::proofs::MacFacts::length_mac))]
pub fn tag_lengths()
    ensures tag { (variant : Variant) (tag_bytes : ℕ) → IsLaneCount variant.lanes
        → IsTagLength tag_bytes → HasTagLength variant tag_bytes }
    ensures mac { (variant : Variant) (tag_bytes : ℕ) → IsLaneCount variant.lanes
        → IsTagLength tag_bytes → HasMacLength variant tag_bytes }
{}

/// Under one key and nonce, two inputs of one length that agree in the bytes of lane 0, and for which the other lanes
/// end with the same tags, have the same MAC: the other lanes enter it through their tags alone.
#[tactic(auto, using(crate::proofs::MacFacts::mac_of_tags))]
pub fn mac_of_tags()
    ensures { (variant : Variant) (tag_bytes : ℕ) → IsLaneCount variant.lanes
        → IsTagLength tag_bytes → IsMacOfTags variant tag_bytes }
{}

/// A shorter keystream of a key and a nonce is the beginning of a longer one.
#[tactic(auto, using(crate::proofs::KeystreamFacts::keystream_take))]
pub fn keystream_prefix()
    ensures { (variant : Variant) → IsLaneCount variant.lanes → IsKeystreamPrefix variant }
{}

/// A message that is xored twice with the keystream of a key and a nonce is unchanged.
#[tactic(auto, using(crate::proofs::KeystreamFacts::xor_keystream_twice))]
pub fn keystream_xor_twice()
    ensures { (variant : Variant) → IsLaneCount variant.lanes → IsKeystreamUndone variant }
{}

/// The keystream of a key and a nonce is the ciphertext of zeros that are sealed without associated data, with tags of
/// any length.
pub fn keystream_is_sealed_zeros()
    ensures { (variant : Variant) → IsLaneCount variant.lanes → IsKeystreamSealedZeros variant }
{}
