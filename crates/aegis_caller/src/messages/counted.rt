//! Numbers that the contracts give for one example: associated data of 17 bytes, and a message of 114.

ghost use Rattle.std.specs.Prelude.{◌≡◌, ◌*◌, ◌∷◌, []};
ghost use Rattle.aegis_base.specs.Lane.{bit_lengths};

use aegis::aegis128l::Aegis128L;

/// Encrypts the message in six chunks. Returns how many more bytes a message may have.
pub fn remaining_after_six_chunks(
    key: &[u8; 16],
    nonce: &[u8; 16],
    associated_data: &[u8; 17],
    message: &[u8; 114],
    sealed: &mut [u8; 114],
) -> u64
    ensures { result ≡ 2_305_843_009_213_693_837 }
{
    let (first, rest) = sealed.split_at_mut(31);
    let (second, rest) = rest.split_at_mut(1);
    let (third, rest) = rest.split_at_mut(32);
    let (fifth, sixth) = rest.split_at_mut(33);
    let mut encryptor = Aegis128L::<16>::new(key, nonce).encryptor(associated_data);
    encryptor.update(&message[..31], first);
    encryptor.update(&message[31..32], second);
    encryptor.update(&message[32..64], third);
    encryptor.update(&[], &mut []);
    encryptor.update(&message[64..97], fifth);
    encryptor.update(&message[97..], sixth);
    encryptor.remaining()
}

/// The lengths in bits that end the example: both in eight bytes, least first.
pub fn lengths_at_the_end()
    ensures { bit_lengths (8 * 17) (8 * 114)
        ≡ 0x88 ∷ 0 ∷ 0 ∷ 0 ∷ 0 ∷ 0 ∷ 0 ∷ 0 ∷ 0x90 ∷ 0x03 ∷ 0 ∷ 0 ∷ 0 ∷ 0 ∷ 0 ∷ 0 ∷ [] }
{}
