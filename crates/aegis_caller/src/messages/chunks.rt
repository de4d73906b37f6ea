//! Callers that seal in chunks, and callers of MACs.

ghost use Rattle.std.specs.Prelude.{◌≡◌, ◌+◌, ◌≤◌, ◌++◌, [], IsOk, List, length, replicate, ℕ};
ghost use Rattle.aegis_base.specs.Chunks.{joined};
ghost use Rattle.aegis_base.specs.Variant.{Aegis128L, Aegis128X2, Aegis256X4};
ghost use Rattle.aegis_base.specs.Mac.{mac};
ghost use Rattle.aegis_base.specs.Message.{ciphertext, seal, tag};

use aegis::MAX_AEAD_BYTES;
use aegis::aegis128l::{Aegis128L, Aegis128LMac, Error};
use aegis::aegis128x2::Aegis128X2;
use aegis::aegis256x4::{Aegis256X4, Aegis256X4Mac};

/// Seals a message in two chunks.
pub fn seal_two(
    key: &[u8; 16],
    nonce: &[u8; 16],
    associated_data: &[u8],
    first: &mut [u8],
    second: &mut [u8],
) -> [u8; 16]
    requires message_within { length first.old + length second.old ≤ MAX_AEAD_BYTES }
    requires associated_data_within { length associated_data.now ≤ MAX_AEAD_BYTES }
    ensures { (first.new ++ second.new, result)
        ≡ seal Aegis128L 16 key.now nonce.now associated_data.now (first.old ++ second.old) }
{
    let mut encryptor = Aegis128L::<16>::new(key, nonce).encryptor(associated_data);
    encryptor.update_in_place(first);
    encryptor.update_in_place(second);
    encryptor.finalize()
}

/// Seals a message in two chunks, each into a buffer of its length.
pub fn seal_two_into(
    key: &[u8; 16],
    nonce: &[u8; 16],
    associated_data: &[u8],
    first: &[u8],
    second: &[u8],
    out: &mut [u8],
    more: &mut [u8],
) -> [u8; 32]
    requires message_within { length first.now + length second.now ≤ MAX_AEAD_BYTES }
    requires associated_data_within { length associated_data.now ≤ MAX_AEAD_BYTES }
    requires first_length { length out.old ≡ length first.now }
    requires second_length { length more.old ≡ length second.now }
    ensures { (out.new ++ more.new, result)
        ≡ seal Aegis128X2 32 key.now nonce.now associated_data.now (first.now ++ second.now) }
{
    let mut encryptor = Aegis128X2::<32>::new(key, nonce).encryptor(associated_data);
    encryptor.update(first, out);
    encryptor.update(second, more);
    encryptor.finalize()
}

/// Seals a message whole and in two chunks: the tags are the same.
pub fn cut_changes_no_tag(
    key: &[u8; 32],
    nonce: &[u8; 32],
    message: &mut [u8],
    first: &mut [u8],
    second: &mut [u8],
) -> ([u8; 16], [u8; 16])
    requires same { message.old ≡ first.old ++ second.old }
    requires message_within { length first.old + length second.old ≤ MAX_AEAD_BYTES }
    ensures { result.0 ≡ result.1 }
{
    let cipher = Aegis256X4::<16>::new(key, nonce);
    let mut encryptor = cipher.encryptor(&[]);
    encryptor.update_in_place(first);
    encryptor.update_in_place(second);
    (cipher.encrypt_in_place(message, &[]), encryptor.finalize())
}

/// Seals only an empty chunk: the message is empty.
pub fn seal_nothing(key: &[u8; 16], nonce: &[u8; 16]) -> [u8; 16]
    ensures { result ≡ tag Aegis128L 16 key.now nonce.now [] [] }
{
    let mut encryptor = Aegis128L::<16>::new(key, nonce).encryptor(&[]);
    encryptor.update_in_place(&mut []);
    encryptor.finalize()
}

/// Seals a list of chunks.
pub fn seal_list(
    key: &[u8; 32],
    nonce: &[u8; 32],
    associated_data: &[u8],
    chunks: &[&[u8]],
    out: &mut [u8],
) -> [u8; 32]
    requires lengths { length out.old ≡ length (joined chunks.now) }
    requires message_within { length out.old ≤ MAX_AEAD_BYTES }
    requires associated_data_within { length associated_data.now ≤ MAX_AEAD_BYTES }
    ensures { (out.new, result)
        ≡ seal Aegis256X4 32 key.now nonce.now associated_data.now (joined chunks.now) }
{
    Aegis256X4::<32>::new(key, nonce).seal_chunks(associated_data, chunks, out)
}

/// Returns the MAC of an input in two pieces.
pub fn mac_two(key: &[u8; 16], first: &[u8], second: &[u8]) -> [u8; 16]
    requires { length first.now + length second.now ≤ MAX_AEAD_BYTES }
    ensures { result ≡ mac Aegis128L 16 key.now (replicate 16 0) (first.now ++ second.now) }
{
    let mut mac = Aegis128LMac::<16>::new(key);
    mac.update(first);
    mac.update(second);
    mac.finalize()
}

/// Returns `Ok` if this is the MAC of the input.
pub fn has_mac(
    key: &[u8; 32],
    nonce: &[u8; 32],
    input: &[u8],
    expected: &[u8; 32],
) -> Result<(), Error>
    requires { length input.now ≤ MAX_AEAD_BYTES }
    ensures { expected.now ≡ mac Aegis256X4 32 key.now nonce.now input.now → IsOk result }
{
    let mut mac = Aegis256X4Mac::<32>::new_with_nonce(key, nonce);
    mac.update(input);
    mac.verify(expected)
}

/// Returns the MAC of a list of chunks.
pub fn mac_list(key: &[u8; 32], nonce: &[u8; 32], chunks: &[&[u8]]) -> [u8; 16]
    requires { length (joined chunks.now) ≤ MAX_AEAD_BYTES }
    ensures { result ≡ mac Aegis256X4 16 key.now nonce.now (joined chunks.now) }
{
    Aegis256X4Mac::<16>::new_with_nonce(key, nonce).finalize_chunks(chunks)
}
