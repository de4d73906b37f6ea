//! The whole promise, from the contracts alone, for each of the six variants and both lengths of a tag: what is sealed
//! in any chunks opens in others, and with no other tag. Keystreams and MACs are those of the definitions.

ghost use Rattle.std.specs.Prelude.{◌≡◌, ◌≢◌, ℕ, ◌+◌, ◌≤◌, ◌++◌, IsOk, List, OnErr, length, replicate, take};
ghost use Rattle.aegis_base.specs.Chunks.{accepted, zeroed, joined};
ghost use Rattle.aegis_base.specs.Lane.{IsTagLength};
ghost use Rattle.aegis_base.specs.Message.{erased_byte};
ghost use Rattle.aegis_variants.specs.Cipher.{keystream_of, mac_by, sealed_by};

use aegis::laws::keystream_xor_twice;
use aegis::{Error, MAX_AEAD_BYTES};
use aegis_variants::{AnyCipher, with_cipher, with_mac};

/// Decrypts in place: `Ok` exactly if some message encrypts to this ciphertext and tag, and the buffer then is that
/// message. Otherwise the buffer has no byte of any.
pub fn open_exactly<const TAG_BYTES: usize>(
    cipher: &AnyCipher,
    associated_data: &[u8],
    buffer: &mut [u8],
    tag: &[u8; TAG_BYTES],
) -> Result<(), Error>
    requires tag_length { IsTagLength TAG_BYTES }
    requires associated_data_within { length associated_data.now ≤ MAX_AEAD_BYTES }
    requires message_within { length buffer.old ≤ MAX_AEAD_BYTES }
    ensures ok_only { IsOk result
        → sealed_by cipher.now TAG_BYTES associated_data.now buffer.new ≡ (buffer.old, tag.now) }
    ensures ok_if { (m : List ℕ)
        → sealed_by cipher.now TAG_BYTES associated_data.now m ≡ (buffer.old, tag.now)
        → IsOk result × (buffer.new ≡ m) }
    ensures no_byte { OnErr result (buffer.new ≡ replicate (length buffer.old) erased_byte) }
{
    cipher.decrypt_in_place(buffer, tag, associated_data)
}

/// The same in chunks, of which those count that the destination has room for: the others are refused, and count as not
/// made. Zeros then overwrite what was written.
pub fn open_exactly_in_chunks<const TAG_BYTES: usize>(
    cipher: &AnyCipher,
    associated_data: &[u8],
    chunks: &[&[u8]],
    tag: &[u8; TAG_BYTES],
    destination: &mut [u8],
) -> Result<usize, Error>
    requires tag_length { IsTagLength TAG_BYTES }
    requires associated_data_within { length associated_data.now ≤ MAX_AEAD_BYTES }
    ensures ok_only { IsOk result
        → sealed_by cipher.now TAG_BYTES associated_data.now
        (take (length (accepted (length destination.old) chunks.now)) destination.new)
        ≡ (accepted (length destination.old) chunks.now, tag.now) }
    ensures ok_if { (m : List ℕ) → sealed_by cipher.now TAG_BYTES associated_data.now m
        ≡ (accepted (length destination.old) chunks.now, tag.now)
        → IsOk result
        × (take (length (accepted (length destination.old) chunks.now)) destination.new ≡ m) }
    ensures no_byte { OnErr result (destination.new
        ≡ zeroed (length (accepted (length destination.old) chunks.now)) destination.old) }
{
    with_cipher!(cipher, TAG_BYTES, cipher => {
        cipher.open_chunks_len(associated_data, chunks, tag, destination)
    })
}

/// Xors a buffer with the keystream twice: it is as it was.
pub fn xor_twice(cipher: &AnyCipher, buffer: &mut [u8])
    ensures { buffer.new ≡ buffer.old }
{
    keystream_xor_twice();
    cipher.stream_xor_in_place(buffer);
    cipher.stream_xor_in_place(buffer)
}

/// Opens a message that was sealed in any chunks, in any others that have its ciphertext.
pub fn open_in_other_chunks<const TAG_BYTES: usize>(
    cipher: &AnyCipher,
    associated_data: &[u8],
    chunks: &[&[u8]],
    pieces: &[&[u8]],
    tag: &[u8; TAG_BYTES],
    message: &mut [u8],
) -> Result<(), Error>
    requires tag_length { IsTagLength TAG_BYTES }
    requires associated_data_within { length associated_data.now ≤ MAX_AEAD_BYTES }
    requires message_within { length (joined pieces.now) ≤ MAX_AEAD_BYTES }
    requires lengths { length message.old ≡ length (joined pieces.now) }
    requires sealed { sealed_by cipher.now TAG_BYTES associated_data.now (joined chunks.now)
        ≡ (joined pieces.now, tag.now) }
    ensures opened { IsOk result }
    ensures same { message.new ≡ joined chunks.now }
{
    cipher.open_chunks(associated_data, pieces, tag, message)
}

/// Seals a message in any chunks, and opens it again.
pub fn seal_and_open<const TAG_BYTES: usize>(
    cipher: &AnyCipher,
    associated_data: &[u8],
    chunks: &[&[u8]],
    sealed: &mut [u8],
    message: &mut [u8],
) -> Result<(), Error>
    requires tag_length { IsTagLength TAG_BYTES }
    requires associated_data_within { length associated_data.now ≤ MAX_AEAD_BYTES }
    requires message_within { length (joined chunks.now) ≤ MAX_AEAD_BYTES }
    requires sealed_length { length sealed.old ≡ length (joined chunks.now) }
    requires message_length { length message.old ≡ length (joined chunks.now) }
    ensures sealed { sealed.new
        ≡ (sealed_by cipher.now TAG_BYTES associated_data.now (joined chunks.now)).0 }
    ensures opened { IsOk result }
    ensures same { message.new ≡ joined chunks.now }
{
    let tag = cipher.seal_chunks::<TAG_BYTES>(associated_data, chunks, sealed);
    cipher.open_chunks(associated_data, &[sealed], &tag, message)
}

/// Opens the ciphertext of a message with another tag than its own. This is refused, and zeros overwrite the message.
pub fn open_with_another_tag<const TAG_BYTES: usize>(
    cipher: &AnyCipher,
    associated_data: &[u8],
    chunks: &[&[u8]],
    sealed: &[u8],
    tag: &[u8; TAG_BYTES],
    destination: &mut [u8],
) -> Result<usize, Error>
    requires tag_length { IsTagLength TAG_BYTES }
    requires associated_data_within { length associated_data.now ≤ MAX_AEAD_BYTES }
    requires message_within { length sealed.now ≤ MAX_AEAD_BYTES }
    requires room { length sealed.now ≤ length destination.old }
    requires sealed { (sealed_by cipher.now TAG_BYTES associated_data.now
        (joined chunks.now)).0 ≡ sealed.now }
    requires another_tag { (sealed_by cipher.now TAG_BYTES associated_data.now
        (joined chunks.now)).1 ≢ tag.now }
    ensures refused { result ≡ Err Error.InvalidTag }
    ensures erased { destination.new ≡ zeroed (length sealed.now) destination.old }
{
    with_cipher!(cipher, TAG_BYTES, cipher => {
        let mut decryptor = cipher.decryptor(associated_data, destination);
        decryptor.update(sealed)?;
        decryptor.finalize_len(tag)
    })
}

/// Fills a buffer with the keystream.
pub fn keystream(cipher: &AnyCipher, buffer: &mut [u8])
    ensures { buffer.new ≡ keystream_of cipher.now (length buffer.old) }
{
    cipher.stream(buffer)
}

/// Returns the MAC of an input in any chunks.
pub fn mac<const TAG_BYTES: usize>(cipher: &AnyCipher, chunks: &[&[u8]]) -> [u8; TAG_BYTES]
    requires tag { IsTagLength TAG_BYTES }
    requires within { length (joined chunks.now) ≤ MAX_AEAD_BYTES }
    ensures { result ≡ mac_by cipher.now TAG_BYTES (joined chunks.now) }
{
    cipher.mac_chunks(chunks)
}

/// Verifies the MAC of an input in two chunks.
pub fn verify_mac<const TAG_BYTES: usize>(
    cipher: &AnyCipher,
    first: &[u8],
    second: &[u8],
    expected: &[u8; TAG_BYTES],
) -> Result<(), Error>
    requires tag { IsTagLength TAG_BYTES }
    requires within { length first.now + length second.now ≤ MAX_AEAD_BYTES }
    ensures accepted { expected.now
        ≡ mac_by cipher.now TAG_BYTES (first.now ++ second.now) → IsOk result }
    ensures only { IsOk result
        → expected.now ≡ mac_by cipher.now TAG_BYTES (first.now ++ second.now) }
{
    with_mac!(cipher, TAG_BYTES, mac => {
        let mut mac = mac;
        mac.update(first);
        mac.update(second);
        mac.verify(expected)
    })
}
