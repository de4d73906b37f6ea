//! Messages and keystreams in one call each.

ghost use Rattle.std.specs.Prelude.{◌≡◌, ◌≤◌, IfOk, IsOk, List, OnErr, OnOk, length, replicate, ℕ};
ghost use Rattle.aegis_base.specs.Variant.{Aegis128L, Aegis128X4, Aegis256};
ghost use Rattle.aegis_base.specs.Message.{Opens, seal, keystream, xor_keystream};

use aegis::aegis128l::{Aegis128L, Error, Tag};
use aegis::aegis128x4::Aegis128X4;
use aegis::aegis256::Aegis256;
use aegis::aegis256x2::Aegis256X2;
use aegis::{ERASED, MAX_AEAD_BYTES};
use std::alloc::Allocator;

/// Seals a message in place, with a tag of 32 bytes.
pub fn seal_in_place(
    key: &[u8; 16],
    nonce: &[u8; 16],
    associated_data: &[u8],
    message: &mut [u8],
) -> [u8; 32]
    requires message_within { length message.old ≤ MAX_AEAD_BYTES }
    requires associated_data_within { length associated_data.now ≤ MAX_AEAD_BYTES }
    ensures { (message.new, result)
        ≡ seal Aegis128L 32 key.now nonce.now associated_data.now message.old }
{
    Aegis128L::<32>::new(key, nonce).encrypt_in_place(message, associated_data)
}

/// Opens in place. Returns `Ok` exactly if some message is sealed to the ciphertext and the tag, and the buffer is then
/// that message. Otherwise every byte of the buffer is [`ERASED`].
pub fn open(
    key: &[u8; 16],
    nonce: &[u8; 16],
    associated_data: &[u8],
    buffer: &mut [u8],
    tag: &Tag<16>,
) -> Result<(), Error>
    requires message_within { length buffer.old ≤ MAX_AEAD_BYTES }
    requires associated_data_within { length associated_data.now ≤ MAX_AEAD_BYTES }
    ensures opened { OnOk result
        (Opens Aegis128L 16 key.now nonce.now associated_data.now buffer.old tag.now buffer.new) }
    ensures accepted { (m : List ℕ)
        → Opens Aegis128L 16 key.now nonce.now associated_data.now buffer.old tag.now m
        → IsOk result }
    ensures erased { OnErr result (buffer.new ≡ replicate (length buffer.old) ERASED) }
{
    Aegis128L::<16>::new(key, nonce).decrypt_in_place(buffer, tag, associated_data)
}

/// Seals a message into one buffer, and opens it into another, which is then the message.
pub fn sealed_and_opened_into(
    key: &[u8; 16],
    nonce: &[u8; 16],
    associated_data: &[u8],
    message: &[u8],
    sealed: &mut [u8],
    opened: &mut [u8],
) -> Result<(), Error>
    requires sealed_length { length message.now ≡ length sealed.old }
    requires opened_length { length message.now ≡ length opened.old }
    requires message_within { length message.now ≤ MAX_AEAD_BYTES }
    requires associated_data_within { length associated_data.now ≤ MAX_AEAD_BYTES }
    ensures accepted { IsOk result }
    ensures same { opened.new ≡ message.now }
{
    let tag = Aegis128L::<32>::new(key, nonce).encrypt_into(message, sealed, associated_data);
    Aegis128L::new(key, nonce).decrypt_into(sealed, opened, &tag, associated_data)
}

/// Seals into a fresh vector.
pub fn seal_to_vec<A: Allocator>(
    alloc: A,
    key: &[u8; 32],
    nonce: &[u8; 32],
    associated_data: &[u8],
    message: &[u8],
) -> Result<(Vec<u8, A>, [u8; 16]), Error>
    requires message_within { length message.now ≤ MAX_AEAD_BYTES }
    requires associated_data_within { length associated_data.now ≤ MAX_AEAD_BYTES }
    ensures { IfOk result (λ sealed. (sealed.0.items, sealed.1)
        ≡ seal Aegis256 16 key.now nonce.now associated_data.now message.now) }
{
    let (ciphertext, tag) = Aegis256::<16>::new(key, nonce).encrypt(
        alloc,
        message,
        associated_data,
    )?;
    Ok((ciphertext, tag))
}

/// Opens into a new vector.
pub fn open_to_vec<A: Allocator>(
    alloc: A,
    key: &[u8; 32],
    nonce: &[u8; 32],
    associated_data: &[u8],
    ciphertext: &[u8],
    tag: &[u8; 16],
) -> Result<Vec<u8, A>, Error>
    requires message_within { length ciphertext.now ≤ MAX_AEAD_BYTES }
    requires associated_data_within { length associated_data.now ≤ MAX_AEAD_BYTES }
    ensures { IfOk result
        (λ message. Opens Aegis256 16 key.now nonce.now associated_data.now
        ciphertext.now tag.now message.items) }
{
    let message = Aegis256::<16>::new(key, nonce).decrypt(alloc, ciphertext, tag, associated_data)?;
    Ok(message)
}

/// Seals a message and opens it again, each into a new vector: the result is the message.
pub fn sealed_and_opened_to_vec<A: Allocator + Copy>(
    alloc: A,
    key: &[u8; 32],
    nonce: &[u8; 32],
    associated_data: &[u8],
    message: &[u8],
) -> Result<Vec<u8, A>, Error>
    requires message_within { length message.now ≤ MAX_AEAD_BYTES }
    requires associated_data_within { length associated_data.now ≤ MAX_AEAD_BYTES }
    ensures { IfOk result (λ opened. opened.items ≡ message.now) }
{
    let sealing = Aegis256X2::<32>::new(key, nonce);
    let (ciphertext, tag) = sealing.encrypt(alloc, message, associated_data)?;
    let opening = Aegis256X2::new(key, nonce);
    let opened = opening.decrypt(alloc, &ciphertext, &tag, associated_data)?;
    Ok(opened)
}

/// Fills a buffer with the keystream.
pub fn keystream(key: &[u8; 16], nonce: &[u8; 16], out: &mut [u8])
    ensures { out.new ≡ keystream Aegis128X4 key.now nonce.now (length out.old) }
{
    Aegis128X4::<16>::new(key, nonce).stream(out)
}

/// Xors a message with the keystream.
pub fn xor_keystream(key: &[u8; 16], nonce: &[u8; 16], message: &mut [u8])
    ensures { message.new ≡ xor_keystream Aegis128X4 key.now nonce.now message.old }
{
    Aegis128X4::<16>::new(key, nonce).stream_xor_in_place(message)
}

/// Xors a message with the keystream twice, which leaves it unchanged.
pub fn xored_twice(key: &[u8; 16], nonce: &[u8; 16], message: &mut [u8])
    ensures { message.new ≡ message.old }
{
    Aegis128X4::<16>::new(key, nonce).stream_xor_in_place(message);
    Aegis128X4::<16>::new(key, nonce).stream_xor_in_place(message);
}
