//! Opening in chunks, into a destination that is borrowed until the end of the message.

ghost use Rattle.std.specs.Prelude.{◌≡◌, ℕ, ◌+◌, ◌<◌, ◌≤◌, ◌++◌, IfErr, IfOk, IsOk, List, OnErr, OnOk, [], length, take};
ghost use Rattle.aegis_base.specs.Chunks.{accepted, zeroed, joined};
ghost use Rattle.aegis_base.specs.Variant.{Aegis128L};
ghost use Rattle.aegis_base.specs.Message.{Opens};

use aegis::MAX_AEAD_BYTES;
use aegis::aegis128l::{Aegis128L, Error};
use aegis::aegis256::Aegis256;

/// Opens a message in two chunks.
pub fn open_two_chunks(
    key: &[u8; 16],
    nonce: &[u8; 16],
    associated_data: &[u8],
    first: &[u8],
    second: &[u8],
    tag: &[u8; 16],
    message: &mut [u8],
) -> Result<usize, Error>
    requires associated_data_within { length associated_data.now ≤ MAX_AEAD_BYTES }
    requires message_within { length first.now + length second.now ≤ MAX_AEAD_BYTES }
    requires room { length first.now + length second.now ≤ length message.old }
    ensures length { OnOk result (result ≡ Ok (length first.now + length second.now)) }
    ensures opened { OnOk result
        (Opens Aegis128L 16 key.now nonce.now associated_data.now (first.now ++ second.now) tag.now
        (take (length first.now + length second.now) message.new)) }
    ensures accepted { (m : List ℕ)
        → Opens Aegis128L 16 key.now nonce.now associated_data.now
        (first.now ++ second.now) tag.now m → IsOk result }
    ensures erased { OnErr result
        (message.new ≡ zeroed (length first.now + length second.now) message.old) }
{
    let cipher = Aegis128L::<16>::new(key, nonce);
    let mut decryptor = cipher.decryptor(associated_data, message);
    decryptor.update(first)?;
    decryptor.update(second)?;
    decryptor.finalize_len(tag)
}

/// Opens a chunk and drops the decryptor: zeros overwrite what was written.
pub fn drop_early(key: &[u8; 16], nonce: &[u8; 16], chunk: &[u8], message: &mut [u8])
    requires message_within { length chunk.now ≤ MAX_AEAD_BYTES }
    requires room { length chunk.now ≤ length message.old }
    ensures { message.new ≡ zeroed (length chunk.now) message.old }
{
    let cipher = Aegis128L::<16>::new(key, nonce);
    let mut decryptor = cipher.decryptor(&[], message);
    let _ = decryptor.update(chunk);
}

/// Opens a chunk that is longer than the destination, which is refused.
pub fn refuse_a_long_chunk(
    key: &[u8; 16],
    nonce: &[u8; 16],
    chunk: &[u8],
    message: &mut [u8],
) -> Result<(), Error>
    requires { length message.old < length chunk.now }
    ensures refused { result ≡ Err Error.OutputBufferTooSmall }
    ensures unchanged { message.new ≡ message.old }
{
    let cipher = Aegis128L::<16>::new(key, nonce);
    let mut decryptor = cipher.decryptor(&[], message);
    decryptor.update(chunk)
}

/// Opens a list of chunks and returns the message's length.
pub fn open_in_one_call(
    key: &[u8; 16],
    nonce: &[u8; 16],
    associated_data: &[u8],
    chunks: &[&[u8]],
    tag: &[u8; 16],
    message: &mut [u8],
) -> Result<usize, Error>
    requires { length associated_data.now ≤ MAX_AEAD_BYTES }
    ensures accepted { (m : List ℕ)
        → Opens Aegis128L 16 key.now nonce.now associated_data.now
        (accepted (length message.old) chunks.now) tag.now m → result ≡ Ok (length m) }
    ensures error { IfErr result (λ e. e ≡ Error.InvalidTag) }
{
    let opened = Aegis128L::<16>::new(key, nonce).open_chunks(
        associated_data,
        chunks,
        tag,
        message,
    )?;
    Ok(opened.len())
}

/// Opens a list of chunks in a buffer that is used again after a wrong tag: zeros then overwrite the chunks that were
/// kept, and the rest is unchanged.
pub fn open_list_or_erase(
    key: &[u8; 16],
    nonce: &[u8; 16],
    associated_data: &[u8],
    chunks: &[&[u8]],
    tag: &[u8; 16],
    buffer: &mut [u8],
) -> Result<usize, Error>
    requires { length associated_data.now ≤ MAX_AEAD_BYTES }
    ensures opened { OnOk result
        (Opens Aegis128L 16 key.now nonce.now associated_data.now
        (accepted (length buffer.old) chunks.now) tag.now
        (take (length (accepted (length buffer.old) chunks.now)) buffer.new)) }
    ensures accepted { (m : List ℕ)
        → Opens Aegis128L 16 key.now nonce.now associated_data.now
        (accepted (length buffer.old) chunks.now) tag.now m → IsOk result }
    ensures erased { OnErr result
        (buffer.new ≡ zeroed (length (accepted (length buffer.old) chunks.now)) buffer.old) }
{
    let cipher = Aegis128L::<16>::new(key, nonce);
    cipher.open_chunks_len(associated_data, chunks, tag, buffer)
}

/// Opens a message in one chunk, and returns the length of the slice that `finalize` returns.
pub fn open_one_chunk(
    key: &[u8; 16],
    nonce: &[u8; 16],
    chunk: &[u8],
    tag: &[u8; 16],
    message: &mut [u8],
) -> Result<usize, Error>
    requires message_within { length chunk.now ≤ MAX_AEAD_BYTES }
    requires room { length chunk.now ≤ length message.old }
    ensures accepted { (m : List ℕ)
        → Opens Aegis128L 16 key.now nonce.now [] chunk.now tag.now m
        → result ≡ Ok (length chunk.now) }
    ensures error { IfErr result (λ e. e ≡ Error.InvalidTag) }
{
    let mut decryptor = Aegis128L::<16>::new(key, nonce).decryptor(&[], message);
    decryptor.update(chunk)?;
    let opened = decryptor.finalize(tag)?;
    Ok(opened.len())
}

/// Opens a message in one chunk: the slice that is returned begins at the destination's address.
pub fn open_in_place<'a>(
    key: &[u8; 16],
    nonce: &[u8; 16],
    chunk: &[u8],
    tag: &[u8; 16],
    destination: &'a mut [u8],
) -> Result<&'a mut [u8], Error>
    ensures { IfOk result (λ message. message.ref_ptr ≡ destination.entry.ref_ptr) }
{
    let mut decryptor = Aegis128L::<16>::new(key, nonce).decryptor(&[], destination);
    decryptor.update(chunk)?;
    decryptor.finalize(tag)
}

/// Seals a message in any chunks, and opens it in two, split at any byte. The beginning of the destination is
/// then the message.
pub fn seal_in_chunks_and_open_in_others(
    key: &[u8; 32],
    nonce: &[u8; 32],
    associated_data: &[u8],
    chunks: &[&[u8]],
    sealed: &mut [u8],
    at: usize,
    message: &mut [u8],
) -> Result<usize, Error>
    requires lengths { length sealed.old ≡ length (joined chunks.now) }
    requires message_within { length sealed.old ≤ MAX_AEAD_BYTES }
    requires associated_data_within { length associated_data.now ≤ MAX_AEAD_BYTES }
    requires cut { at ≤ length sealed.old }
    requires room { length sealed.old ≤ length message.old }
    ensures opened { IsOk result }
    ensures same { IfOk result (λ n. take n message.new ≡ joined chunks.now) }
{
    let cipher = Aegis256::<32>::new(key, nonce);
    let tag = cipher.seal_chunks(associated_data, chunks, sealed);
    let mut decryptor = cipher.decryptor(associated_data, message);
    decryptor.update(&sealed[..at])?;
    decryptor.update(&sealed[at..])?;
    decryptor.finalize_len(&tag)
}
