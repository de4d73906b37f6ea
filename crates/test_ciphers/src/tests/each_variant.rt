//! The six variants with both lengths of tags: wrong input, and unusual lengths.
//!
//! - `wrong_tags`: the four ways of decryption, and a MAC, with one byte of the tag changed; and what they leave.
//! - `messages_in_chunks`: two rate blocks and a byte, one byte at a time, and split near the end of a rate block.
//! - `chunks_that_do_not_fit`: chunks that are too long, between others that are not.
//! - `dropped_decryptors`: what a dropped decryptor leaves, and a wrong tag of the empty message.
//! - `empty_messages`: three ways to encrypt one, its decryption, and a wrong tag.
//! - `keystreams_of_both_tag_lengths`: the ciphertext of zeros, over any old bytes of the buffer, and the message that
//!   is xored with the keystream twice.

ghost use Rattle.std.specs.Prelude.{◌≤◌, length};
ghost use Rattle.aegis_base.specs.Lane.{IsTagLength};

use crate::tests::assert_bytes;
use aegis::{Decryptor, Encryptor, Error, chunks_len};
use aegis_base::LaneState;
use aegis_variants::{AnyCipher, VARIANTS, with_cipher, with_mac};
use std::process::Abort;
use std::test::Fail;
use test_tools::inputs::{ASSOCIATED_DATA, MESSAGE, keyed, stream_xor};

const TOO_SMALL: Result<(), Error> = Err(Error::OutputBufferTooSmall);

const WRONG_TAG: Error = Error::InvalidTag;

// The bytes of chunks: more than any destination below has room for.
const BYTES: [u8; 137] = [0x11; 137];

// A chunk, and what `update` returns for it.
type Step<'a> = (&'a [u8], Result<(), Error>);

fn assert_answer<R: Abort>(rt: &R, answer: Result<(), Error>, expected: Result<(), Error>) {
    assert_eq!(rt; answer, expected);
}

// Passes the chunks to a decryptor.
fn take_steps<R: Abort, S: LaneState, const TAG_BYTES: usize>(
    rt: &R,
    decryptor: &mut Decryptor<'_, S, TAG_BYTES>,
    steps: &[Step],
) {
    for (chunk, expected) in steps {
        assert_answer(rt, decryptor.update(chunk), *expected);
    }
}

// Passes the chunks to a decryptor, and finalizes it, or drops it if there is no tag. Returns the length of the
// message.
fn opened<R: Abort, const TAG_BYTES: usize>(
    rt: &R,
    cipher: &AnyCipher,
    steps: &[Step],
    tag: Option<&[u8; TAG_BYTES]>,
    destination: &mut [u8],
) -> Result<usize, Error>
    requires { IsTagLength TAG_BYTES }
{
    with_cipher!(cipher, TAG_BYTES, cipher => {
        let mut decryptor = cipher.decryptor(&ASSOCIATED_DATA, destination);
        take_steps(rt, &mut decryptor, steps);
        match tag {
            Some(tag) => Ok(decryptor.finalize(tag)?.len()),
            None => Ok(0),
        }
    })
}

// Decrypts chunks into a destination by one call. Returns the length of the message.
fn opened_by_one_call<const TAG_BYTES: usize>(
    cipher: &AnyCipher,
    chunks: &[&[u8]],
    tag: &[u8; TAG_BYTES],
    destination: &mut [u8],
) -> Result<usize, Error>
    requires { IsTagLength TAG_BYTES }
{
    let opened = with_cipher!(cipher, TAG_BYTES, cipher => {
        cipher.open_chunks(&ASSOCIATED_DATA, chunks, tag, destination)
    })?;
    Ok(opened.len())
}

// Asserts that a destination begins with the first `count` bytes of `start`, and that no byte after them was written.
fn assert_start<R: Abort>(rt: &R, destination: &[u8], start: &[u8], count: usize)
    requires { count ≤ length start.now }
{
    assert!(rt; destination.starts_with(&start[..count]), "{count} bytes");
    assert!(rt;
        destination.iter().skip(count).all(|byte| *byte == 0xaa),
        "after {count} bytes"
    );
}

// ---- Wrong tags

fn check_wrong_tag<R: Abort + AllocGlobal, const TAG_BYTES: usize>(
    rt: &R,
    cipher: &AnyCipher,
    sealed: &[u8; 114],
    wrong: &[u8; TAG_BYTES],
)
    requires { IsTagLength TAG_BYTES }
{
    let rejected = cipher.decrypt(rt.alloc(), sealed, wrong, &ASSOCIATED_DATA);
    assert_eq!(rt; rejected.err(), Some(WRONG_TAG));
    let mut buffer = *sealed;
    let rejected = cipher.decrypt_in_place(&mut buffer, wrong, &ASSOCIATED_DATA);
    assert_answer(rt, rejected, Err(WRONG_TAG));
    assert_start(rt, &buffer, &[], 0);

    let mut destination = [0xaa; 120];
    let rejected = opened(
        rt,
        cipher,
        &[(sealed, Ok(()))],
        Some(wrong),
        &mut destination,
    );
    assert_eq!(rt; rejected, Err(WRONG_TAG));
    assert_start(rt, &destination, &[0; 114], 114);
    let mut destination = [0xaa; 120];
    let rejected = opened_by_one_call(cipher, &[sealed], wrong, &mut destination);
    assert_eq!(rt; rejected, Err(WRONG_TAG));
    assert_start(rt, &destination, &[0; 114], 114);
}

fn verified<const TAG_BYTES: usize>(cipher: &AnyCipher, tag: &[u8; TAG_BYTES]) -> Result<(), Error>
    requires { IsTagLength TAG_BYTES }
{
    with_mac!(cipher, TAG_BYTES, mac => {
        let mut mac = mac;
        mac.update(&MESSAGE);
        mac.verify(tag)
    })
}

fn check_wrong_tags<R: Abort + AllocGlobal, const TAG_BYTES: usize>(rt: &R, cipher: &AnyCipher)
    requires { IsTagLength TAG_BYTES }
{
    let mut sealed = MESSAGE;
    let tag: [u8; TAG_BYTES] = cipher.encrypt_in_place(&mut sealed, &ASSOCIATED_DATA);
    let mac: [u8; TAG_BYTES] = cipher.mac_chunks(&[&MESSAGE]);
    assert_answer(rt, verified(cipher, &mac), Ok(()));
    for at in 0..TAG_BYTES {
        let mut wrong = tag;
        wrong[at] ^= 1;
        check_wrong_tag(rt, cipher, &sealed, &wrong);
        let mut wrong = mac;
        wrong[at] ^= 1;
        assert_answer(rt, verified(cipher, &wrong), Err(WRONG_TAG));
    }
}

#[test]
fn wrong_tags(rt: HostRuntime) {
    for variant in VARIANTS {
        check_wrong_tags::<_, 16>(&rt, &keyed(variant));
        check_wrong_tags::<_, 32>(&rt, &keyed(variant));
    }
}

// ---- Chunks

// Encrypts a message in place, in chunks of `size` bytes with an empty chunk after each.
fn seal_in_chunks<S: LaneState, const TAG_BYTES: usize>(
    encryptor: &mut Encryptor<S, TAG_BYTES>,
    size: usize,
    message: &mut [u8],
)
    requires { 1 ≤ size }
{
    for chunk in message.chunks_mut(size) {
        if chunk.len() as u64 <= encryptor.remaining() {
            encryptor.update_in_place(chunk);
            encryptor.update_in_place(&mut []);
        }
    }
}

// Decrypts a ciphertext in such chunks.
fn open_in_chunks<S: LaneState, const TAG_BYTES: usize>(
    decryptor: &mut Decryptor<'_, S, TAG_BYTES>,
    size: usize,
    ciphertext: &[u8],
) -> Result<(), Error>
    requires { 1 ≤ size }
{
    for chunk in ciphertext.chunks(size) {
        decryptor.update(chunk)?;
        decryptor.update(&[])?;
    }
    Ok(())
}

// Encrypts a message in place in such chunks. Returns its tag.
fn sealed_in_chunks<const TAG_BYTES: usize>(
    cipher: &AnyCipher,
    size: usize,
    message: &mut [u8],
) -> [u8; TAG_BYTES]
    requires tag { IsTagLength TAG_BYTES }
    requires size { 1 ≤ size }
{
    with_cipher!(cipher, TAG_BYTES, cipher => {
        let mut encryptor = cipher.encryptor(&ASSOCIATED_DATA);
        seal_in_chunks(&mut encryptor, size, message);
        encryptor.finalize()
    })
}

// Decrypts a ciphertext in such chunks. Returns the length of the message.
fn opened_in_chunks<const TAG_BYTES: usize>(
    cipher: &AnyCipher,
    size: usize,
    ciphertext: &[u8],
    tag: &[u8; TAG_BYTES],
    destination: &mut [u8],
) -> Result<usize, Error>
    requires tag { IsTagLength TAG_BYTES }
    requires size { 1 ≤ size }
{
    with_cipher!(cipher, TAG_BYTES, cipher => {
        let mut decryptor = cipher.decryptor(&ASSOCIATED_DATA, destination);
        open_in_chunks(&mut decryptor, size, ciphertext)?;
        Ok(decryptor.finalize(tag)?.len())
    })
}

fn check_chunks<R: Abort, const TAG_BYTES: usize>(rt: &R, cipher: &AnyCipher, size: usize)
    requires tag { IsTagLength TAG_BYTES }
    requires size { 1 ≤ size }
{
    let count = 2 * cipher.variant().rate() + 1;
    let mut expected = [7; 257];
    let expected = &mut expected[..count];
    let expected_tag: [u8; TAG_BYTES] = cipher.encrypt_in_place(expected, &ASSOCIATED_DATA);
    let mut sealed = [7; 257];
    let sealed = &mut sealed[..count];
    let tag: [u8; TAG_BYTES] = sealed_in_chunks(cipher, size, sealed);
    assert_bytes(rt, sealed, expected, &size);
    assert_bytes(rt, &tag, &expected_tag, &size);

    let mut destination = [0xaa; 257];
    let opened = opened_in_chunks(cipher, size, sealed, &tag, &mut destination);
    assert_eq!(rt; opened, Ok(count));
    assert_start(rt, &destination, &[7; 257], count);
}

// Splits a message one byte before the end of its first rate block, at this end and one byte after it, with an empty
// chunk between each two.
fn check_splits<R: Abort, const TAG_BYTES: usize>(rt: &R, cipher: &AnyCipher)
    requires { IsTagLength TAG_BYTES }
{
    let rate = cipher.variant().rate();
    let count = 2 * rate + 1;
    let mut expected = [7; 257];
    let expected = &mut expected[..count];
    let expected_tag: [u8; TAG_BYTES] = cipher.encrypt_in_place(expected, &ASSOCIATED_DATA);
    let message = [7; 257];
    let chunks = [
        &message[..rate - 1],
        [].as_slice(),
        &message[rate - 1..rate],
        [].as_slice(),
        &message[rate..rate + 1],
        [].as_slice(),
        &message[rate + 1..count],
    ];
    assert_eq!(rt; chunks_len(&chunks), Some(count as u64));
    let mut sealed = [0; 257];
    let sealed = &mut sealed[..count];
    let tag: [u8; TAG_BYTES] = cipher.seal_chunks(&ASSOCIATED_DATA, &chunks, sealed);
    assert_bytes(rt, sealed, expected, &"split");
    assert_bytes(rt, &tag, &expected_tag, &"split");

    let whole = &sealed[..];
    let chunks = [
        &whole[..rate - 1],
        [].as_slice(),
        &whole[rate - 1..rate],
        [].as_slice(),
        &whole[rate..rate + 1],
        [].as_slice(),
        &whole[rate + 1..],
    ];
    let mut destination = [0xaa; 257];
    let opened = opened_by_one_call(cipher, &chunks, &tag, &mut destination);
    assert_eq!(rt; opened, Ok(count));
    assert_start(rt, &destination, &[7; 257], count);
}

#[test]
fn messages_in_chunks(rt: HostRuntime) {
    for variant in VARIANTS {
        let rate = variant.rate();
        for size in [1, rate - 1, rate, rate + 1] {
            check_chunks::<_, 16>(&rt, &keyed(variant), size);
            check_chunks::<_, 32>(&rt, &keyed(variant), size);
        }
        check_splits::<_, 16>(&rt, &keyed(variant));
        check_splits::<_, 32>(&rt, &keyed(variant));
    }
}

// ---- Chunks that do not fit

fn check_fit<R: Abort, const TAG_BYTES: usize>(rt: &R, cipher: &AnyCipher)
    requires { IsTagLength TAG_BYTES }
{
    let count = 3 * cipher.variant().rate() + 1;
    let mut bytes = [7; 386];
    let sealed = &mut bytes[..count];
    let tag: [u8; TAG_BYTES] = cipher.encrypt_in_place(sealed, &ASSOCIATED_DATA);
    let steps = [
        (&bytes[..count + 1], TOO_SMALL),
        (&bytes[..1], Ok(())),
        (&bytes[..count], TOO_SMALL),
        (&bytes[..0], Ok(())),
        (&bytes[1..count], Ok(())),
        (&bytes[..1], TOO_SMALL),
    ];
    let mut destination = [0xaa; 385];
    let found = opened(rt, cipher, &steps, Some(&tag), &mut destination[..count]);
    assert_eq!(rt; found, Ok(count));
    assert_start(rt, &destination, &[7; 385], count);
    let steps = [(&bytes[..count + 1], TOO_SMALL), (&bytes[..count], Ok(()))];
    let mut destination = [0xaa; 385];
    let found = opened(rt, cipher, &steps, Some(&tag), &mut destination[..count]);
    assert_eq!(rt; found, Ok(count));
    assert_start(rt, &destination, &[7; 385], count);

    // A chunk that does not fit is skipped.
    let chunks = [&bytes[..3], &bytes[..count], &bytes[3..count]];
    let mut destination = [0xaa; 385];
    let opened = opened_by_one_call(cipher, &chunks, &tag, &mut destination[..count]);
    assert_eq!(rt; opened, Ok(count));
    assert_start(rt, &destination, &[7; 385], count);
}

#[test]
fn chunks_that_do_not_fit(rt: HostRuntime) {
    for variant in VARIANTS {
        check_fit::<_, 16>(&rt, &keyed(variant));
        check_fit::<_, 32>(&rt, &keyed(variant));
    }
}

// ---- Drops

// Asserts that after these steps a dropped decryptor leaves `zeros` zeros at the start of its destination, and changes
// no other byte. The destination has eight bytes more than a rate block.
fn check_drop<R: Abort, const TAG_BYTES: usize>(
    rt: &R,
    cipher: &AnyCipher,
    steps: &[Step],
    zeros: usize,
)
    requires tag { IsTagLength TAG_BYTES }
    requires zeros { zeros ≤ 136 }
{
    let mut destination = [0xaa; 136];
    let room = cipher.variant().rate() + 8;
    let dropped = opened::<_, TAG_BYTES>(rt, cipher, steps, None, &mut destination[..room]);
    assert_eq!(rt; dropped, Ok(0));
    assert_start(rt, &destination, &[0; 136], zeros);
}

fn check_drops<R: Abort, const TAG_BYTES: usize>(rt: &R, cipher: &AnyCipher)
    requires { IsTagLength TAG_BYTES }
{
    let rate = cipher.variant().rate();
    let rejected = (&BYTES[..rate + 9], TOO_SMALL);
    check_drop::<_, TAG_BYTES>(rt, cipher, &[], 0);
    check_drop::<_, TAG_BYTES>(rt, cipher, &[rejected], 0);
    check_drop::<_, TAG_BYTES>(rt, cipher, &[(&BYTES[..1], Ok(())), rejected], 1);
    check_drop::<_, TAG_BYTES>(rt, cipher, &[(&BYTES[..rate + 2], Ok(()))], rate + 2);

    let mut tag: [u8; TAG_BYTES] = cipher.encrypt_in_place(&mut [], &ASSOCIATED_DATA);
    tag[0] ^= 1;
    let mut destination = [0xaa; 136];
    let rejected = opened(rt, cipher, &[], Some(&tag), &mut destination);
    assert_eq!(rt; rejected, Err(WRONG_TAG));
    assert_start(rt, &destination, &[], 0);
}

#[test]
fn dropped_decryptors(rt: HostRuntime) {
    for variant in VARIANTS {
        check_drops::<_, 16>(&rt, &keyed(variant));
        check_drops::<_, 32>(&rt, &keyed(variant));
    }
}

// ---- Empty messages and keystreams

fn check_empty<R: Abort, const TAG_BYTES: usize>(rt: &R, cipher: &AnyCipher)
    requires { IsTagLength TAG_BYTES }
{
    let tag: [u8; TAG_BYTES] = cipher.encrypt_in_place(&mut [], &ASSOCIATED_DATA);
    let without = with_cipher!(cipher, TAG_BYTES, cipher => {
        cipher.encryptor(&ASSOCIATED_DATA).finalize()
    });
    assert_bytes(rt, &without, &tag, &"without a chunk");
    let with = with_cipher!(cipher, TAG_BYTES, cipher => {
        let mut encryptor = cipher.encryptor(&ASSOCIATED_DATA);
        encryptor.update(&[], &mut []);
        encryptor.finalize()
    });
    assert_bytes(rt, &with, &tag, &"with an empty chunk");
    assert_eq!(rt; opened(rt, cipher, &[], Some(&tag), &mut []), Ok(0));
    let mut wrong = tag;
    wrong[0] ^= 1;
    let rejected = cipher.decrypt_in_place(&mut [], &wrong, &ASSOCIATED_DATA);
    assert_answer(rt, rejected, Err(WRONG_TAG));
}

#[test]
fn empty_messages(rt: HostRuntime) {
    for variant in VARIANTS {
        check_empty::<_, 16>(&rt, &keyed(variant));
        check_empty::<_, 32>(&rt, &keyed(variant));
    }
}

fn xor_in_place<const TAG_BYTES: usize>(cipher: &AnyCipher, buffer: &mut [u8])
    requires { IsTagLength TAG_BYTES }
{
    with_cipher!(cipher, TAG_BYTES, cipher => cipher.stream_xor_in_place(buffer))
}

fn check_keystream<R: Abort + AllocGlobal, const TAG_BYTES: usize>(
    rt: &R,
    cipher: &AnyCipher,
) -> Result<(), Fail>
    requires { IsTagLength TAG_BYTES }
{
    let mut stream = [0xa5; 515];
    with_cipher!(cipher, TAG_BYTES, cipher => cipher.stream(&mut stream));
    let mut sealed = [0; 515];
    let _tag: [u8; TAG_BYTES] = cipher.encrypt_in_place(&mut sealed, &[]);
    assert_bytes(rt, &stream, &sealed, &TAG_BYTES);

    let mut buffer = *b"AEGIS is fast";
    xor_in_place::<TAG_BYTES>(cipher, &mut buffer);
    let xored = stream_xor::<_, TAG_BYTES>(cipher, rt.alloc(), b"AEGIS is fast")?;
    assert_bytes(rt, &xored, &buffer, &"xored once");
    xor_in_place::<TAG_BYTES>(cipher, &mut buffer);
    assert_bytes(rt, &buffer, b"AEGIS is fast", &"xored twice");
    Ok(())
}

#[test]
fn keystreams_of_both_tag_lengths(rt: HostRuntime) -> Result<(), Fail> {
    for variant in VARIANTS {
        check_keystream::<_, 16>(&rt, &keyed(variant))?;
        check_keystream::<_, 32>(&rt, &keyed(variant))?;
    }
    Ok(())
}
