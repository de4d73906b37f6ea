//! Examples whose results the library did not compute: one message with each function of two ciphers, in six chunks,
//! and with a wrong tag; short messages, decrypted in other chunks than they were encrypted in; a MAC of one byte; and
//! a byte that changes one lane.

use crate::tests::assert_bytes;
use aegis::aegis128l::{Aegis128L, Aegis128LMac};
use aegis::aegis128x4::Aegis128X4;
use aegis::{Error, chunks_len};
use aegis_variants::{AnyCipher, Keys};
use hex::FromHex;
use std::process::Abort;
use std::test::Fail;
use test_tools::inputs::{
    AEGIS256_CIPHERTEXT, AEGIS256_TAG, ASSOCIATED_DATA, LONG_KEY, MESSAGE, SHORT_KEY,
};

// The message under AEGIS-128L, `SHORT_KEY` and a nonce of zeros.
const AEGIS128L_CIPHERTEXT: &str =
    "899362861e6c645ab98b6effa9c962e88a9fa647a95060cd026d1665478ae74f82949faf8394a6c8b49f8b8a5068bc325935cc6f0cd4c48f6219817684735f0de8a70d3b138f3a3b2aceee8b02fbc2deb93b8f74e7afe943e50bdb7fa0d759d96d594ce16676455efc0245cdfb419fb10365";

const AEGIS128L_TAG: &str = "10f485a74c28388806eb3d8bfc073996";

const ZEROS: [u8; 16] = [0; 16];

// Asserts the ciphertext and the tag of the message, in place and in a vector, and decrypts both. Also encrypts and
// decrypts the message with a tag of 32 bytes.
fn check_example<R: Abort + AllocGlobal>(
    rt: &R,
    cipher: &AnyCipher,
    ciphertext: &str,
    tag: &str,
) -> Result<(), Fail> {
    let sealed = <[u8; 114] as FromHex>::from_hex(ciphertext)?;
    let tag = <[u8; 16] as FromHex>::from_hex(tag)?;
    let mut buffer = MESSAGE;
    assert_bytes(
        rt,
        &cipher.encrypt_in_place::<16>(&mut buffer, &ASSOCIATED_DATA),
        &tag,
        &"in place",
    );
    assert_bytes(rt, &buffer, &sealed, &"in place");
    let found = cipher.encrypt::<_, 16>(rt.alloc(), &MESSAGE, &ASSOCIATED_DATA)?;
    assert_bytes(rt, &found.0, &sealed, &"a vector");
    assert_bytes(rt, &found.1, &tag, &"a vector");
    cipher.decrypt_in_place(&mut buffer, &tag, &ASSOCIATED_DATA)?;
    assert_bytes(rt, &buffer, &MESSAGE, &"in place");
    let opened = cipher.decrypt(rt.alloc(), &sealed, &tag, &ASSOCIATED_DATA)?;
    assert_bytes(rt, &opened, &MESSAGE, &"a vector");

    let tag = cipher.encrypt_in_place::<32>(&mut buffer, &ASSOCIATED_DATA);
    let opened = cipher.decrypt(rt.alloc(), &buffer, &tag, &ASSOCIATED_DATA)?;
    assert_bytes(rt, &opened, &MESSAGE, &"a tag of 32 bytes");
    Ok(())
}

// Asserts that the message is decrypted neither in place nor into a vector if the first byte of its tag is another.
fn check_wrong_tag<R: Abort + AllocGlobal>(
    rt: &R,
    cipher: &AnyCipher,
    ciphertext: &str,
    tag: &str,
) -> Result<(), Fail> {
    let sealed = <[u8; 114] as FromHex>::from_hex(ciphertext)?;
    let mut wrong = <[u8; 16] as FromHex>::from_hex(tag)?;
    wrong[0] ^= 1;
    let rejected = cipher.decrypt(rt.alloc(), &sealed, &wrong, &ASSOCIATED_DATA);
    assert_eq!(rt; rejected.err(), Some(Error::InvalidTag));
    let mut buffer = sealed;
    let rejected = cipher.decrypt_in_place(&mut buffer, &wrong, &ASSOCIATED_DATA);
    assert_eq!(rt; rejected, Err(Error::InvalidTag));
    assert_bytes(rt, &buffer, &[0xaa; 114], &"in place");
    Ok(())
}

#[test]
fn one_message(rt: HostRuntime) -> Result<(), Fail> {
    let cipher = AnyCipher::Aegis128L(Keys {
        key: SHORT_KEY,
        nonce: ZEROS,
    });
    check_example(&rt, &cipher, AEGIS128L_CIPHERTEXT, AEGIS128L_TAG)?;
    check_wrong_tag(&rt, &cipher, AEGIS128L_CIPHERTEXT, AEGIS128L_TAG)?;
    let cipher = AnyCipher::Aegis256(Keys {
        key: LONG_KEY,
        nonce: [0; 32],
    });
    check_example(&rt, &cipher, AEGIS256_CIPHERTEXT, AEGIS256_TAG)?;
    check_wrong_tag(&rt, &cipher, AEGIS256_CIPHERTEXT, AEGIS256_TAG)
}

// A decryptor with a wrong tag overwrites what it wrote with zeros, and no byte after it.
#[test]
fn a_wrong_tag(rt: HostRuntime) -> Result<(), Fail> {
    let cipher = Aegis128L::<16>::new(&SHORT_KEY, &ZEROS);
    let sealed = <[u8; 114] as FromHex>::from_hex(AEGIS128L_CIPHERTEXT)?;
    let mut wrong = <[u8; 16] as FromHex>::from_hex(AEGIS128L_TAG)?;
    wrong[0] ^= 1;
    let mut destination = [0xaa; 114];
    let mut decryptor = cipher.decryptor(&ASSOCIATED_DATA, &mut destination);
    decryptor.update(&sealed)?;
    let rejected = decryptor.finalize(&wrong).err();
    assert_eq!(rt; rejected, Some(Error::InvalidTag));
    assert_bytes(&rt, &destination, &[0; 114], &"all of it");

    let mut expected = [0; 120];
    expected[114..].fill(0xaa);
    let mut destination = [0xaa; 120];
    let mut decryptor = cipher.decryptor(&ASSOCIATED_DATA, &mut destination);
    decryptor.update(&sealed)?;
    let rejected = decryptor.finalize(&wrong).err();
    assert_eq!(rt; rejected, Some(Error::InvalidTag));
    assert_bytes(&rt, &destination, &expected, &"its beginning");
    Ok(())
}

#[test]
fn six_chunks(rt: HostRuntime) -> Result<(), Fail> {
    let cipher = Aegis128L::<16>::new(&SHORT_KEY, &ZEROS);
    let expected = <[u8; 114] as FromHex>::from_hex(AEGIS128L_CIPHERTEXT)?;
    let tag = <[u8; 16] as FromHex>::from_hex(AEGIS128L_TAG)?;
    let chunks = [
        &MESSAGE[..31],
        &MESSAGE[31..32],
        &MESSAGE[32..64],
        [].as_slice(),
        &MESSAGE[64..97],
        &MESSAGE[97..],
    ];
    assert_eq!(rt; chunks_len(&chunks), Some(114));
    let mut sealed = [0; 114];
    let found = cipher.seal_chunks(&ASSOCIATED_DATA, &chunks, &mut sealed);
    assert_bytes(&rt, &sealed, &expected, &"by one call");
    assert_bytes(&rt, &found, &tag, &"by one call");

    let mut sealed = [0; 114];
    let (first, rest) = sealed.split_at_mut(31);
    let (second, rest) = rest.split_at_mut(1);
    let (third, rest) = rest.split_at_mut(32);
    let (fifth, sixth) = rest.split_at_mut(33);
    let mut encryptor = cipher.encryptor(&ASSOCIATED_DATA);
    encryptor.update(&MESSAGE[..31], first);
    encryptor.update(&MESSAGE[31..32], second);
    encryptor.update(&MESSAGE[32..64], third);
    encryptor.update(&[], &mut []);
    encryptor.update(&MESSAGE[64..97], fifth);
    encryptor.update(&MESSAGE[97..], sixth);
    assert_eq!(rt; encryptor.remaining(), 2_305_843_009_213_693_837);
    assert_bytes(&rt, &sealed, &expected, &"by six calls");
    assert_bytes(&rt, &encryptor.finalize(), &tag, &"by six calls");
    Ok(())
}

// A cipher whose key and nonce are zeros.
fn zeros() -> Aegis128L<16> {
    Aegis128L::new(&ZEROS, &ZEROS)
}

#[test]
fn other_chunks(rt: HostRuntime) -> Result<(), Fail> {
    let message = b"AEGIS is fast";
    let cipher = zeros();
    let mut sealed = [0; 13];
    let (first, second) = sealed.split_at_mut(5);
    let mut encryptor = cipher.encryptor(b"additional data");
    encryptor.update(&message[..5], first);
    encryptor.update(&message[5..], second);
    let tag = encryptor.finalize();
    let mut expected = *message;
    let expected_tag = zeros().encrypt_in_place(&mut expected, b"additional data");
    assert_bytes(&rt, &sealed, &expected, &"the ciphertext");
    assert_bytes(&rt, &tag, &expected_tag, &"the tag");

    let mut destination = [0; 13];
    let mut decryptor = cipher.decryptor(b"additional data", &mut destination);
    decryptor.update(&sealed[..7])?;
    decryptor.update(&sealed[7..])?;
    assert_bytes(&rt, decryptor.finalize(&tag)?, message, &"the message");
    Ok(())
}

// The second chunk has four bytes, and there is room for two: it is left out.
#[test]
fn a_chunk_that_is_left_out(rt: HostRuntime) -> Result<(), Fail> {
    let mut sealed = *b"hello";
    let tag = zeros().encrypt_in_place(&mut sealed, &[]);
    let chunks = [&sealed[..3], [0; 4].as_slice(), &sealed[3..]];
    let mut destination = [0; 5];
    let opened = zeros().open_chunks(&[], &chunks, &tag, &mut destination)?;
    assert_bytes(&rt, opened, b"hello", &"the message");
    Ok(())
}

#[test]
fn a_mac_of_one_byte(rt: HostRuntime) -> Result<(), Fail> {
    let expected = <[u8; 16] as FromHex>::from_hex("7b1e31c93ef8a9b70d3a7aae2980d6a0")?;
    let mut mac = Aegis128LMac::<16>::new(&SHORT_KEY);
    let mut clone = mac.clone()?;
    let nothing = mac.clone()?.finalize();
    mac.update(&[]);
    mac.update(&[]);
    assert_bytes(&rt, &mac.clone()?.finalize(), &nothing, &"no input");
    mac.update(b"a");
    assert_bytes(&rt, &mac.finalize(), &expected, &"one byte");
    clone.update(b"a");
    clone.verify(&expected)?;
    Ok(())
}

// A byte of the first lane changes no ciphertext of the other three.
#[test]
fn a_byte_of_one_lane(rt: HostRuntime) {
    let cipher = Aegis128X4::<16>::new(&ZEROS, &ZEROS);
    let mut first = [7; 256];
    let mut second = [7; 256];
    second[0] = 8;
    cipher.encrypt_in_place(&mut first, &[]);
    cipher.encrypt_in_place(&mut second, &[]);
    assert_eq!(rt; first[0] ^ second[0], 7 ^ 8);
    for at in 0..256usize {
        if at / 16 % 4 != 0 {
            assert_eq!(rt; first[at], second[at], "{at}");
        }
    }
}
