//! Functions of ciphers and MACs, each called once, and what no contract states: where a slice that is returned lies.

use crate::tests::assert_bytes;
use aegis::aegis128l::Aegis128LMac;
use aegis::aegis256::Aegis256;
use aegis::aegis256x2::Aegis256X2;
use aegis::aegis256x4::Aegis256X4Mac;
use aegis::{ERASED, Error, MAX_AEAD_BYTES, chunks_len};
use aegis_base::counted;
use aegis_variants::VARIANTS;
use hex::FromHex;
use std::process::Abort;
use std::test::Fail;
use test_tools::inputs::{
    AEGIS256_CIPHERTEXT, AEGIS256_TAG, ASSOCIATED_DATA, LONG_KEY, LONG_NONCE, MESSAGE, SHORT_KEY,
    SHORT_NONCE, keyed,
};

// The cipher of the worked example.
fn aegis256() -> Aegis256<16> {
    Aegis256::new(&LONG_KEY, &[0; 32])
}

fn ciphertext() -> Result<[u8; 114], Fail> {
    Ok(<[u8; 114] as FromHex>::from_hex(AEGIS256_CIPHERTEXT)?)
}

fn right_tag() -> Result<[u8; 16], Fail> {
    Ok(<[u8; 16] as FromHex>::from_hex(AEGIS256_TAG)?)
}

// Asserts that these are the ciphertext and the tag of the example.
fn check_sealed<R: Abort>(rt: &R, sealed: &[u8], tag: &[u8; 16], call: &str) -> Result<(), Fail> {
    assert_bytes(rt, sealed, &ciphertext()?, &call);
    assert_bytes(rt, tag, &right_tag()?, &call);
    Ok(())
}

#[test]
fn the_example_is_sealed_in_place(rt: HostRuntime) -> Result<(), Fail> {
    let mut sealed = MESSAGE;
    let mut encryptor = aegis256().encryptor(&ASSOCIATED_DATA);
    encryptor.update_in_place(&mut sealed);
    assert_eq!(rt; encryptor.remaining(), MAX_AEAD_BYTES - 114);
    check_sealed(&rt, &sealed, &encryptor.finalize(), "in place")
}

#[test]
fn the_example_is_sealed_elsewhere(rt: HostRuntime) -> Result<(), Fail> {
    let mut sealed = [0; 114];
    let mut encryptor = aegis256().encryptor(&ASSOCIATED_DATA);
    encryptor.update(&MESSAGE, &mut sealed);
    check_sealed(&rt, &sealed, &encryptor.finalize(), "elsewhere")
}

#[test]
fn the_example_in_one_call(rt: HostRuntime) -> Result<(), Fail> {
    let (mut sealed, mut opened) = ([0; 114], [0; 114]);
    let tag = aegis256().encrypt_into(&MESSAGE, &mut sealed, &ASSOCIATED_DATA);
    check_sealed(&rt, &sealed, &tag, "elsewhere")?;
    aegis256().decrypt_into(&sealed, &mut opened, &tag, &ASSOCIATED_DATA)?;
    assert_bytes(&rt, &opened, &MESSAGE, &"elsewhere");
    let refused = aegis256().decrypt_into(&sealed, &mut opened, &[0; 16], &ASSOCIATED_DATA);
    assert_eq!(rt; refused, Err(Error::InvalidTag));
    assert_bytes(&rt, &opened, &[ERASED; 114], &"a wrong tag");
    Ok(())
}

#[test]
fn the_example_is_sealed_in_chunks(rt: HostRuntime) -> Result<(), Fail> {
    let chunks = [&MESSAGE[..31], [].as_slice(), &MESSAGE[31..]];
    assert_eq!(rt; chunks_len(&chunks), Some(114));
    let mut sealed = [0; 114];
    let tag = aegis256().seal_chunks(&ASSOCIATED_DATA, &chunks, &mut sealed);
    check_sealed(&rt, &sealed, &tag, "at once")
}

// The slice that is returned is the start of the destination itself: a write to it is seen there.
#[test]
fn start_of_the_destination(rt: HostRuntime) -> Result<(), Fail> {
    let mut filled = [0xaa; 120];
    filled[..114].fill(0x55);
    let mut destination = [0xaa; 120];
    let mut decryptor = aegis256().decryptor(&ASSOCIATED_DATA, &mut destination);
    decryptor.update(&ciphertext()?)?;
    let opened = decryptor.finalize(&right_tag()?)?;
    assert_bytes(&rt, opened, &MESSAGE, &"by a decryptor");
    opened.fill(0x55);
    assert_bytes(&rt, &destination, &filled, &"by a decryptor");

    let mut destination = [0xaa; 120];
    let sealed = ciphertext()?;
    let tag = right_tag()?;
    let opened = aegis256().open_chunks(&ASSOCIATED_DATA, &[&sealed], &tag, &mut destination)?;
    assert_bytes(&rt, opened, &MESSAGE, &"at once");
    opened.fill(0x55);
    assert_bytes(&rt, &destination, &filled, &"at once");
    Ok(())
}

const TOO_SMALL: Result<(), Error> = Err(Error::OutputBufferTooSmall);

// A chunk that does not fit is refused, or left out by `open_chunks_len`, and changes nothing.
#[test]
fn lengths_of_messages(rt: HostRuntime) -> Result<(), Fail> {
    let sealed = ciphertext()?;
    let tag = right_tag()?;
    let mut destination = [0xaa; 120];
    let mut decryptor = aegis256().decryptor(&ASSOCIATED_DATA, &mut destination);
    decryptor.update(&sealed[..50])?;
    assert_eq!(rt; decryptor.update(&[0; 71]), TOO_SMALL);
    decryptor.update(&sealed[50..])?;
    assert_eq!(rt; decryptor.finalize_len(&tag), Ok(114));

    let chunks = [&sealed[..50], [0; 71].as_slice(), &sealed[50..]];
    let mut destination = [0xaa; 120];
    let opened = aegis256().open_chunks_len(&ASSOCIATED_DATA, &chunks, &tag, &mut destination);
    assert_eq!(rt; opened, Ok(114));
    Ok(())
}

#[test]
fn each_variant_in_place(rt: HostRuntime) -> Result<(), Fail> {
    for variant in VARIANTS {
        let mut buffer = MESSAGE;
        let tag = keyed(variant).encrypt_in_place::<32>(&mut buffer, &ASSOCIATED_DATA);
        keyed(variant).decrypt_in_place(&mut buffer, &tag, &ASSOCIATED_DATA)?;
        assert_bytes(&rt, &buffer, &MESSAGE, &variant.name());
    }
    Ok(())
}

fn aegis256x2() -> Aegis256X2<16> {
    Aegis256X2::new(&LONG_KEY, &LONG_NONCE)
}

#[test]
fn associated_data_in_pieces(rt: HostRuntime) -> Result<(), Fail> {
    let pieces = [
        &ASSOCIATED_DATA[..16],
        [].as_slice(),
        &ASSOCIATED_DATA[16..],
    ];
    assert_eq!(rt; chunks_len(&pieces), Some(17));
    let mut buffer = [7; 33];
    let tag = aegis256x2().encrypt_in_place_with(&mut buffer, &pieces);
    let mut sealed = [0; 33];
    let mut encryptor = aegis256x2().encryptor_with(&pieces);
    encryptor.update(&[7; 33], &mut sealed);
    assert_bytes(&rt, &sealed, &buffer, &"an encryptor");
    assert_bytes(&rt, &encryptor.finalize(), &tag, &"an encryptor");

    let opened = aegis256x2().decrypt_with(rt.alloc(), &sealed, &tag, &pieces)?;
    assert_bytes(&rt, &opened, &[7; 33], &"a vector");
    aegis256x2().decrypt_in_place_with(&mut buffer, &tag, &pieces)?;
    assert_bytes(&rt, &buffer, &[7; 33], &"in place");
    Ok(())
}

// The keystream is the ciphertext of zeros, whatever the buffer held.
#[test]
fn keystreams(rt: HostRuntime) -> Result<(), Fail> {
    let cipher = aegis256x2();
    let mut stream = [0xa5; 515];
    cipher.clone()?.stream(&mut stream);
    let mut buffer = [0; 515];
    cipher.encrypt_in_place(&mut buffer, &[]);
    assert_bytes(&rt, &stream, &buffer, &"the ciphertext of zeros");
    cipher.stream_xor_in_place(&mut buffer);
    assert_bytes(&rt, &buffer, &[0; 515], &"in place");
    let xored = cipher.stream_xor(rt.alloc(), &buffer)?;
    assert_bytes(&rt, &xored, &stream, &"a vector");
    Ok(())
}

// A clone takes in nothing of what the MAC takes in.
#[test]
fn macs(rt: HostRuntime) -> Result<(), Fail> {
    let mut mac = Aegis256X4Mac::<32>::new_with_nonce(&LONG_KEY, &LONG_NONCE);
    let clone = mac.clone()?;
    mac.update(&MESSAGE);
    assert_eq!(rt; mac.remaining(), MAX_AEAD_BYTES - 114);
    let chunks = [&MESSAGE[..31], [].as_slice(), &MESSAGE[31..]];
    assert_eq!(rt; chunks_len(&chunks), Some(114));
    let right = clone.finalize_chunks(&chunks);
    let copy = mac.clone()?;
    assert_bytes(&rt, &copy.finalize(), &right, &"the MAC");
    mac.verify(&right)?;
    let empty = Aegis128LMac::<16>::new(&SHORT_KEY);
    assert_eq!(rt; empty.verify(&[0; 16]), Err(Error::InvalidTag));
    Ok(())
}

#[test]
fn counted_at_the_limit(rt: HostRuntime) {
    assert_eq!(rt; counted(0, 0), Ok(0));
    assert_eq!(rt;
        counted(2_305_843_009_213_693_950, 1),
        Ok(2_305_843_009_213_693_951)
    );
    assert_eq!(rt;
        counted(2_305_843_009_213_693_951, 1),
        Err(Error::MessageTooLong)
    );
    assert_eq!(rt; counted(1, u64::MAX), Err(Error::MessageTooLong));
}
