//! Printed texts: of the cipher, the encryptor, the decryptor and the MAC of each variant, and of errors.

use aegis::Error;
use aegis::aegis128l::{Aegis128L, Aegis128LMac};
use aegis::aegis128x2::{Aegis128X2, Aegis128X2Mac};
use aegis::aegis128x4::{Aegis128X4, Aegis128X4Mac};
use aegis::aegis256::{Aegis256, Aegis256Mac};
use aegis::aegis256x2::{Aegis256X2, Aegis256X2Mac};
use aegis::aegis256x4::{Aegis256X4, Aegis256X4Mac};
use aegis::record::RecordError;
use std::fmt::Debug;
use std::process::Abort;
use std::test::Fail;
use test_tools::inputs::{LONG_KEY, LONG_NONCE, SHORT_KEY, SHORT_NONCE};

// Asserts that a text is the expected one.
fn assert_text<R: Abort>(rt: &R, text: &str, expected: &str) {
    assert_eq!(rt; text, expected);
}

// Asserts that a value prints the same text in both debug forms.
fn check_text<R: Abort + AllocGlobal, T: Debug>(
    rt: &R,
    value: &T,
    expected: &str,
) -> Result<(), Fail> {
    assert_text(rt, &format!(in rt.alloc(); "{value:?}")?, expected);
    assert_text(rt, &format!(in rt.alloc(); "{value:#?}")?, expected);
    Ok(())
}

#[test]
fn aegis128l(rt: HostRuntime) -> Result<(), Fail> {
    let cipher = Aegis128L::<16>::new(&SHORT_KEY, &SHORT_NONCE);
    check_text(&rt, &cipher, "Aegis128L { .. }")?;
    check_text(&rt, &cipher.encryptor(&[]), "aegis128l::Encryptor { .. }")?;
    let mac = Aegis128LMac::<32>::new(&SHORT_KEY);
    check_text(&rt, &mac, "Aegis128LMac { .. }")?;
    let mut destination = [];
    let decryptor = cipher.decryptor(&[], &mut destination);
    check_text(&rt, &decryptor, "aegis128l::Decryptor { .. }")
}

#[test]
fn aegis128x2(rt: HostRuntime) -> Result<(), Fail> {
    let cipher = Aegis128X2::<32>::new(&SHORT_KEY, &SHORT_NONCE);
    check_text(&rt, &cipher, "Aegis128X2 { .. }")?;
    check_text(&rt, &cipher.encryptor(&[]), "aegis128x2::Encryptor { .. }")?;
    let mac = Aegis128X2Mac::<16>::new(&SHORT_KEY);
    check_text(&rt, &mac, "Aegis128X2Mac { .. }")?;
    let mut destination = [];
    let decryptor = cipher.decryptor(&[], &mut destination);
    check_text(&rt, &decryptor, "aegis128x2::Decryptor { .. }")
}

#[test]
fn aegis128x4(rt: HostRuntime) -> Result<(), Fail> {
    let cipher = Aegis128X4::<16>::new(&SHORT_KEY, &SHORT_NONCE);
    check_text(&rt, &cipher, "Aegis128X4 { .. }")?;
    check_text(&rt, &cipher.encryptor(&[]), "aegis128x4::Encryptor { .. }")?;
    let mac = Aegis128X4Mac::<32>::new(&SHORT_KEY);
    check_text(&rt, &mac, "Aegis128X4Mac { .. }")?;
    let mut destination = [];
    let decryptor = cipher.decryptor(&[], &mut destination);
    check_text(&rt, &decryptor, "aegis128x4::Decryptor { .. }")
}

#[test]
fn aegis256(rt: HostRuntime) -> Result<(), Fail> {
    let cipher = Aegis256::<32>::new(&LONG_KEY, &LONG_NONCE);
    check_text(&rt, &cipher, "Aegis256 { .. }")?;
    check_text(&rt, &cipher.encryptor(&[]), "aegis256::Encryptor { .. }")?;
    let mac = Aegis256Mac::<16>::new(&LONG_KEY);
    check_text(&rt, &mac, "Aegis256Mac { .. }")?;
    let mut destination = [];
    let decryptor = cipher.decryptor(&[], &mut destination);
    check_text(&rt, &decryptor, "aegis256::Decryptor { .. }")
}

#[test]
fn aegis256x2(rt: HostRuntime) -> Result<(), Fail> {
    let cipher = Aegis256X2::<16>::new(&LONG_KEY, &LONG_NONCE);
    check_text(&rt, &cipher, "Aegis256X2 { .. }")?;
    check_text(&rt, &cipher.encryptor(&[]), "aegis256x2::Encryptor { .. }")?;
    let mac = Aegis256X2Mac::<32>::new(&LONG_KEY);
    check_text(&rt, &mac, "Aegis256X2Mac { .. }")?;
    let mut destination = [];
    let decryptor = cipher.decryptor(&[], &mut destination);
    check_text(&rt, &decryptor, "aegis256x2::Decryptor { .. }")
}

#[test]
fn aegis256x4(rt: HostRuntime) -> Result<(), Fail> {
    let cipher = Aegis256X4::<32>::new(&LONG_KEY, &LONG_NONCE);
    check_text(&rt, &cipher, "Aegis256X4 { .. }")?;
    check_text(&rt, &cipher.encryptor(&[]), "aegis256x4::Encryptor { .. }")?;
    let mac = Aegis256X4Mac::<16>::new(&LONG_KEY);
    check_text(&rt, &mac, "Aegis256X4Mac { .. }")?;
    let mut destination = [];
    let decryptor = cipher.decryptor(&[], &mut destination);
    check_text(&rt, &decryptor, "aegis256x4::Decryptor { .. }")
}

#[test]
fn errors(rt: HostRuntime) -> Result<(), Fail> {
    let errors = [
        (Error::InvalidTag, "Invalid tag"),
        (Error::OutputBufferTooSmall, "Output buffer too small"),
        (Error::MessageTooLong, "Message too long"),
        (Error::OutOfMemory, "Out of memory"),
    ];
    for (error, expected) in errors {
        assert_text(&rt, &format!(in rt.alloc(); "{error}")?, expected);
    }
    Ok(())
}

#[test]
fn errors_of_records(rt: HostRuntime) -> Result<(), Fail> {
    let errors = [
        (RecordError::Header, "Bad header"),
        (RecordError::Truncated, "Truncated"),
        (RecordError::Flag, "Bad flag"),
        (RecordError::TooLong, "Record too long"),
        (RecordError::Damaged(0), "Damaged record 0"),
        (
            RecordError::Damaged(u64::MAX),
            "Damaged record 18446744073709551615",
        ),
        (RecordError::Trailing, "Trailing bytes"),
        (RecordError::OutOfMemory, "Out of memory"),
    ];
    for (error, expected) in errors {
        assert_text(&rt, &format!(in rt.alloc(); "{error}")?, expected);
    }
    Ok(())
}
