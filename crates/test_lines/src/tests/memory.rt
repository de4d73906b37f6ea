//! No memory in the line program: each allocation refused in turn. Long lines: the memory that one takes, many records,
//! a long record, and the longest keystream.

use aegis::Error;
use aegis::aegis128l::Aegis128L;
use aegis_lines::answer_line;
use aegis_session::run;
use linked_list_allocator::LocalHeap;
use std::alloc::Global;
use std::test::Fail;
use test_tools::memory::Rationed;

// More requests than the lines below make.
const REQUESTS: u64 = 200;

const LINES: &[u8] = b"\
    round 000102030405060708090a0b0c0d0e0f 101112131415161718191a1b1c1d1e1f\n\
    seal aegis128l 16 59454c4c4f57205355424d4152494e45 00000000000000000000000000000000 636f 61,-,62\n\
    open aegis128l 16 59454c4c4f57205355424d4152494e45 00000000000000000000000000000000 \
    436f6d6d656e74206e756d65726f20756e 84b741a6283f,-,2d48f7892fcbb8 \
    9cedcb05fc9534da8316654abe7a3bf0\n\
    stream aegis128x4 59454c4c4f57205355424d4152494e45 00000000000000000000000000000000 20\n\
    xor aegis256 59454c4c4f57205355424d4152494e4579656c6c6f77207375626d6172696e65 \
    0000000000000000000000000000000000000000000000000000000000000000 41454749532069732066617374\n\
    mac aegis256x2 32 59454c4c4f57205355424d4152494e4579656c6c6f77207375626d6172696e65 \
    0000000000000000000000000000000000000000000000000000000000000000 61,6263\n\
    sealrec 0000000000000000000000000000000000000000000000000000000000000000 \
    000000000000000000000000000000000000000000000000 636f -,616263\n\
    openrec 0000000000000000000000000000000000000000000000000000000000000000 \
    000000000000000000000000000000000000000000000000 - \
    414752320000000000e461028be45b3bfca49bbe24f5c16f9859fa03f3edf9bfb703e83a6913335cdd0103000000d705\
    c1b8264f3e694c9097788eed0974e1a76904c814f5a76b34c0b417a5c3de40a5c0\n";

// A line is answered as with enough memory, or the error is that there is none.
#[test]
fn each_line_or_want_of_memory(rt: HostRuntime) -> Result<(), Fail> {
    for line in LINES.split(|byte| *byte == b'\n') {
        let expected = answer_line(rt.alloc(), line)?;
        for requests in 0..REQUESTS {
            let heap = Rationed::new(rt.alloc(), requests);
            match answer_line(&heap, line) {
                Ok(answer) => assert_eq!(rt; answer.as_slice(), expected.as_slice(), "{requests}"),
                Err(error) => assert_eq!(rt; error, Error::OutOfMemory, "{requests}"),
            }
        }
        let heap = Rationed::new(rt.alloc(), 0);
        assert!(rt; answer_line(&heap, line).is_err());
        let heap = Rationed::new(rt.alloc(), REQUESTS);
        assert!(rt; answer_line(&heap, line).is_ok());
    }
    Ok(())
}

// The program ends with status 2 after a beginning of its answers, or as with enough memory.
#[test]
fn all_lines_or_status_two(rt: HostRuntime) -> Result<(), Fail> {
    let mut expected = Vec::new(rt.alloc());
    let status = run(rt.alloc(), &mut &LINES[..], &mut expected);
    assert_eq!(rt; status, 0);
    for requests in 0..REQUESTS {
        let heap = Rationed::new(rt.alloc(), requests);
        let mut output = Vec::new(rt.alloc());
        let status = run(&heap, &mut &LINES[..], &mut output);
        assert!(rt;
            status == 2 || output.as_slice() == expected.as_slice(),
            "{requests}"
        );
        assert!(rt; expected.as_slice().starts_with(&output), "{requests}");
        assert!(rt; status == 0 || status == 2, "{requests}");
    }
    let heap = Rationed::new(rt.alloc(), 0);
    let mut output = Vec::new(rt.alloc());
    assert_eq!(rt; run(&heap, &mut &LINES[..], &mut output), 2);
    let heap = Rationed::new(rt.alloc(), REQUESTS);
    let mut output = Vec::new(rt.alloc());
    assert_eq!(rt; run(&heap, &mut &LINES[..], &mut output), 0);
    Ok(())
}

const MESSAGE_BYTES: usize = 8_388_608;

const BEFORE_THE_MESSAGE: &[u8] =
    b"seal aegis128l 16 07070707070707070707070707070707 07070707070707070707070707070707 - ";

// A line that seals a message of 8 MiB is read and answered by a heap that has four times its length.
#[test]
fn allocates_at_most_four_times_the_line(rt: HostRuntime) -> Result<(), Fail> {
    let mut message = vec![in rt.alloc(); 0x5a; MESSAGE_BYTES]?;
    let mut line = Vec::from_slice(rt.alloc(), BEFORE_THE_MESSAGE)?;
    line.extend_from_slice(hex::encode(rt.alloc(), &message)?.as_bytes())?;
    let heap = LocalHeap::new(rt.alloc(), line.len().saturating_mul(4))?;
    let mut answer = Vec::with_capacity(rt.alloc(), line.len())?;
    let status = run(&heap, &mut line.as_slice(), &mut answer);

    let bytes = message.len().min(MESSAGE_BYTES);
    let tag = Aegis128L::<16>::new(&[7; 16], &[7; 16]).encrypt_in_place(&mut message[..bytes], &[]);
    let ciphertext = hex::encode(rt.alloc(), &message)?;
    let tag = hex::encode(rt.alloc(), &tag)?;
    let wanted = format!(in rt.alloc(); "{ciphertext} {tag}\n")?;
    assert_eq!(rt; status, 0);
    assert_eq!(rt; answer.len(), 2 * MESSAGE_BYTES + 34);
    assert!(rt; answer.as_slice() == wanted.as_bytes());
    Ok(())
}

// The number of records of a long stream.
const MANY: usize = 10_000;

// The answer to a line with a key and a prefix of zeros, and no context.
fn answered(alloc: Global, command: &[u8], last_field: &[u8]) -> Result<Vec<u8>, Fail> {
    let mut line = Vec::from_slice(alloc, command)?;
    line.push(b' ')?;
    line.extend_from_slice(&[b'0'; 64])?;
    line.push(b' ')?;
    line.extend_from_slice(&[b'0'; 48])?;
    line.extend_from_slice(b" - ")?;
    line.extend_from_slice(last_field)?;
    Ok(answer_line(alloc, &line)?)
}

#[test]
fn many_records(rt: HostRuntime) -> Result<(), Fail> {
    let mut messages = Vec::from_slice(rt.alloc(), b"6d")?;
    for _message in 1..MANY {
        messages.extend_from_slice(b",6d")?;
    }
    let sealed = answered(rt.alloc(), b"sealrec", &messages)?;
    assert_eq!(rt; sealed.len(), 2 * (4 + 38 * MANY));
    let opened = answered(rt.alloc(), b"openrec", &sealed)?;
    assert!(rt; opened.as_slice().starts_with(b"ok "));
    assert!(rt; opened.as_slice().ends_with(&messages));
    assert_eq!(rt; opened.len(), 3 + messages.len());
    Ok(())
}

// A message of 65,537 bytes, which the first version of record streams does not allow.
#[test]
fn a_long_record(rt: HostRuntime) -> Result<(), Fail> {
    let digits = vec![in rt.alloc(); b'6'; 2 * 65_537]?;
    let sealed = answered(rt.alloc(), b"sealrec", &digits)?;
    assert_eq!(rt; sealed.len(), 2 * 65_578);
    assert!(rt; sealed.as_slice().starts_with(b"414752320101000100"));
    let opened = answered(rt.alloc(), b"openrec", &sealed)?;
    assert!(rt; opened.as_slice().starts_with(b"ok 66"));
    assert!(rt; opened.as_slice().ends_with(&digits));
    assert_eq!(rt; opened.len(), 3 + digits.len());
    Ok(())
}

#[test]
fn the_longest_keystream(rt: HostRuntime) -> Result<(), Fail> {
    let mut expected = vec![in rt.alloc(); 0; 65_536]?;
    Aegis128L::<16>::new(&[7; 16], &[7; 16]).stream(&mut expected);
    let line =
        b"stream aegis128l 07070707070707070707070707070707 07070707070707070707070707070707 65536";
    let answer = answer_line(rt.alloc(), line)?;
    let expected = hex::encode(rt.alloc(), &expected)?;
    assert!(rt; answer.as_slice() == expected.as_bytes());
    Ok(())
}
