//! Reservations: each call reserves the vector that it returns before it works on any byte, and nothing else.

ghost use Rattle.std.specs.Prelude.{◌≡◌, ◌⊎◌, ◌≤◌, length};
ghost use Rattle.aegis_base.specs.Lane.{IsTagLength};

use aegis::Error;
use aegis_variants::{AnyCipher, VARIANTS};
use std::alloc::Allocator;
use std::process::Abort;
use std::test::Fail;
use test_tools::inputs::{ASSOCIATED_DATA, keyed, stream_xor};
use test_tools::memory::Rationed;

// Asserts what a call returned: without any request `OutOfMemory`, even if the tag is wrong, and otherwise the same as
// with enough memory. No request is left.
fn assert_ended<R: Abort, A: Allocator>(
    rt: &R,
    found: Result<Vec<u8, &Rationed<A>>, Error>,
    otherwise: Result<&[u8], Error>,
    requests: u64,
    heap: &Rationed<A>,
) {
    let expected = if requests == 0 {
        Err(Error::OutOfMemory)
    } else {
        otherwise
    };
    match found {
        Ok(bytes) => assert_eq!(rt; Ok(bytes.as_slice()), expected),
        Err(error) => assert_eq!(rt; Err(error), expected),
    }
    assert_eq!(rt; heap.left(), 0);
}

// Opens a ciphertext into a vector.
fn check_opening<R: Abort + AllocGlobal, const TAG_BYTES: usize>(
    rt: &R,
    cipher: &AnyCipher,
    ciphertext: &[u8],
    tag: &[u8; TAG_BYTES],
    requests: u64,
    otherwise: Result<&[u8], Error>,
)
    requires tag { IsTagLength TAG_BYTES }
    requires ciphertext { length ciphertext.now ≤ 65537 }
{
    let heap = Rationed::new(rt.alloc(), requests);
    let opened = cipher.decrypt(&heap, ciphertext, tag, &ASSOCIATED_DATA);
    assert_ended(rt, opened, otherwise, requests, &heap);
}

// Seals a message and xors it with the keystream into a vector, and opens what is sealed.
fn check_each<R: Abort + AllocGlobal, const TAG_BYTES: usize>(
    rt: &R,
    cipher: &AnyCipher,
    message: &[u8],
    requests: u64,
) -> Result<(), Fail>
    requires tag { IsTagLength TAG_BYTES }
    requires message { length message.now ≤ 65537 }
{
    let mut buffer = Vec::from_slice(rt.alloc(), message)?;
    let sealed: &mut [u8] = &mut buffer;
    let tag = cipher.encrypt_in_place::<TAG_BYTES>(sealed, &ASSOCIATED_DATA);
    let heap = Rationed::new(rt.alloc(), requests);
    let found = match cipher.encrypt::<_, TAG_BYTES>(&heap, message, &ASSOCIATED_DATA) {
        Ok(found) => {
            let found_tag = found.1;
            assert_eq!(rt; found_tag, tag);
            Ok(found.0)
        }
        Err(error) => Err(error),
    };
    assert_ended(rt, found, Ok(sealed), requests, &heap);

    let expected = stream_xor::<_, TAG_BYTES>(cipher, rt.alloc(), message)?;
    let heap = Rationed::new(rt.alloc(), requests);
    let xored = stream_xor::<_, TAG_BYTES>(cipher, &heap, message);
    assert_ended(rt, xored, Ok(&expected), requests, &heap);

    check_opening(rt, cipher, sealed, &tag, requests, Ok(message));
    let mut wrong = tag;
    wrong[0] ^= 1;
    check_opening(rt, cipher, sealed, &wrong, requests, Err(Error::InvalidTag));
    Ok(())
}

fn check_requests<R: Abort + AllocGlobal>(rt: &R, requests: u64) -> Result<(), Fail> {
    for message_bytes in [114, 65_537usize] {
        let message = vec![in rt.alloc(); 7; message_bytes]?;
        assert!(rt; message.len() <= 65_537);
        for variant in VARIANTS {
            check_each::<_, 16>(rt, &keyed(variant), &message, requests)?;
            check_each::<_, 32>(rt, &keyed(variant), &message, requests)?;
        }
    }
    Ok(())
}

#[test]
fn first_request_refused(rt: HostRuntime) -> Result<(), Fail> {
    check_requests(&rt, 0)
}

#[test]
fn second_request_refused(rt: HostRuntime) -> Result<(), Fail> {
    check_requests(&rt, 1)
}
