//! Record streams: each function once, a stored stream of the first version, faults of both versions, no memory, and
//! long messages.

ghost use Rattle.std.specs.Prelude.{◌≤◌, length};

use crate::tests::assert_bytes;
use aegis::MAX_AEAD_BYTES;
use aegis::record::{
    MAX_MESSAGE_BYTES, Opened, OpenedInPlace, RECORD_BYTES, RECORD_HEAD_BYTES, RecordError,
    RecordOpener, RecordSealer, migrate, open_records, records_len, seal_records,
};
use std::alloc::Allocator;
use std::fmt::Debug;
use std::process::Abort;
use std::test::Fail;
use test_tools::memory::Rationed;

const KEY: [u8; 32] = [0; 32];

const PREFIX: [u8; 24] = [0; 24];

const NEW_PREFIX: [u8; 24] = [
    1, 0, 0, 0, 0, 0, 0, 0, 0, 0, 0, 0, 0, 0, 0, 0, 0, 0, 0, 0, 0, 0, 0, 0,
];

const CONTEXT: [u8; 0] = [];

const MESSAGES: [&[u8]; 2] = [b"", b"abc"];

// Their stream of version 1: a header, the record of the empty message, and the record of three bytes.
const FIRST: [u8; 81] = [
    0x41, 0x47, 0x52, 0x31, //
    0x00, 0x00, 0x00, 0x00, 0x00, //
    0x34, 0x41, 0x7e, 0xf9, 0x85, 0x38, 0x15, 0x06, 0xfa, 0xb3, 0x70, 0xb0, 0x63, 0xca, 0x63, 0xa7, //
    0xec, 0xa3, 0xa3, 0x50, 0x91, 0xf6, 0x6b, 0xbd, 0xcf, 0xde, 0x5e, 0xfc, 0x6b, 0x4e, 0x8e, 0xb0, //
    0x01, 0x03, 0x00, 0x00, 0x00, //
    0xc4, 0x6f, 0xad, //
    0xde, 0xc7, 0x51, 0xa1, 0x99, 0x61, 0x11, 0x73, 0xba, 0x3f, 0xa6, 0x3d, 0xbc, 0xf7, 0xa1, 0xb9, //
    0x23, 0x0f, 0xb4, 0x48, 0x50, 0x5b, 0x53, 0x4a, 0x10, 0x6c, 0x23, 0x7c, 0x4a, 0xb4, 0x5a, 0xf2,
];

// More requests than the calls below make.
const REQUESTS: u64 = 20;

// Asserts that a result has this error. Names the case otherwise.
fn assert_error<R: Abort, C: Debug>(
    rt: &R,
    error: Option<RecordError>,
    expected: RecordError,
    case: &C,
) {
    assert_eq!(rt; error, Some(expected), "{case:?}");
}

// Whether a stream opens to the messages.
fn opens_to_messages<A: Allocator + Copy>(
    alloc: A,
    prefix: &[u8; 24],
    stream: &[u8],
) -> Result<bool, RecordError> {
    let opened = open_records(alloc, &KEY, prefix, &CONTEXT, stream)?;
    Ok(opened.len() == 2 && opened[0].is_empty() && opened[1].as_slice() == b"abc".as_slice())
}

// Migrates a stream to the other prefix.
fn migrated<A: Allocator + Copy>(alloc: A, stream: &[u8]) -> Result<Vec<u8, A>, RecordError>
    requires { length stream.now ≤ MAX_AEAD_BYTES }
{
    migrate(alloc, &KEY, &PREFIX, &NEW_PREFIX, &CONTEXT, stream)
}

// Whether the stored stream opens to the messages, and migrates to a stream of version 2 that does too.
fn comes_back<A: Allocator + Copy>(alloc: A) -> Result<bool, RecordError> {
    let is_opened = opens_to_messages(alloc, &PREFIX, &FIRST)?;
    let new = migrated(alloc, &FIRST)?;
    let is_second = new.len() == 81 && new.as_slice().starts_with(b"AGR2");
    Ok(opens_to_messages(alloc, &NEW_PREFIX, &new)? && is_opened && is_second)
}

// The errors of a stream of the two messages that is truncated, in whose tags a byte was changed, or whose prefix has
// another first or last byte.
fn check_faults<R: Abort + AllocGlobal>(rt: &R, stream: &[u8; 81]) {
    for count in 0..81usize {
        let error = if count < 4 {
            RecordError::Header
        } else {
            RecordError::Truncated
        };
        let rejected = opens_to_messages(rt.alloc(), &PREFIX, &stream[..count]).err();
        assert_error(rt, rejected, error, &count);
    }
    for (first, last, number) in [(1, 0, 0), (0, 1, 1), (1, 1, 0)] {
        let mut damaged = *stream;
        damaged[9] ^= first;
        damaged[80] ^= last;
        let rejected = opens_to_messages(rt.alloc(), &PREFIX, &damaged).err();
        assert_error(rt, rejected, RecordError::Damaged(number), &(first, last));
        let rejected = migrated(rt.alloc(), &damaged).err();
        assert_error(rt, rejected, RecordError::Damaged(number), &(first, last));
    }
    for at in [0, 23usize] {
        let mut prefix = PREFIX;
        prefix[at] ^= 1;
        let rejected = opens_to_messages(rt.alloc(), &prefix, stream).err();
        assert_error(rt, rejected, RecordError::Damaged(0), &at);
    }
}

// Of both versions. Other faults are lines of `test_agreement`.
#[test]
fn streams_that_are_cut_off_or_changed(rt: HostRuntime) -> Result<(), Fail> {
    check_faults(&rt, &FIRST);
    let second = seal_records(rt.alloc(), &KEY, &PREFIX, &CONTEXT, &MESSAGES)?;
    check_faults(&rt, &<[u8; 81]>::try_from(second.as_slice())?);
    Ok(())
}

// With each request of memory failing in turn. The first ones are needed.
#[test]
fn the_first_version_or_want_of_memory(rt: HostRuntime) {
    let mut failed = 0;
    for requests in 0..REQUESTS {
        let heap = Rationed::new(rt.alloc(), requests);
        match comes_back(&heap) {
            Ok(is_right) => assert!(rt; is_right),
            Err(error) => {
                assert_error(&rt, Some(error), RecordError::OutOfMemory, &requests);
                assert!(rt; failed == requests);
                failed += 1;
            }
        }
    }
    assert!(rt; 0 < failed && failed < REQUESTS);
}

// The stream is reserved whole.
#[test]
fn sealing_makes_one_request(rt: HostRuntime) -> Result<(), Fail> {
    assert_eq!(rt; records_len(&MESSAGES), Some(81));
    let heap = Rationed::new(rt.alloc(), 0);
    let rejected = seal_records(&heap, &KEY, &PREFIX, &CONTEXT, &MESSAGES);
    assert_error(&rt, rejected.err(), RecordError::OutOfMemory, &"no request");
    let heap = Rationed::new(rt.alloc(), 1);
    let stream = seal_records(&heap, &KEY, &PREFIX, &CONTEXT, &MESSAGES)?;
    assert!(rt; stream.len() == 81 && heap.left() == 0);
    Ok(())
}

// The stream of three messages, sealed one by one.
fn sealed<A: Allocator + Copy>(alloc: A) -> Result<Vec<u8, A>, RecordError> {
    let mut stream = Vec::new(alloc);
    let mut sealer = RecordSealer::new(&KEY, &PREFIX, &CONTEXT, &mut stream)?;
    sealer.seal_next(b"one", &mut stream)?;
    sealer.seal_next(b"", &mut stream)?;
    sealer.seal_last(b"three", &mut stream)?;
    Ok(stream)
}

#[test]
fn want_of_memory_leaves_the_vector_as_it_was(rt: HostRuntime) -> Result<(), Fail> {
    let mut whole = 0;
    for requests in 0..REQUESTS {
        let heap = Rationed::new(rt.alloc(), requests);
        match sealed(&heap) {
            Ok(stream) => whole = stream.len(),
            Err(error) => assert_error(&rt, Some(error), RecordError::OutOfMemory, &requests),
        }
    }
    assert_eq!(rt; whole, 123);
    let heap = Rationed::new(rt.alloc(), 1);
    let mut stream = Vec::new(&heap);
    let mut sealer = RecordSealer::new(&KEY, &PREFIX, &CONTEXT, &mut stream)?;
    let rejected = sealer.seal_next(&[0; 1000], &mut stream);
    assert_error(&rt, rejected.err(), RecordError::OutOfMemory, &"a record");
    assert_bytes(&rt, &stream, b"AGR2", &"the header");
    Ok(())
}

// Opens the next record of a stream that is not too long for the opener.
fn opened<'b, A: Allocator>(
    alloc: A,
    opener: &mut RecordOpener<'_>,
    bytes: &'b [u8],
) -> Result<Opened<'b, A>, RecordError> {
    if bytes.len() as u64 >= opener.remaining() {
        return Err(RecordError::TooLong);
    }
    opener.open_next(alloc, bytes)
}

#[test]
fn a_record_is_opened_at_its_position(rt: HostRuntime) -> Result<(), Fail> {
    let mut stream = Vec::new(rt.alloc());
    let mut sealer = RecordSealer::new(&KEY, &PREFIX, &CONTEXT, &mut stream)?;
    sealer.seal_next(b"three", &mut stream)?;
    assert_eq!(rt; sealer.remaining(), MAX_AEAD_BYTES - 46);
    let mut opener = RecordOpener::begin_at(&KEY, &PREFIX, &CONTEXT, sealer.position());
    assert!(rt; opener.position() == sealer.position());
    assert_eq!(rt; opener.record_len(&[1, 3, 0, 0, 0]), Ok(40));
    stream.clear();
    sealer.seal_last(b"abc", &mut stream)?;
    let record = opened(rt.alloc(), &mut opener, &stream)?;
    assert_bytes(&rt, &record.message, b"abc", &"the message");
    assert!(rt; record.is_last && record.rest.is_empty());
    Ok(())
}

// A rejected record may be opened again. After the last record nothing is opened.
#[test]
fn a_refusal_leaves_the_opener(rt: HostRuntime) -> Result<(), Fail> {
    let (header, records) = FIRST.split_at(4);
    let mut opener = RecordOpener::new(&KEY, &PREFIX, &CONTEXT, header)?;
    let first = opened(rt.alloc(), &mut opener, records)?;
    let cases = [
        (&first.rest[..first.rest.len() / 2], RecordError::Truncated),
        (records, RecordError::Damaged(1)),
        (&[2], RecordError::Flag),
    ];
    for (bytes, error) in cases {
        let rejected = opened(rt.alloc(), &mut opener, bytes).err();
        assert_error(&rt, rejected, error, &bytes);
    }
    let second = opened(rt.alloc(), &mut opener, first.rest)?;
    assert_bytes(&rt, &second.message, MESSAGES[1], &"the message");
    let rejected = opened(rt.alloc(), &mut opener, records).err();
    assert_error(&rt, rejected, RecordError::Trailing, &"after the last");
    Ok(())
}

// Opens the next record of a stream where it lies, if it is not too long for the opener.
fn open_in_place(
    opener: &mut RecordOpener<'_>,
    bytes: &mut [u8],
) -> Result<OpenedInPlace, RecordError> {
    if bytes.len() as u64 >= opener.remaining() {
        return Err(RecordError::TooLong);
    }
    opener.open_next_in_place(bytes)
}

// Seals a message where it lies, if it is not too long for the sealer.
fn seal_in_place(sealer: &mut RecordSealer<'_>, record: &mut [u8]) -> Result<(), RecordError> {
    let len = record.len() as u64;
    if len < RECORD_BYTES || len > MAX_MESSAGE_BYTES as u64 || sealer.remaining() < len {
        return Err(RecordError::TooLong);
    }
    sealer.seal_next_in_place(record);
    Ok(())
}

#[test]
fn a_record_is_sealed_and_opened_in_its_buffer(rt: HostRuntime) -> Result<(), Fail> {
    let mut header = Vec::new(rt.alloc());
    let mut sealer = RecordSealer::new(&KEY, &PREFIX, &CONTEXT, &mut header)?;
    let mut opener = RecordOpener::new(&KEY, &PREFIX, &CONTEXT, b"AGR2")?;
    let mut record = [0xff; 292];
    record[RECORD_HEAD_BYTES..][..255].fill(0x5a);
    seal_in_place(&mut sealer, &mut record)?;
    let found = open_in_place(&mut opener, &mut record)?;
    assert!(rt; found.message_len == 255 && !found.is_last);
    let message = record.get(RECORD_HEAD_BYTES..RECORD_HEAD_BYTES + 255);
    assert_bytes(&rt, message.unwrap_or(&[]), &[0x5a; 255], &"the message");
    Ok(())
}

// Whether a stream opens to this message alone.
fn opens_to<A: Allocator + Copy>(
    alloc: A,
    prefix: &[u8; 24],
    stream: &[u8],
    message: &[u8],
) -> Result<bool, RecordError> {
    let opened = open_records(alloc, &KEY, prefix, &CONTEXT, stream)?;
    Ok(opened.len() == 1 && opened[0].as_slice() == message)
}

// Whether the stream of a message opens to it.
fn opens_again<A: Allocator + Copy>(alloc: A, message: &[u8]) -> Result<bool, RecordError>
    requires { length message.now ≤ MAX_MESSAGE_BYTES }
{
    let messages = [message];
    let stream = seal_records(alloc, &KEY, &PREFIX, &CONTEXT, &messages)?;
    opens_to(alloc, &PREFIX, &stream, message)
}

#[test]
fn the_longest_message(rt: HostRuntime) -> Result<(), Fail> {
    let message = vec![in rt.alloc(); 0x5au8; MAX_MESSAGE_BYTES]?;
    assert!(rt; opens_again(rt.alloc(), &message)?);
    Ok(())
}

#[test]
fn a_long_message_migrates(rt: HostRuntime) -> Result<(), Fail> {
    let message = vec![in rt.alloc(); 0x5au8; 65_537]?;
    let messages = [message.as_slice()];
    let stream = seal_records(rt.alloc(), &KEY, &PREFIX, &CONTEXT, &messages)?;
    let new = migrated(rt.alloc(), &stream)?;
    assert!(rt; stream.len() == 65_578 && new.len() == 65_578);
    assert!(rt; opens_to(rt.alloc(), &PREFIX, &stream, &message)?);
    assert!(rt; opens_to(rt.alloc(), &NEW_PREFIX, &new, &message)?);
    Ok(())
}
