//! A log: records are appended while its sealer lives, and read back at their places.

ghost use Rattle.std.specs.Prelude.{◌≡◌, ◌+◌, ◌*◌, ◌≤◌, ◌⊎◌, ◌++◌, ◌∷◌, [], IfErr, IfOk, IfSome, false, length};
ghost use Rattle.std.specs.Bool.{OnFalse, OnTrue};
ghost use Rattle.aegis.specs.RecordResults.{AreRecordsOfSomeVersion, IsRecordFault, progress_after, progress_at, record_of};
ghost use Rattle.aegis.specs.RecordStream.{start_at};

use aegis::MAX_AEAD_BYTES;
use aegis::record::{
    MAX_CONTEXT_BYTES, MAX_MESSAGE_BYTES, Opened, RecordError, RecordOpener, RecordPosition,
    RecordSealer,
};
use std::alloc::Allocator;

/// Appends three records to a log, and reads it from the place of the second on: what is read first is the second
/// message.
pub fn appended_and_read<A: Allocator + Copy>(
    alloc: A,
    key: &[u8; 32],
    prefix: &[u8; 24],
    context: &[u8],
    first: &[u8],
    second: &[u8],
    third: &[u8],
) -> Result<Vec<u8, A>, RecordError>
    requires context_within { length context.now ≤ MAX_CONTEXT_BYTES }
    requires first_within { length first.now ≤ MAX_MESSAGE_BYTES }
    requires second_within { length second.now ≤ MAX_MESSAGE_BYTES }
    requires third_within { length third.now ≤ MAX_MESSAGE_BYTES }
    ensures { IfOk result (λ read. read.items ≡ second.now) }
{
    let mut log = Vec::new(alloc);
    let mut sealer = RecordSealer::new(key, prefix, context, &mut log)?;
    sealer.seal_next(first, &mut log)?;
    let position = sealer.position();
    let mut tail = Vec::new(alloc);
    sealer.seal_next(second, &mut tail)?;
    sealer.seal_next(third, &mut tail)?;
    let mut opener = RecordOpener::begin_at(key, prefix, context, position);
    let opened = opener.open_next(alloc, &tail)?;
    Ok(opened.message)
}

/// Reads the record at a place of a log of which nothing else is known: the bytes begin with the record of the message
/// that is returned, or the error is their fault.
pub fn read_at<'b, A: Allocator + Copy>(
    alloc: A,
    key: &[u8; 32],
    prefix: &[u8; 24],
    context: &[u8],
    position: RecordPosition,
    bytes: &'b [u8],
) -> Result<Opened<'b, A>, RecordError>
    requires context_within { length context.now ≤ MAX_CONTEXT_BYTES }
    requires bytes_within { start_at position + length bytes.now ≤ MAX_AEAD_BYTES }
    ensures next { IfOk result (λ opened. OnFalse opened.is_last (bytes.now
        ≡ record_of (progress_at key.now prefix.now context.now position)
        0 opened.message.items ++ opened.rest.now)) }
    ensures last { IfOk result (λ opened. OnTrue opened.is_last (bytes.now
        ≡ record_of (progress_at key.now prefix.now context.now position)
        1 opened.message.items ++ opened.rest.now)) }
    ensures refused { IfErr result (λ e. (e ≡ RecordError.OutOfMemory)
        ⊎ IsRecordFault (progress_at key.now prefix.now context.now position) bytes.now e) }
{
    let mut opener = RecordOpener::begin_at(key, prefix, context, position);
    opener.open_next(alloc, bytes)
}

/// Reads two records of a log from a position on: the first message, and what [`RecordOpener::open_next`] returns after
/// it. It is `None` if the log ends with the first.
pub fn read_on<'b, A: Allocator + Copy>(
    alloc: A,
    key: &[u8; 32],
    prefix: &[u8; 24],
    context: &[u8],
    position: RecordPosition,
    bytes: &'b [u8],
) -> Result<Option<(Vec<u8, A>, Opened<'b, A>)>, RecordError>
    requires context_within { length context.now ≤ MAX_CONTEXT_BYTES }
    requires bytes_within { start_at position + length bytes.now
        ≤ MAX_AEAD_BYTES }
    ensures next { IfOk result (λ found. IfSome found (λ read. OnFalse read.1.is_last
        (bytes.now ≡ record_of (progress_at key.now prefix.now context.now position)
        0 read.0.items
        ++ (record_of (progress_after (progress_at key.now prefix.now context.now position)
        false read.0.items) 0 read.1.message.items ++ read.1.rest.now)))) }
    ensures last { IfOk result (λ found. IfSome found (λ read. OnTrue read.1.is_last
        (bytes.now ≡ record_of (progress_at key.now prefix.now context.now position)
        0 read.0.items
        ++ (record_of (progress_after (progress_at key.now prefix.now context.now position)
        false read.0.items) 1 read.1.message.items ++ read.1.rest.now)))) }
{
    let mut opener = RecordOpener::begin_at(key, prefix, context, position);
    let first = opener.open_next(alloc, bytes)?;
    if first.is_last {
        return Ok(None);
    }
    let second = opener.open_next(alloc, first.rest)?;
    Ok(Some((first.message, second)))
}

/// Reads one record of a stream, keeps the position alone, and goes on there with another opener: if the stream ends
/// with the second record, the two messages are all of its list.
pub fn stopped_and_read_on<A: Allocator + Copy>(
    alloc: A,
    key: &[u8; 32],
    prefix: &[u8; 24],
    context: &[u8],
    header: &[u8; 4],
    records: &[u8],
) -> Result<Option<(Vec<u8, A>, Vec<u8, A>)>, RecordError>
    requires context_within { length context.now ≤ MAX_CONTEXT_BYTES }
    requires records_within { 4 + length records.now ≤ MAX_AEAD_BYTES }
    ensures { IfOk result (λ found. IfSome found (λ pair.
        AreRecordsOfSomeVersion key.now prefix.now context.now
        (pair.0.items ∷ pair.1.items ∷ []) (header.now ++ records.now))) }
{
    let mut opener = RecordOpener::new(key, prefix, context, header)?;
    let first = opener.open_next(alloc, records)?;
    if first.is_last {
        return Ok(None);
    }
    let position = opener.position();
    let mut later = RecordOpener::begin_at(key, prefix, context, position);
    let second = later.open_next(alloc, first.rest)?;
    if second.is_last && second.rest.is_empty() {
        Ok(Some((first.message, second.message)))
    } else {
        Ok(None)
    }
}
