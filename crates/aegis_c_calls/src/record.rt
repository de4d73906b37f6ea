//! The calls on a record stream. It is sealed and opened a record at a time, in the buffer that holds the record, and
//! no call allocates memory.
//!
//! C owns the `state` between two calls, and passes the stream's context to each call again. C may pass a state that no
//! call has begun, or one that it has changed. So `check` looks at its mark and its two numbers, and each call is safe
//! for any other bytes. `cipher` seals and opens the bytes of a record.

ghost use Rattle.std.specs.Prelude.{◌≡◌, ◌+◌, ◌≤◌};
ghost use Rattle.aegis_base.specs.declared.error.TheConstants.{MAX_AEAD_BYTES};
ghost use Rattle.aegis.specs.RecordStream.{start_at};
ghost use Rattle.aegis_c_calls.specs.Private.{code_of};
ghost use Rattle.aegis_c_calls.specs.Calls.{RecordBegin, RecordBeginOpen, RecordBeginOpenAt, RecordLen, RecordOpen, RecordSeal, RecordSealLast, after_record, state_at};
ghost use Rattle.aegis_c_calls.specs.Codes.{position_of};

use crate::refusal::Refusal;
use aegis::ERASED;
use aegis::record::{MAX_CONTEXT_BYTES, MAX_MESSAGE_BYTES, RECORD_BYTES, Version};
use check::{check_record, check_state};
use cipher::{open_record, seal_record};
use state::*;

mod check;
mod cipher;
pub mod state;

// Returns a state at the first record of a stream.
fn first(mark: u64, key: &[u8; 32], prefix: &[u8; 24]) -> RecordState
    ensures { result ≡ state_at mark 0 0 key.now prefix.now }
{
    RecordState {
        mark,
        number: 0,
        before: 0,
        key: *key,
        prefix: *prefix,
    }
}

// Goes on to the record after one of so many bytes.
fn advance(st: &mut RecordState, bytes: usize)
    requires room { RECORD_BYTES ≤ bytes }
    requires fits { start_at (position_of st.old) + bytes ≤ MAX_AEAD_BYTES }
    ensures { st.new ≡ after_record st.old bytes }
{
    st.number += 1;
    st.before += bytes as u64 - RECORD_BYTES;
}

/// Begins to seal a stream, and writes its header.
pub fn begin(
    st: &mut RecordState,
    key: &[u8; 32],
    prefix: &[u8; 24],
    context: &[u8],
    header: &mut [u8; 4],
) -> Result<(), Refusal>
    ensures { RecordBegin key.now prefix.now context.now st.old st.new
        header.old header.new (code_of result) }
{
    if context.len() > MAX_CONTEXT_BYTES {
        return Err(Refusal::ContextTooLong);
    }
    header.copy_from_slice(Version::Second.header());
    *st = first(SEALING, key, prefix);
    Ok(())
}

/// Begins to open a stream with this header.
pub fn begin_open(
    st: &mut RecordState,
    key: &[u8; 32],
    prefix: &[u8; 24],
    context: &[u8],
    header: &[u8; 4],
) -> Result<(), Refusal>
    ensures { RecordBeginOpen key.now prefix.now context.now st.old st.new header.now
        (code_of result) }
{
    if header.as_slice() != Version::Second.header() {
        return Err(Refusal::UnknownHeader);
    }
    if context.len() > MAX_CONTEXT_BYTES {
        return Err(Refusal::ContextTooLong);
    }
    *st = first(OPENING, key, prefix);
    Ok(())
}

/// Begins to open a stream at the record of this number, which so many bytes of messages come before.
pub fn begin_open_at(
    st: &mut RecordState,
    key: &[u8; 32],
    prefix: &[u8; 24],
    context: &[u8],
    number: u64,
    before: u64,
) -> Result<(), Refusal>
    ensures { RecordBeginOpenAt key.now prefix.now context.now number before st.old st.new
        (code_of result) }
{
    if context.len() > MAX_CONTEXT_BYTES {
        return Err(Refusal::ContextTooLong);
    }
    let mut begun = first(OPENING, key, prefix);
    begun.number = number;
    begun.before = before;
    if check_state(&begun, OPENING).is_err() {
        return Err(Refusal::MessageTooLong);
    }
    *st = begun;
    Ok(())
}

/// Seals the next message, which is not the last one, where it lies: `bytes` has 5 bytes for its head, the message, and
/// 32 bytes for its tag.
pub fn seal(st: &mut RecordState, context: &[u8], bytes: &mut [u8]) -> Result<(), Refusal>
    ensures { RecordSeal context.now st.old st.new bytes.old bytes.new (code_of result) }
{
    check_record(st, SEALING, context.len(), bytes.len())?;
    seal_record(st, 0, context, bytes);
    advance(st, bytes.len());
    Ok(())
}

/// Seals the last message, as [`seal`] does another, and ends the state.
pub fn seal_last(st: &mut RecordState, context: &[u8], bytes: &mut [u8]) -> Result<(), Refusal>
    ensures { RecordSealLast context.now st.old st.new bytes.old bytes.new (code_of result) }
{
    check_record(st, SEALING, context.len(), bytes.len())?;
    seal_record(st, 1, context, bytes);
    *st = ENDED;
    Ok(())
}

/// Finds how many bytes the next record has, from its first five. The bytes are not authenticated.
pub fn len(st: &RecordState, head: &[u8; 5], bytes: &mut usize) -> Result<(), Refusal>
    ensures { RecordLen st.now head.now bytes.old bytes.new (code_of result) }
{
    check_state(st, OPENING)?;
    if head[0] > 1 {
        return Err(Refusal::InvalidTag);
    }
    let length = u32::from_le_bytes([head[1], head[2], head[3], head[4]]);
    if length as usize > MAX_MESSAGE_BYTES {
        return Err(Refusal::MessageTooLong);
    }
    *bytes = RECORD_BYTES as usize + length as usize;
    Ok(())
}

/// Opens the next record in place: its message is written over its ciphertext, and `flag` becomes 1 for the last
/// record, and 0 for another. If `bytes` is no next record, each of its bytes is [`ERASED`], and the state is as it
/// was. The last record ends the state.
pub fn open(
    st: &mut RecordState,
    context: &[u8],
    bytes: &mut [u8],
    flag: &mut u8,
) -> Result<(), Refusal>
    ensures { RecordOpen context.now st.old st.new bytes.old bytes.new flag.old flag.new
        (code_of result) }
{
    check_record(st, OPENING, context.len(), bytes.len())?;
    let Some(found) = open_record(st, context, bytes) else {
        bytes.fill(ERASED);
        return Err(Refusal::InvalidTag);
    };
    *flag = found;
    if found == 1 {
        *st = ENDED;
    } else {
        advance(st, bytes.len());
    }
    Ok(())
}
