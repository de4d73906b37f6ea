//! The exports on a record stream, which is sealed and opened a record at a time, in place. The state says what the
//! stream is sealed under and where its next record is; the context is passed to each call.
//!
//! Each returns a code of `aegis_c_calls::refusal`. After an error other than an invalid tag, nothing has changed.

ghost use Rattle.aegis_c_calls.specs.Calls.{RecordBegin, RecordBeginOpen, RecordBeginOpenAt, RecordLen, RecordOpen, RecordSeal, RecordSealLast};

use aegis_c_calls::record;
use aegis_c_calls::record::state::RecordState;
use aegis_c_calls::refusal::code;

/// Begins to seal a stream at `st`, and writes its header.
#[unsafe(no_mangle)]
pub extern "C" fn hunkravy_proved_record_begin(
    st: &mut RecordState,
    k: &[u8; 32],
    prefix: &[u8; 24],
    context: &[u8],
    header: &mut [u8; 4],
) -> i32
    ensures { RecordBegin k.now prefix.now context.now st.old st.new
        header.old header.new result }
{
    code(record::begin(st, k, prefix, context, header))
}

/// Begins to open a stream with this header at `st`.
#[unsafe(no_mangle)]
pub extern "C" fn hunkravy_proved_record_begin_open(
    st: &mut RecordState,
    k: &[u8; 32],
    prefix: &[u8; 24],
    context: &[u8],
    header: &[u8; 4],
) -> i32
    ensures { RecordBeginOpen k.now prefix.now context.now st.old st.new header.now result }
{
    code(record::begin_open(st, k, prefix, context, header))
}

/// Begins to open at `st` a stream at the record of this number, which so many bytes of messages come before.
#[unsafe(no_mangle)]
pub extern "C" fn hunkravy_proved_record_begin_open_at(
    st: &mut RecordState,
    k: &[u8; 32],
    prefix: &[u8; 24],
    context: &[u8],
    number: u64,
    before: u64,
) -> i32
    ensures { RecordBeginOpenAt k.now prefix.now context.now number before st.old st.new result }
{
    code(record::begin_open_at(st, k, prefix, context, number, before))
}

/// Seals the next message in place: `bytes` has 5 bytes, the message, and 32 bytes.
#[unsafe(no_mangle)]
pub extern "C" fn hunkravy_proved_record_seal(
    st: &mut RecordState,
    context: &[u8],
    bytes: &mut [u8],
) -> i32
    ensures { RecordSeal context.now st.old st.new bytes.old bytes.new result }
{
    code(record::seal(st, context, bytes))
}

/// Seals the last message in place, and ends the stream.
#[unsafe(no_mangle)]
pub extern "C" fn hunkravy_proved_record_seal_last(
    st: &mut RecordState,
    context: &[u8],
    bytes: &mut [u8],
) -> i32
    ensures { RecordSealLast context.now st.old st.new bytes.old bytes.new result }
{
    code(record::seal_last(st, context, bytes))
}

/// Finds how many bytes the next record has, from its first five.
#[unsafe(no_mangle)]
pub extern "C" fn hunkravy_proved_record_len(
    st: &RecordState,
    head: &[u8; 5],
    record_len: &mut usize,
) -> i32
    ensures { RecordLen st.now head.now record_len.old record_len.new result }
{
    code(record::len(st, head, record_len))
}

/// Opens the next record in place. `is_last` becomes 1 for the last record, which ends the stream, and 0 for another.
/// If no message is sealed to the record, each of its bytes is 0xaa, and the result is -1.
#[unsafe(no_mangle)]
pub extern "C" fn hunkravy_proved_record_open(
    st: &mut RecordState,
    context: &[u8],
    bytes: &mut [u8],
    is_last: &mut u8,
) -> i32
    ensures { RecordOpen context.now st.old st.new bytes.old bytes.new is_last.old is_last.new
        result }
{
    code(record::open(st, context, bytes, is_last))
}
