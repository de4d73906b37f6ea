//! What C passes: a state, and the lengths of a record and of a context.

ghost use Rattle.std.specs.Prelude.{◌≡◌, ◌≢◌, ◌+◌, ◌<◌, ◌≤◌, ℤ, IfErr, IfNone, IfOk, IfSome, OnOk};
ghost use Rattle.aegis.specs.RecordStream.{start_at};
ghost use Rattle.aegis_c_calls.specs.Codes.{mark_code, position_of, number_of, record_code, success};

use crate::record::state::RecordState;
use crate::refusal::Refusal;
use aegis::record::{MAX_CONTEXT_BYTES, MAX_MESSAGE_BYTES, RECORD_BYTES};
use aegis_base::MAX_AEAD_BYTES;

// How many bytes the header of a stream has.
const HEADER_BYTES: u64 = 4;

// Returns at which byte of its stream the next record starts, or `None` if that is past the limit.
fn start(st: &RecordState) -> Option<u64>
    ensures start { IfSome result (λ at. at ≡ start_at (position_of st.now)) }
    ensures within { IfSome result (λ at. at ≤ MAX_AEAD_BYTES) }
    ensures past { IfNone result (MAX_AEAD_BYTES < start_at (position_of st.now)) }
{
    if st.number > MAX_AEAD_BYTES / RECORD_BYTES || st.before > MAX_AEAD_BYTES {
        return None;
    }
    let start = HEADER_BYTES + RECORD_BYTES * st.number + st.before;
    if start > MAX_AEAD_BYTES {
        None
    } else {
        Some(start)
    }
}

/// Returns at which byte of its stream the next record starts. Refuses a state that does not have this mark, or whose
/// stream is past the limit.
pub fn check_state(st: &RecordState, mark: u64) -> Result<u64, Refusal>
    ensures start { IfOk result (λ at. at ≡ start_at (position_of st.now)) }
    ensures within { IfOk result (λ at. at ≤ MAX_AEAD_BYTES) }
    ensures right { IfOk result (λ at. (rest : ℤ) → mark_code st.now mark rest ≡ rest) }
    ensures wrong { IfErr result (λ refusal. (rest : ℤ)
        → mark_code st.now mark rest ≡ number_of refusal) }
    ensures refusal { IfErr result (λ refusal. number_of refusal ≡ number_of Refusal.WrongState) }
{
    if st.mark != mark {
        return Err(Refusal::WrongState);
    }
    match start(st) {
        Some(at) => Ok(at),
        None => Err(Refusal::WrongState),
    }
}

/// Refuses a state that does not have this mark, or whose stream is past the limit, and a wrong length: of its next
/// record, or of its context.
pub fn check_record(
    st: &RecordState,
    mark: u64,
    context: usize,
    bytes: usize,
) -> Result<(), Refusal>
    ensures context { OnOk result (context ≤ MAX_CONTEXT_BYTES) }
    ensures room { OnOk result (RECORD_BYTES ≤ bytes) }
    ensures within { OnOk result (bytes ≤ RECORD_BYTES + MAX_MESSAGE_BYTES) }
    ensures fits { OnOk result (start_at (position_of st.now) + bytes ≤ MAX_AEAD_BYTES) }
    ensures right { OnOk result (record_code st.now mark context bytes ≡ success) }
    ensures wrong { IfErr result (λ refusal.
        record_code st.now mark context bytes ≡ number_of refusal) }
    ensures not_done { IfErr result (λ refusal. number_of refusal ≢ success) }
    ensures not_invalid { IfErr result
        (λ refusal. number_of refusal ≢ number_of Refusal.InvalidTag) }
{
    let start = check_state(st, mark)?;
    if bytes < RECORD_BYTES as usize {
        return Err(Refusal::WrongRecordLength);
    }
    let most = RECORD_BYTES as usize + MAX_MESSAGE_BYTES;
    if bytes > most || bytes as u64 > MAX_AEAD_BYTES - start {
        return Err(Refusal::MessageTooLong);
    }
    if context > MAX_CONTEXT_BYTES {
        return Err(Refusal::ContextTooLong);
    }
    Ok(())
}
