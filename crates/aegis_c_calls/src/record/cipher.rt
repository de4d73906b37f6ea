//! The next record of a stream that C has the state of: it is sealed and opened in place, and nothing is allocated.

ghost use Rattle.std.specs.Prelude.{◌≡◌, ◌+◌, ◌≤◌, IfSome, IsSome, List, length, ℕ};
ghost use Rattle.aegis.specs.RecordResults.{message_in, record_of, with_message};
ghost use Rattle.aegis_c_calls.specs.Calls.{progress_of};

use crate::record::state::{RecordState, position};
use aegis::record::placed::{RecordCipher, open_record_in_place, seal_record_in_place};
use aegis::record::{MAX_CONTEXT_BYTES, MAX_MESSAGE_BYTES, RECORD_BYTES};

/// Seals the next message, with this flag, where it lies: `bytes` has 5 bytes for its head, the message, and 32 bytes
/// for its tag.
pub fn seal_record(st: &RecordState, flag: u8, context: &[u8], bytes: &mut [u8])
    requires context { length context.now ≤ MAX_CONTEXT_BYTES }
    requires room { RECORD_BYTES ≤ length bytes.old }
    requires within { length bytes.old ≤ RECORD_BYTES + MAX_MESSAGE_BYTES }
    ensures { bytes.new ≡ record_of (progress_of st.now context.now) flag (message_in bytes.old) }
{
    let cipher = RecordCipher {
        key: &st.key,
        prefix: &st.prefix,
        context,
    };
    seal_record_in_place(&cipher, position(st), flag, bytes);
}

/// Opens the next record in place, and returns its flag. Returns `None` if no message is sealed to `bytes`, which must
/// then not be used.
pub fn open_record(st: &RecordState, context: &[u8], bytes: &mut [u8]) -> Option<u8>
    requires context { length context.now ≤ MAX_CONTEXT_BYTES }
    requires within { length bytes.old ≤ RECORD_BYTES + MAX_MESSAGE_BYTES }
    ensures room { IfSome result (λ flag. RECORD_BYTES ≤ length bytes.old) }
    ensures known { IfSome result (λ flag. flag ≤ 1) }
    ensures opened { IfSome result (λ flag. bytes.old
        ≡ record_of (progress_of st.now context.now) flag (message_in bytes.new)) }
    ensures one { IfSome result (λ flag. (f : ℕ) (m : List ℕ)
        → bytes.old ≡ record_of (progress_of st.now context.now) f m
        → (flag ≡ f) × (message_in bytes.new ≡ m)) }
    ensures written { IfSome result
        (λ flag. bytes.new ≡ with_message bytes.old (message_in bytes.new)) }
    ensures accepted { (f : ℕ) (m : List ℕ) → f ≤ 1
        → bytes.old ≡ record_of (progress_of st.now context.now) f m → IsSome result }
{
    let cipher = RecordCipher {
        key: &st.key,
        prefix: &st.prefix,
        context,
    };
    match open_record_in_place(&cipher, position(st), bytes) {
        Ok((flag, message_len)) => {
            if RECORD_BYTES as usize + message_len == bytes.len() {
                Some(flag)
            } else {
                None
            }
        }
        Err(_) => None,
    }
}
