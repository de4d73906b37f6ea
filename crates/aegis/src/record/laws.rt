//! Laws of record streams: functions that do nothing, and whose contracts are facts about the definitions that the
//! other contracts cite.

ghost use Rattle.std.specs.Prelude.{◌≡◌, ◌+◌, ◌*◌, ◌<◌, ◌≤◌, ◌++◌, List, length, ℕ};
ghost use Rattle.aegis_base.specs.Message.{erased_byte};
ghost use Rattle.aegis_base.specs.Variant.{long_tag_bytes};
ghost use Rattle.aegis.specs.RecordStream.{AreRecords, IsFault, IsOneFault, IsOneRecordStream, header, limit, max_context_bytes, record_overhead, records_length, sealed};
ghost use Rattle.aegis.specs.RecordResults.{AreRecordsOfSomeVersion, Begun, Progress, start_of};
ghost use Rattle.aegis.specs.declared.record.error.RecordError.TheVariants.{Damaged, Trailing};
ghost use Rattle.aegis.specs.declared.record.version.Version.{Version};

use crate::record::length::{HEADER_BYTES, RECORD_BYTES, RECORD_HEAD_BYTES};
use crate::record::record_cipher::MAX_CONTEXT_BYTES;
use crate::record::version::{MAX_MESSAGE_BYTES, Version};
use aegis_engine::ERASED;

/// The limits are those of the definitions, and so are the lengths of a header, and of a record without its message:
/// of its head and of its tag.
pub fn record_limits()
    ensures context { MAX_CONTEXT_BYTES ≡ max_context_bytes }
    ensures message { MAX_MESSAGE_BYTES ≡ limit Version.Second }
    ensures header { HEADER_BYTES ≡ length (header Version.Second) }
    ensures record { RECORD_BYTES ≡ record_overhead }
    ensures head { RECORD_HEAD_BYTES + long_tag_bytes ≡ record_overhead }
{
    let (_context, _message) = (MAX_CONTEXT_BYTES, MAX_MESSAGE_BYTES);
    let (_header, _record, _head) = (HEADER_BYTES, RECORD_BYTES, RECORD_HEAD_BYTES);
}

/// What overwrites a message that is not authentic is the byte of the definitions.
pub fn erased_message()
    ensures { ERASED ≡ erased_byte }
{
    let _erased = ERASED;
}

/// Under one key, prefix and context two lists of messages, or two versions, never have the same stream, and no stream
/// is a proper prefix of another.
#[tactic(auto, using(crate::proofs::Stepwise::sealed_one_stream))]
pub fn one_record_stream()
    ensures { (key prefix context : List ℕ) → IsOneRecordStream (sealed key prefix context) }
{}

/// Under one key, prefix and context, bytes have at most one fault, and a stream has none.
pub fn one_fault()
    ensures { (key prefix context : List ℕ) → IsOneFault (sealed key prefix context) }
{}

/// The number that [`Damaged`](crate::record::RecordError::Damaged) has is bounded by the length of the bytes: they are
/// no fewer than a header, and 37 bytes for this record and for each one before it.
#[tactic(auto, using(crate::proofs::Lengths::damaged_laws))]
pub fn damaged_within()
    ensures { (key prefix context bytes : List ℕ) (k : ℕ)
        → IsFault key prefix context bytes (Damaged k)
        → 4 + record_overhead * (k + 1) ≤ length bytes }
{}

/// A stream has 4 bytes, and for each message 37 and its length.
#[tactic(auto, using(crate::proofs::Lengths::stream_length))]
pub fn record_stream_lengths()
    ensures { (v : Version) (key prefix context : List ℕ) (ms : List (List ℕ))
        (bytes : List ℕ)
        → AreRecords v key prefix context ms bytes → length bytes ≡ records_length ms }
{}

/// The bytes before a record are as many as `start_of` gives: 4, 37 for each record before it, and the lengths of their
/// messages.
#[tactic(auto, using(crate::proofs::Lengths::begun_laws))]
pub fn begun_lengths()
    ensures { (p : Progress) (ms : List (List ℕ)) (bytes : List ℕ) → Begun p ms bytes
        → length bytes ≡ start_of p }
{}

/// The messages before the last record are a proper prefix of the list of any stream that begins with the same bytes,
/// so no stream ends there.
pub fn begun_is_a_beginning()
    ensures { (p : Progress) (ms : List (List ℕ)) (bytes : List ℕ) → Begun p ms bytes
        → (ns : List (List ℕ)) (more : List ℕ)
        → AreRecordsOfSomeVersion p.key p.prefix p.context ns (bytes ++ more)
        → (rest : List (List ℕ)) × (ns ≡ ms ++ rest) × (0 < length rest) }
{}

/// Bytes that are a stream and more have the fault [`Trailing`](crate::record::RecordError::Trailing).
pub fn bytes_after_a_stream()
    ensures { (key prefix context : List ℕ) (ms : List (List ℕ)) (bytes rest : List ℕ)
        → AreRecordsOfSomeVersion key prefix context ms bytes
        → 0 < length rest → IsFault key prefix context (bytes ++ rest) Trailing }
{}
