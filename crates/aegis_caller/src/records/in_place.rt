//! Records that are read or sealed one at a time in the buffer that holds them.

ghost use Rattle.std.specs.Prelude.{◌≡◌, ◌+◌, ◌≤◌, ◌++◌, ◌∷◌, [], IfErr, IfOk, List, OnErr, OnOk, false, length, ℕ};
ghost use Rattle.std.specs.Bool.{OnFalse, OnTrue};
ghost use Rattle.aegis.specs.RecordResults.{AreRecordsOfSomeVersion, Begun, IsRecordFault, message_in, record_of, start_of};

use aegis::MAX_AEAD_BYTES;
use aegis::record::{
    MAX_MESSAGE_BYTES, RECORD_BYTES, RECORD_HEAD_BYTES, RecordError, RecordOpener, RecordSealer,
};
use std::alloc::{AllocError, Allocator};

/// An entry of a log: a part of the buffer that held its record.
#[derive(Clone, Copy)]
pub struct Entry<'b> {
    pub message: &'b [u8],
    /// Whether the log ends with it.
    pub is_last: bool,
}

/// Reads the next entry of a log in its place, from a buffer that begins with its record. No memory is taken: the only
/// errors are faults of the buffer.
pub fn next_entry<'b>(
    opener: &mut RecordOpener<'_>,
    buffer: &'b mut [u8],
) -> Result<Entry<'b>, RecordError>
    requires { start_of opener.old + length buffer.old ≤ MAX_AEAD_BYTES }
    ensures begun { IfOk result (λ entry. OnFalse entry.is_last
        ((ms : List (List ℕ)) (before : List ℕ)
        → Begun opener.old ms before
        → Begun opener.new (ms ++ entry.message.now ∷ [])
        (before ++ record_of opener.old 0 entry.message.now))) }
    ensures whole { IfOk result (λ entry. OnTrue entry.is_last
        ((ms : List (List ℕ)) (before : List ℕ)
        → Begun opener.old ms before
        → AreRecordsOfSomeVersion opener.old.key opener.old.prefix opener.old.context
        (ms ++ entry.message.now ∷ [])
        (before ++ record_of opener.old 1 entry.message.now))) }
    ensures refused { IfErr result (λ e. opener.old.ended ≡ false
        → IsRecordFault opener.old buffer.old e) }
    ensures unchanged { OnErr result (opener.new ≡ opener.old) }
{
    let opened = opener.open_next_in_place(buffer)?;
    Ok(Entry {
        message: &buffer[RECORD_HEAD_BYTES..][..opened.message_len],
        is_last: opened.is_last,
    })
}

/// How many bytes a reading has.
pub const READING_BYTES: usize = 16;

/// How many bytes the packet of a reading has.
pub const PACKET_BYTES: usize = READING_BYTES + RECORD_BYTES as usize;

/// Seals a reading in a packet of its own. No memory is taken, and there is no error.
pub fn seal_reading(
    sealer: &mut RecordSealer<'_>,
    reading: &[u8; READING_BYTES],
) -> [u8; PACKET_BYTES]
    requires { start_of sealer.old + PACKET_BYTES ≤ MAX_AEAD_BYTES }
    ensures sealed { result ≡ record_of sealer.old 0 reading.now }
    ensures begun { (ms : List (List ℕ)) (before : List ℕ)
        → Begun sealer.old ms before
        → Begun sealer.new (ms ++ reading.now ∷ []) (before ++ result) }
{
    let mut packet = [0; PACKET_BYTES];
    packet[RECORD_HEAD_BYTES..RECORD_HEAD_BYTES + READING_BYTES].copy_from_slice(reading);
    sealer.seal_next_in_place(&mut packet);
    packet
}

/// Seals an entry in the buffer that holds it, and appends its record to a log. Room is made first: after an error
/// nothing was sealed.
pub fn append_entry<A: Allocator>(
    sealer: &mut RecordSealer<'_>,
    buffer: &mut [u8],
    log: &mut Vec<u8, A>,
) -> Result<(), AllocError>
    requires room { RECORD_BYTES ≤ length buffer.old }
    requires within { length buffer.old ≤ RECORD_BYTES + MAX_MESSAGE_BYTES }
    requires fits { start_of sealer.old + length buffer.old ≤ MAX_AEAD_BYTES }
    ensures appended { OnOk result ((ms : List (List ℕ))
        → Begun sealer.old ms log.old.items
        → Begun sealer.new (ms ++ message_in buffer.old ∷ []) log.new.items) }
    ensures kept { OnErr result (sealer.new ≡ sealer.old) }
{
    log.reserve(buffer.len())?;
    sealer.seal_next_in_place(buffer);
    log.extend_from_slice(buffer)
}
