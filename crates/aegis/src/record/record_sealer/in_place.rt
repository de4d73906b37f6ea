//! Sealing a record in the buffer that holds its message.

ghost use Rattle.std.specs.Prelude.{◌≡◌, ◌+◌, ◌≤◌, ◌++◌, ◌∷◌, [], List, false, length, ℕ};
ghost use Rattle.aegis_base.specs.declared.error.TheConstants.{MAX_AEAD_BYTES};
ghost use Rattle.aegis.specs.RecordResults.{Begun, progress_after, message_in, record_of, sealing_of, start_of};
ghost use Rattle.aegis.specs.RecordStream.{frame, limit};

use crate::record::frame::TAG_BYTES;
use crate::record::length::{RECORD_BYTES, RECORD_HEAD_BYTES};
use crate::record::position::RecordPosition;
use crate::record::record_cipher::{MAX_CONTEXT_BYTES, RecordCipher};
use crate::record::record_sealer::RecordSealer;
use crate::record::version::MAX_MESSAGE_BYTES;
use aegis_base::MAX_AEAD_BYTES;

/// Seals the record at a position where its message lies: `buffer` has [`RECORD_HEAD_BYTES`] for the head, the message,
/// and 32 bytes for the tag, and becomes the record.
#[tactic(auto, unfolding(crate::specs::RecordStream::frame))]
pub fn seal_record_in_place(
    cipher: &RecordCipher<'_>,
    position: RecordPosition,
    flag: u8,
    buffer: &mut [u8],
)
    requires context { length cipher.now.context.now ≤ MAX_CONTEXT_BYTES }
    requires room { RECORD_BYTES ≤ length buffer.old }
    requires within { length buffer.old ≤ RECORD_BYTES + limit position.version }
    ensures { buffer.new ≡ frame (sealing_of cipher.now) position flag (message_in buffer.old) }
{
    let (head, sealed) = buffer.split_at_mut(RECORD_HEAD_BYTES);
    head.copy_from_slice(&position.version.head(flag, sealed.len() - TAG_BYTES));
    cipher.seal_in_place(position, flag, sealed);
}

impl RecordSealer<'_> {
    /// Seals the next message, which is not the last one, where it lies: `buffer` has [`RECORD_HEAD_BYTES`] for the
    /// head, the message, and 32 bytes for the tag, and becomes its record.
    ///
    /// This is [`RecordSealer::seal_next`] with no vector, and has the same limits. It allocates nothing, and has no
    /// error.
    pub fn seal_next_in_place(&mut self, buffer: &mut [u8])
        requires room { RECORD_BYTES ≤ length buffer.old }
        requires within { length buffer.old ≤ RECORD_BYTES + MAX_MESSAGE_BYTES }
        requires fits { start_of self.old + length buffer.old ≤ MAX_AEAD_BYTES }
        ensures written { buffer.new ≡ record_of self.old 0 (message_in buffer.old) }
        ensures begun { (ms : List (List ℕ)) (bytes : List ℕ) → Begun self.old ms bytes
            → Begun self.new (ms ++ message_in buffer.old ∷ []) (bytes ++ buffer.new) }
        ensures progress { self.new ≡ progress_after self.old false (message_in buffer.old) }
        ensures taken { start_of self.new ≡ start_of self.old + length buffer.old }
    {
        seal_record_in_place(&self.cipher, self.position(), 0, buffer);
        self.number += 1;
        self.before += buffer.len() as u64 - RECORD_BYTES;
    }
}
