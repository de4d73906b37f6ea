//! Opening a record in the buffer that holds it.

ghost use Rattle.std.specs.Prelude.{◌≡◌, ◌≢◌, ◌+◌, ◌≤◌, Err, IfErr, IfOk, IsTrue, length};
ghost use Rattle.aegis_base.specs.declared.error.TheConstants.{MAX_AEAD_BYTES};
ghost use Rattle.aegis.specs.RecordResults.{AcceptsNext, IsRecord, OpensInPlaceTo, OpensNext, RefusesInPlace, WritesMessage, message_at, message_of, rest_at, rest_of, sealing_of, start_of, with_erased, with_message};
ghost use Rattle.aegis.specs.RecordStream.{IsFaultAt};

use crate::record::error::RecordError;
use crate::record::frame::{Frame, TAG_BYTES};
use crate::record::length::RECORD_HEAD_BYTES;
use crate::record::position::RecordPosition;
use crate::record::record_cipher::{MAX_CONTEXT_BYTES, RecordCipher};
use crate::record::record_opener::RecordOpener;
use crate::record::version::Version;
use aegis_base::MAX_AEAD_BYTES;

/// A record that was opened in the buffer that holds it.
///
/// The message starts at byte [`RECORD_HEAD_BYTES`] of the buffer, and the next record at byte
/// [`RECORD_BYTES`](crate::record::RECORD_BYTES)` + message_len`.
#[derive(Clone, Copy, Debug, PartialEq, Eq)]
pub struct OpenedInPlace {
    /// How many bytes the message has.
    pub message_len: usize,
    /// Whether it is the stream's last record.
    pub is_last: bool,
}

/// Opens the record at a position, which the bytes begin with, where it lies. Returns its flag, and how many bytes its
/// message has.
///
/// The error is the fault of the record. If it is [`RecordError::Damaged`], every byte of the ciphertext is
/// [`ERASED`](crate::ERASED), and after any other error the bytes are as they were.
pub fn open_record_in_place(
    cipher: &RecordCipher<'_>,
    position: RecordPosition,
    bytes: &mut [u8],
) -> Result<(u8, usize), RecordError>
    requires { length cipher.now.context.now ≤ MAX_CONTEXT_BYTES }
    ensures opened { IfOk result (λ found. IsRecord (sealing_of cipher.now) position
        found.0 (message_at found.1 bytes.new) (rest_at found.1 bytes.new) bytes.old) }
    ensures message_len { IfOk result
        (λ found. length (message_at found.1 bytes.new) ≡ found.1) }
    ensures written { IfOk result
        (λ found. bytes.new ≡ with_message bytes.old (message_at found.1 bytes.new)) }
    ensures refused { IfErr result
        (λ e. IsFaultAt (sealing_of cipher.now) position bytes.old e) }
    ensures erased { IfErr result
        (λ e. e ≡ RecordError.Damaged position.number → bytes.new ≡ with_erased bytes.old) }
    ensures kept { IfErr result
        (λ e. e ≢ RecordError.Damaged position.number → bytes.new ≡ bytes.old) }
{
    let frame = Frame::read(position.version, bytes)?;
    let flag = frame.flag;
    let sealed_len = frame.sealed.len();
    let sealed = &mut bytes[RECORD_HEAD_BYTES..RECORD_HEAD_BYTES + sealed_len];
    match cipher.open_in_place(position, flag, sealed) {
        Ok(()) => Ok((flag, sealed_len - TAG_BYTES)),
        Err(error) => Err(error),
    }
}

impl RecordOpener<'_> {
    /// Opens the next record, which `bytes` begin with, in place: its message is written over its ciphertext. `bytes`
    /// have at least that record, or all that is left of the stream.
    ///
    /// This is [`RecordOpener::open_next`] with no vector: it allocates nothing, and never returns
    /// [`RecordError::OutOfMemory`]. The error is the first fault of the stream, and leaves the opener as it was. If it
    /// is [`RecordError::Damaged`], every byte of the ciphertext is [`ERASED`](crate::ERASED) and the others are as
    /// they were; after any other error `bytes` are as they were. After the last record the error is always
    /// [`RecordError::Trailing`].
    pub fn open_next_in_place(&mut self, bytes: &mut [u8]) -> Result<OpenedInPlace, RecordError>
        requires { start_of self.old + length bytes.old ≤ MAX_AEAD_BYTES }
        ensures opened { IfOk result (λ opened. OpensNext self.old self.new bytes.old
            opened.is_last (message_of opened bytes.new) (rest_of opened bytes.new)) }
        ensures written { IfOk result (λ opened. WritesMessage bytes.old bytes.new opened) }
        ensures accepted { AcceptsNext self.old bytes.old
            (λ is_last m rest. OpensInPlaceTo is_last m rest bytes.new result) }
        ensures refused { IfErr result
            (λ e. RefusesInPlace self.old self.new bytes.old bytes.new e) }
        ensures after_the_last { IsTrue self.old.ended → result ≡ Err RecordError.Trailing }
    {
        if self.ended {
            return Err(RecordError::Trailing);
        }
        let (flag, message_len) = open_record_in_place(&self.cipher, self.position, bytes)?;
        self.position.number += 1;
        self.position.before += message_len as u64;
        self.ended = flag == 1;
        Ok(OpenedInPlace {
            message_len,
            is_last: self.ended,
        })
    }
}
