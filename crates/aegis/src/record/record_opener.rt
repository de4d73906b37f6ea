//! Opening a stream a record at a time.
mod in_place;

ghost use Rattle.std.specs.Prelude.{◌≡◌, ◌≢◌, ◌+◌, ◌-◌, ◌*◌, ◌<◌, ◌≤◌, ◌⊎◌, ◌++◌, [], Err, IfErr, IfOk, IsTrue, List, false, length, true, ℕ};
ghost use Rattle.aegis_base.specs.declared.error.TheConstants.{MAX_AEAD_BYTES};
ghost use Rattle.aegis.specs.RecordResults.{AcceptsNext, Begun, OpensNext, OpensRecordTo, RefusesNext, progress_at, record_of, start_of};
ghost use Rattle.aegis.specs.RecordStream.{IsFault, first_position, parts, start_at};

use crate::aegis256::Key;
use crate::record::error::RecordError;
use crate::record::frame::TAG_BYTES;
use crate::record::length::{HEADER_BYTES, RECORD_BYTES};
use crate::record::open::{open_record, version_of};
use crate::record::position::RecordPosition;
use crate::record::record_cipher::{MAX_CONTEXT_BYTES, RecordCipher};
use crate::record::version::MAX_MESSAGE_BYTES;
use aegis_base::MAX_AEAD_BYTES;
pub use in_place::{OpenedInPlace, open_record_in_place};
use std::alloc::Allocator;
use std::marker::Model;

/// A record that was opened.
#[derive(Drop)]
pub struct Opened<'b, A: Allocator> {
    pub message: Vec<u8, A>,
    /// Whether it is the stream's last record.
    pub is_last: bool,
    /// The bytes after the record.
    pub rest: &'b [u8],
}

/// Opens a stream, of the version that its header names, a record at a time: each message is returned before the bytes
/// of the next record are needed, so a stream of any length is opened in the memory of one record.
///
/// The messages that are returned before the last record are a proper prefix of the list of any stream that begins with
/// the same bytes. A stream that was cut off is [`RecordError::Truncated`] only at the cut, so a caller that needs all
/// of the messages must wait for the last one.
///
/// In a contract an opener stands for a `Progress`: the key, prefix and context, the position of the next record, and
/// whether the last record was opened. `Begun` relates it to the messages and bytes before that position.
#[derive(Drop)]
pub struct RecordOpener<'a> {
    cipher: RecordCipher<'a>,
    position: RecordPosition,
    ended: bool,
}

impl<'a> Model for RecordOpener<'a> {
    ghost use Rattle.std.specs.Prelude.{◌+◌, ◌*◌, ◌≤◌, length};
    ghost use Rattle.aegis_base.specs.declared.error.TheConstants.{MAX_AEAD_BYTES};
    ghost use Rattle.aegis.specs.RecordResults.{Progress};
    ghost use Rattle.aegis.specs.RecordStream.{start_at};
    ghost use Rattle.aegis.specs.declared.record.record_cipher.TheConstants.{MAX_CONTEXT_BYTES};

    ghost Value = { Progress };

    ghost view = { λ s. record {
      key = s.cipher.key.now;
      prefix = s.cipher.prefix.now;
      context = s.cipher.context.now;
      position = s.position;
      ended = s.ended;
    } };

    ghost invariant = { λ s. (length s.cipher.context.now ≤ MAX_CONTEXT_BYTES)
        × (start_at s.position ≤ MAX_AEAD_BYTES) };
}

impl<'a> RecordOpener<'a> {
    /// Begins to open a stream. `header` is its first 4 bytes, or all of its bytes if it has fewer.
    ///
    /// The context has at most [`MAX_CONTEXT_BYTES`]. The only error is [`RecordError::Header`], if no version has this
    /// header.
    #[tactic(auto, using(std::proofs::lemmas::Grind::common_steps, crate::proofs::Stepwise::begin_laws))]
    pub fn new(
        key: &'a Key,
        prefix: &'a [u8; 24],
        context: &'a [u8],
        header: &[u8],
    ) -> Result<Self, RecordError>
        requires context_within { length context.now ≤ MAX_CONTEXT_BYTES }
        requires header_within { length header.now ≤ 4 }
        ensures begun { IfOk result
            (λ opener. Begun opener [] header.now) }
        ensures progress { IfOk result (λ opener. opener
            ≡ progress_at key.now prefix.now context.now (first_position opener.position.version)) }
        ensures taken { IfOk result (λ opener. start_of opener ≡ HEADER_BYTES) }
        ensures refused { IfErr result
            (λ e. (more : List ℕ) → (length header.now < 4 → more ≡ [])
            → IsFault key.now prefix.now context.now (header.now ++ more) e) }
    {
        let Some((version, _)) = version_of(header) else {
            return Err(RecordError::Header);
        };
        Ok(RecordOpener {
            cipher: RecordCipher {
                key,
                prefix,
                context,
            },
            position: RecordPosition {
                version,
                number: 0,
                before: 0,
            },
            ended: false,
        })
    }

    /// Begins to open a stream at one of its records.
    ///
    /// The opener opens the records at this position and after it, of a stream under this key, prefix and context.
    /// Nothing is known of the records before them, nor that the stream is whole, unless its last record is opened. A
    /// position is not secret. At a wrong one `Ok` still means that the message is sealed to the bytes at just this
    /// position.
    ///
    /// The context has at most [`MAX_CONTEXT_BYTES`], and the record starts at byte [`MAX_AEAD_BYTES`] of the stream at
    /// most.
    pub fn begin_at(
        key: &'a Key,
        prefix: &'a [u8; 24],
        context: &'a [u8],
        position: RecordPosition,
    ) -> Self
        requires context_within { length context.now ≤ MAX_CONTEXT_BYTES }
        requires position_within { start_at position ≤ MAX_AEAD_BYTES }
        ensures { result ≡ progress_at key.now prefix.now context.now position }
    {
        RecordOpener {
            cipher: RecordCipher {
                key,
                prefix,
                context,
            },
            position,
            ended: false,
        }
    }

    /// Returns the position of the next record, for [`RecordOpener::begin_at`].
    pub fn position(&self) -> RecordPosition
        ensures { result ≡ self.now.position }
    {
        self.position
    }

    /// Returns how many more bytes of the stream may be opened.
    pub fn remaining(&self) -> u64
        ensures { start_of self.now + result ≡ MAX_AEAD_BYTES }
    {
        MAX_AEAD_BYTES - (HEADER_BYTES + RECORD_BYTES * self.position.number + self.position.before)
    }

    /// Returns how many bytes the next record has, from its first five bytes.
    ///
    /// The bytes are not authenticated. The error is [`RecordError::Flag`] or [`RecordError::TooLong`]: the fault of
    /// any record that begins with them.
    #[tactic(auto, using(crate::proofs::Stepwise::head_laws))]
    pub fn record_len(&self, head: &[u8; 5]) -> Result<usize, RecordError>
        ensures least { IfOk result (λ n. RECORD_BYTES ≤ n) }
        ensures most { IfOk result (λ n. n ≤ RECORD_BYTES + MAX_MESSAGE_BYTES) }
        ensures len { IfOk result (λ n. (flag : ℕ) (m body rest : List ℕ)
            → length m ≤ MAX_MESSAGE_BYTES
            → head.now ++ body ≡ record_of self.now flag m ++ rest
            → length (record_of self.now flag m) ≡ n) }
        ensures whole { IfOk result (λ n. (body : List ℕ) → n ≤ length (head.now ++ body)
            → parts self.now.position.version (head.now ++ body) ≢ Err RecordError.Truncated) }
        ensures refused { IfErr result (λ e. (body : List ℕ)
            → parts self.now.position.version (head.now ++ body) ≡ Err e) }
    {
        if head[0] > 1 {
            return Err(RecordError::Flag);
        }
        let length = u32::from_le_bytes([head[1], head[2], head[3], head[4]]);
        if length > self.position.version.limit() {
            return Err(RecordError::TooLong);
        }
        Ok(head.len() + length as usize + TAG_BYTES)
    }

    /// Opens the next record, which `bytes` begin with. They have at least that record, or all that is left of the
    /// stream.
    ///
    /// The error is the first fault of the stream, or [`RecordError::OutOfMemory`], and leaves the opener as it was.
    /// After the last record it is always [`RecordError::Trailing`].
    pub fn open_next<'b, A: Allocator>(
        &mut self,
        alloc: A,
        bytes: &'b [u8],
    ) -> Result<Opened<'b, A>, RecordError>
        requires { start_of self.old + length bytes.now ≤ MAX_AEAD_BYTES }
        ensures opened { IfOk result (λ opened. OpensNext self.old self.new bytes.now
            opened.is_last opened.message.items opened.rest.now) }
        ensures accepted { AcceptsNext self.old bytes.now
            (λ is_last m rest. OpensRecordTo is_last m rest result) }
        ensures refused { IfErr result (λ e. RefusesNext self.old self.new bytes.now e) }
        ensures after_the_last { IsTrue self.old.ended → result ≡ Err RecordError.Trailing }
    {
        if self.ended {
            return Err(RecordError::Trailing);
        }
        let (frame, message) = open_record(alloc, &self.cipher, self.position, bytes)?;
        self.position.number += 1;
        self.position.before += message.len() as u64;
        self.ended = frame.flag == 1;
        Ok(Opened {
            message,
            is_last: self.ended,
            rest: frame.rest,
        })
    }
}
