//! Sealing a stream a record at a time.
mod in_place;

ghost use Rattle.std.specs.Prelude.{◌≡◌, ◌+◌, ◌-◌, ◌≤◌, ◌++◌, ◌∷◌, [], IfErr, IfOk, List, OnErr, OnOk, false, length, ℕ};
ghost use Rattle.aegis_base.specs.declared.error.TheConstants.{MAX_AEAD_BYTES};
ghost use Rattle.aegis.specs.RecordResults.{Begun, progress_after, progress_at, record_of, sealing_of, start_of};
ghost use Rattle.aegis.specs.RecordStream.{AreRecords, first_position, frame, header, limit};
ghost use Rattle.aegis.specs.declared.record.version.Version.TheVariants.{Second};

use crate::aegis256::Key;
use crate::record::error::RecordError;
use crate::record::length::{HEADER_BYTES, RECORD_BYTES};
use crate::record::position::RecordPosition;
use crate::record::record_cipher::{MAX_CONTEXT_BYTES, RecordCipher};
use crate::record::version::{MAX_MESSAGE_BYTES, Version};
use aegis_base::MAX_AEAD_BYTES;
pub use in_place::seal_record_in_place;
use std::alloc::Allocator;
use std::marker::Model;

// The version in which streams are sealed.
const WRITTEN: Version = Version::Second;

// Appends a record to `out`. After an error `out` may have a part of it.
#[tactic(auto, unfolding(crate::specs::RecordStream::frame))]
fn append_record<A: Allocator>(
    out: &mut Vec<u8, A>,
    cipher: &RecordCipher<'_>,
    position: RecordPosition,
    flag: u8,
    message: &[u8],
) -> Result<(), RecordError>
    requires context { length cipher.now.context.now ≤ MAX_CONTEXT_BYTES }
    requires within { length message.now ≤ limit position.version }
    ensures ok { OnOk result
        (out.new.items ≡ out.old.items ++ frame (sealing_of cipher.now) position flag message.now) }
    ensures err { IfErr result (λ e. e ≡ RecordError.OutOfMemory) }
    ensures kept { OnErr result ((part : List ℕ) × (out.new.items ≡ out.old.items ++ part)) }
{
    out.extend_from_slice(&position.version.head(flag, message.len()))?;
    cipher.seal(out, position, flag, message)
}

// Appends a record to `out`, which is as it was after an error.
fn seal_record<A: Allocator>(
    out: &mut Vec<u8, A>,
    cipher: &RecordCipher<'_>,
    position: RecordPosition,
    flag: u8,
    message: &[u8],
) -> Result<(), RecordError>
    requires context { length cipher.now.context.now ≤ MAX_CONTEXT_BYTES }
    requires within { length message.now ≤ limit position.version }
    ensures ok { OnOk result
        (out.new.items ≡ out.old.items ++ frame (sealing_of cipher.now) position flag message.now) }
    ensures err { IfErr result (λ e. e ≡ RecordError.OutOfMemory) }
    ensures kept { OnErr result (out.new.items ≡ out.old.items) }
{
    let start = out.len();
    let appended = append_record(out, cipher, position, flag, message);
    if appended.is_err() {
        out.truncate(start);
    }
    appended
}

/// Seals a stream a record at a time, in version 2.
///
/// Each call appends one record to a vector, which the caller may write out and clear before the next call, or seals a
/// message in the buffer that holds it; so a stream of any length is sealed in the memory of one record. The header and
/// the records, one after the other, are the stream that [`seal_records`](crate::record::seal_records) makes of the
/// list of messages.
///
/// Only the sealer that began a stream appends to it. No call begins a sealer at a given number, since a number that is
/// used twice under one prefix reveals information about both messages, and may allow forgeries. To change what was
/// sealed, seal a new stream under a new prefix.
///
/// In a contract a sealer stands for a `Progress`: the key, prefix and context, and the position of the next record.
/// `Begun` relates it to the messages and bytes before that position.
#[derive(Drop)]
pub struct RecordSealer<'a> {
    cipher: RecordCipher<'a>,
    number: u64,
    before: u64,
}

impl<'a> Model for RecordSealer<'a> {
    ghost use Rattle.std.specs.Prelude.{◌+◌, ◌*◌, ◌≤◌, false, length};
    ghost use Rattle.aegis_base.specs.declared.error.TheConstants.{MAX_AEAD_BYTES};
    ghost use Rattle.aegis.specs.RecordResults.{Progress};
    ghost use Rattle.aegis.specs.declared.record.record_cipher.TheConstants.{MAX_CONTEXT_BYTES};
    ghost use Rattle.aegis.specs.declared.record.version.Version.TheVariants.{Second};

    ghost Value = { Progress };

    ghost view = { λ s. record {
      key = s.cipher.key.now;
      prefix = s.cipher.prefix.now;
      context = s.cipher.context.now;
      position = record { version = Second; number = s.number; before = s.before };
      ended = false;
    } };

    ghost invariant = { λ s. (length s.cipher.context.now ≤ MAX_CONTEXT_BYTES)
        × (4 + 37 * s.number + s.before ≤ MAX_AEAD_BYTES) };
}

impl<'a> RecordSealer<'a> {
    /// Begins a stream under a key, a prefix and a context, and appends its header, of 4 bytes, to `out`.
    ///
    /// A prefix must be used for one stream only under its key. The context has at most [`MAX_CONTEXT_BYTES`].
    /// [`RecordError::OutOfMemory`] is the only error; `out` is then as it was.
    #[tactic(auto, using(crate::proofs::Stepwise::begun_none))]
    pub fn new<A: Allocator>(
        key: &'a Key,
        prefix: &'a [u8; 24],
        context: &'a [u8],
        out: &mut Vec<u8, A>,
    ) -> Result<Self, RecordError>
        requires { length context.now ≤ MAX_CONTEXT_BYTES }
        ensures appended { OnOk result (out.new.items ≡ out.old.items ++ header Second) }
        ensures begun { IfOk result
            (λ sealer. Begun sealer [] (header Second)) }
        ensures progress { IfOk result (λ sealer. sealer
            ≡ progress_at key.now prefix.now context.now (first_position Second)) }
        ensures taken { IfOk result (λ sealer. start_of sealer ≡ HEADER_BYTES) }
        ensures err { IfErr result (λ e. e ≡ RecordError.OutOfMemory) }
        ensures unchanged { OnErr result (out.new.items ≡ out.old.items) }
    {
        out.extend_from_slice(WRITTEN.header())?;
        Ok(RecordSealer {
            cipher: RecordCipher {
                key,
                prefix,
                context,
            },
            number: 0,
            before: 0,
        })
    }

    /// Returns how many more bytes the stream may have. A record takes [`RECORD_BYTES`] and the length of its message.
    pub fn remaining(&self) -> u64
        ensures { start_of self.now + result ≡ MAX_AEAD_BYTES }
    {
        MAX_AEAD_BYTES - (HEADER_BYTES + RECORD_BYTES * self.number + self.before)
    }

    /// Returns the position of the next record, at which
    /// [`RecordOpener::begin_at`](crate::record::RecordOpener::begin_at) opens it without the records before it.
    pub fn position(&self) -> RecordPosition
        ensures { result ≡ self.now.position }
    {
        RecordPosition {
            version: WRITTEN,
            number: self.number,
            before: self.before,
        }
    }

    /// Appends the record of the next message, which is not the last one, to `out`.
    ///
    /// A message has at most [`MAX_MESSAGE_BYTES`], and the whole stream at most [`MAX_AEAD_BYTES`], of which
    /// [`RecordSealer::remaining`] are left. [`RecordError::OutOfMemory`] is the only error; the sealer and `out` are
    /// then as they were. The next call uses the same record number, so `out`'s spare memory must not be given to
    /// anyone if the next message differs from that of the failed call.
    #[tactic(auto, using(crate::proofs::Stepwise::appended_long, crate::proofs::Stepwise::begun_more))]
    pub fn seal_next<A: Allocator>(
        &mut self,
        message: &[u8],
        out: &mut Vec<u8, A>,
    ) -> Result<(), RecordError>
        requires within { length message.now ≤ MAX_MESSAGE_BYTES }
        requires fits { start_of self.old + (RECORD_BYTES + length message.now) ≤ MAX_AEAD_BYTES }
        ensures appended { OnOk result
            (out.new.items ≡ out.old.items ++ record_of self.old 0 message.now) }
        ensures begun { OnOk result
            ((ms : List (List ℕ)) (bytes : List ℕ) → Begun self.old ms bytes
            → Begun self.new (ms ++ message.now ∷ []) (bytes ++ record_of self.old 0 message.now)) }
        ensures progress { OnOk result (self.new ≡ progress_after self.old false message.now) }
        ensures taken { OnOk result
            (start_of self.new ≡ start_of self.old + (RECORD_BYTES + length message.now)) }
        ensures length { OnOk result
            (length out.new.items ≡ length out.old.items + (RECORD_BYTES + length message.now)) }
        ensures err { IfErr result (λ e. e ≡ RecordError.OutOfMemory) }
        ensures unchanged { OnErr result (self.new ≡ self.old) }
        ensures kept { OnErr result (out.new.items ≡ out.old.items) }
    {
        seal_record(out, &self.cipher, self.position(), 0, message)?;
        self.number += 1;
        self.before += message.len() as u64;
        Ok(())
    }

    /// Appends the record of the last message to `out`, and ends the stream: the sealer is taken by value, so no record
    /// can follow.
    ///
    /// The limits are those of [`RecordSealer::seal_next`], so what was sealed can be opened.
    /// [`RecordError::OutOfMemory`] is the only error; `out` is then as it was, and the stream has no end.
    #[tactic(auto, using(crate::proofs::Stepwise::appended_long))]
    pub fn seal_last<A: Allocator>(
        self,
        message: &[u8],
        out: &mut Vec<u8, A>,
    ) -> Result<(), RecordError>
        requires within { length message.now ≤ MAX_MESSAGE_BYTES }
        requires fits { start_of self + (RECORD_BYTES + length message.now) ≤ MAX_AEAD_BYTES }
        ensures appended { OnOk result
            (out.new.items ≡ out.old.items ++ record_of self.entry 1 message.now) }
        ensures whole { OnOk result
            ((ms : List (List ℕ)) (bytes : List ℕ) → Begun self.entry ms bytes
            → AreRecords Second self.entry.key self.entry.prefix self.entry.context
            (ms ++ message.now ∷ []) (bytes ++ record_of self.entry 1 message.now)) }
        ensures length { OnOk result
            (length out.new.items ≡ length out.old.items + (RECORD_BYTES + length message.now)) }
        ensures err { IfErr result (λ e. e ≡ RecordError.OutOfMemory) }
        ensures kept { OnErr result (out.new.items ≡ out.old.items) }
    {
        seal_record(out, &self.cipher, self.position(), 1, message)?;
        Ok(())
    }
}
