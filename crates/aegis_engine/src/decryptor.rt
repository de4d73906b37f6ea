//! Decryptors: opening a ciphertext in chunks.

ghost use Rattle.std.specs.Prelude.{◌≡◌, ℕ, ◌+◌, ◌<◌, ◌≤◌, ◌⊎◌, ◌↔◌, ◌++◌, ◌||◌, IfErr, IfOk, IsOk, IsTrue, List, MatchResult, OnErr, OnOk, Some, [], codes, drop, length, nat_eq, take, true, false};
ghost use Rattle.aegis_base.specs.Chunks.{zeroed};
ghost use Rattle.std.specs.Borrow.{Array, LendsIfOk, sem, u8};
ghost use Rattle.aegis_base.specs.declared.error.TheConstants.{MAX_AEAD_BYTES};
ghost use Rattle.aegis_base.specs.Message.{Opens, ciphertext, tag as tag_of};
ghost use Rattle.aegis_base.specs.Variant.{module_name};
ghost use Rattle.aegis_base.specs.Context.{Continues, Decrypts, IsAccepted, IsTagged, Stands};
ghost use Rattle.aegis_engine.specs.Chunk.{AnswersChunk, AppendsChunk};

use crate::context::Context;
use crate::destination::{Checked, accepted_len, accepted_message, erase, erase_unless};
use aegis_base::{Error, LaneState, MAX_AEAD_BYTES};
use std::fmt;

/// Opens a ciphertext in chunks of any lengths, into a destination that it borrows until the end of the message.
///
/// `Cipher::decryptor` creates one. The bytes that are written to the destination must not be used before `finalize` or
/// `finalize_len` has accepted the tag. After a wrong tag, or if the decryptor is dropped, they are zeros. A decryptor
/// that is forgotten (`mem::forget`) erases nothing.
///
/// Contracts state the key, nonce, associated data and message so far that a decryptor stands for: the message is the
/// start of the destination.
pub struct Decryptor<'a, S: LaneState, const TAG_BYTES: usize> {
    pub(crate) dst: &'a mut [u8],
    pub(crate) context: Context<S>,
    ghost tag_bytes: { IsTrue (nat_eq TAG_BYTES 16 || nat_eq TAG_BYTES 32) },
    ghost within: { context.message_bytes ≤ length dst.now },
    ghost message_within: { context.message_bytes ≤ MAX_AEAD_BYTES },
}

impl<S: LaneState, const TAG_BYTES: usize> Drop for Decryptor<'_, S, TAG_BYTES> {
    ghost use Rattle.aegis_engine.specs.Beginning.{filled};

    fn drop(self)
        ensures { self.exit.0.now ≡ zeroed (filled self.entry) self.entry.dst.now }
    {
        let Decryptor { dst, context } = self;
        erase(dst, context.message_bytes() as usize);
    }
}

impl<S: LaneState, const TAG_BYTES: usize> fmt::Debug for Decryptor<'_, S, TAG_BYTES> {
    ghost debug_output = { λ _. Some (module_name S.VARIANT.family S.VARIANT.lanes ++ codes "::Decryptor { .. }") };

    fn fmt<W: fmt::Write>(&self, f: &mut fmt::Formatter<W>) -> fmt::Result {
        f.write_str(S::module_name())?;
        f.write_str("::Decryptor { .. }")
    }
}

impl<'a, S: LaneState, const TAG_BYTES: usize> Decryptor<'a, S, TAG_BYTES> {
    ghost use Rattle.aegis_engine.specs.Beginning.{decrypted, filled, held};

    /// Opens the next chunk of the ciphertext, and writes it to the destination after the previous chunks.
    ///
    /// Returns [`Error::OutputBufferTooSmall`] if the chunk is longer than the rest of the destination, and otherwise
    /// [`Error::MessageTooLong`] if the message would have more than [`MAX_AEAD_BYTES`]. After an error nothing has
    /// changed, and other chunks may follow.
    pub fn update(&mut self, chunk: &[u8]) -> Result<(), Error>
        ensures same_place { (self.new.dst.ghost_name ≡ self.old.dst.ghost_name)
            × (self.new.dst.ref_ptr ≡ self.old.dst.ref_ptr) }
        ensures answer { AnswersChunk (filled self.old + length chunk.now)
            (length self.old.dst.now) result }
        ensures stands { Continues S.VARIANT
            (held self.old) (decrypted self.old) (held self.new) (decrypted self.new) }
        ensures ciphertext { OnOk result
            (Decrypts S.VARIANT (held self.old) (decrypted self.old) chunk.now
            (decrypted self.new)) }
        ensures filled { OnOk result (filled self.new ≡ filled self.old + length chunk.now) }
        ensures appends { AppendsChunk self.old.dst.now (filled self.old)
            self.new.dst.now (filled self.new) }
        ensures unchanged { OnErr result ((self.new.dst.now ≡ self.old.dst.now)
            × (held self.new ≡ held self.old)) }
    {
        self.context.open_chunk(self.dst, chunk)
    }

    // Returns whether the tag is right, and overwrites the message with zeros if it is not.
    fn check_tag(self, tag: &[u8; TAG_BYTES]) -> Checked<'a>
        ensures same_place { (result.dst.ghost_name ≡ self.entry.dst.ghost_name)
            × (result.dst.ref_ptr ≡ self.entry.dst.ref_ptr) }
        ensures filled { result.filled ≡ filled self.entry }
        ensures within { result.filled ≤ length result.dst.now }
        ensures kept { result.accepted ≡ true → result.dst.now ≡ self.entry.dst.now }
        ensures erased { result.accepted ≡ false
            → result.dst.now ≡ zeroed result.filled result.dst.now }
        ensures rest { drop result.filled result.dst.now
            ≡ drop (filled self.entry) self.entry.dst.now }
        ensures tag { IsTagged S.VARIANT TAG_BYTES
            (held self.entry) (decrypted self.entry) tag.now (result.accepted ≡ true) }
        ensures accepted { IsAccepted S.VARIANT TAG_BYTES
            (held self.entry) (decrypted self.entry) tag.now (result.accepted ≡ true) }
    {
        let Decryptor { dst, context } = self;
        let accepted = context.has_tag(tag);
        let filled = context.message_bytes() as usize;
        erase_unless(dst, filled, accepted);
        Checked {
            dst,
            filled,
            accepted,
        }
    }

    /// Returns the message, which is the start of the destination itself, if the tag is right. Otherwise returns
    /// [`Error::InvalidTag`], and the bytes of the message are zeros. The bytes after it are unchanged.
    pub fn finalize(self, tag: &[u8; TAG_BYTES]) -> Result<&'a mut [u8], Error>
        ensures* writes_back { sem 𝓛 (LendsIfOk (Array u8 0) (Array u8 0) self.entry.dst result
            (λ w. w ++ drop (filled self.entry) self.entry.dst.now)
            (zeroed (filled self.entry) self.entry.dst.now)) }
        ensures cases { MatchResult result
            (λ message. message.now ≡ decrypted self.entry)
            (λ e. e ≡ Error.InvalidTag) }
        ensures place { IfOk result (λ message. message.ref_ptr ≡ self.entry.dst.ref_ptr) }
        ensures tag { IsTagged S.VARIANT TAG_BYTES
            (held self.entry) (decrypted self.entry) tag.now (IsOk result) }
        ensures accepted { IsAccepted S.VARIANT TAG_BYTES
            (held self.entry) (decrypted self.entry) tag.now (IsOk result) }
    {
        accepted_message(self.check_tag(tag))
    }

    /// Returns the length of the message in bytes, if the tag is right; the message is at the start of the destination.
    /// Otherwise returns [`Error::InvalidTag`], and the bytes of the message are zeros. The bytes after it are
    /// unchanged.
    pub fn finalize_len(self, tag: &[u8; TAG_BYTES]) -> Result<usize, Error>
        ensures filled { OnOk result (result ≡ Ok (filled self.entry)) }
        ensures message { OnOk result (self.exit.0.now ≡ self.entry.dst.now) }
        ensures erased { OnErr result (self.exit.0.now
            ≡ zeroed (filled self.entry) self.entry.dst.now) }
        ensures error { IfErr result (λ e. e ≡ Error.InvalidTag) }
        ensures tag { IsTagged S.VARIANT TAG_BYTES
            (held self.entry) (decrypted self.entry) tag.now (IsOk result) }
        ensures accepted { IsAccepted S.VARIANT TAG_BYTES
            (held self.entry) (decrypted self.entry) tag.now (IsOk result) }
        ensures only { (key nonce ad m : List ℕ)
            → ciphertext S.VARIANT key nonce ad m
            ≡ ciphertext S.VARIANT key nonce ad (decrypted self.entry)
            → m ≡ decrypted self.entry }
    {
        let Decryptor { dst, context } = self;
        accepted_len(dst, context.message_bytes() as usize, context.has_tag(tag))
    }
}
