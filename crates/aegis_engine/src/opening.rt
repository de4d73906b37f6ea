//! Opening the chunks of a ciphertext into a destination, one after the other. The message so far is the start of the
//! destination.

ghost use Rattle.std.specs.Prelude.{◌≡◌, ℕ, ◌+◌, ◌≤◌, List, OnErr, OnOk, drop, length, take};
ghost use Rattle.aegis_base.specs.Chunks.{accepted_after};
ghost use Rattle.aegis_base.specs.Message.{ciphertext};
ghost use Rattle.aegis_base.specs.Context.{Continues, Decrypts, Stands};
ghost use Rattle.aegis_engine.specs.Chunk.{AnswersChunk, AppendsChunk};
ghost use Rattle.aegis_engine.specs.Private.{FitsRoom};

use crate::context::Context;
use crate::pass::Pass;
use aegis_base::{Error, LaneState, MAX_AEAD_BYTES, counted};

impl<S: LaneState> Context<S> {
    /// Opens the next chunk into the destination, after the message so far. Returns [`Error::OutputBufferTooSmall`] if
    /// the chunk has no room there, and otherwise [`Error::MessageTooLong`] if the message would have more than
    /// [`MAX_AEAD_BYTES`]. After an error nothing has changed.
    pub fn open_chunk(&mut self, dst: &mut [u8], chunk: &[u8]) -> Result<(), Error>
        requires { FitsRoom self.old.message_bytes (length dst.old) }
        ensures answer { AnswersChunk (self.old.message_bytes + length chunk.now)
            (length dst.old) result }
        ensures stands { Continues S.VARIANT self.old (take self.old.message_bytes dst.old)
            self.new (take self.new.message_bytes dst.new) }
        ensures ciphertext { OnOk result
            (Decrypts S.VARIANT self.old (take self.old.message_bytes dst.old) chunk.now
            (take self.new.message_bytes dst.new)) }
        ensures message_bytes { OnOk result
            (self.new.message_bytes ≡ self.old.message_bytes + length chunk.now) }
        ensures fits { FitsRoom self.new.message_bytes (length dst.new) }
        ensures appends { AppendsChunk dst.old self.old.message_bytes
            dst.new self.new.message_bytes }
        ensures unchanged { OnErr result ((self.new ≡ self.old) × (dst.new ≡ dst.old)) }
    {
        let so_far = self.message_bytes() as usize;
        if chunk.len() > dst.len() - so_far {
            return Err(Error::OutputBufferTooSmall);
        }
        let total = counted(self.message_bytes(), chunk.len() as u64)?;
        let part = &mut dst[so_far..so_far + chunk.len()];
        self.pass(Pass::Open, Some(chunk), part, total);
        Ok(())
    }

    /// Opens chunks in order. A chunk that `open_chunk` refuses is left out whole.
    pub fn open_all(&mut self, dst: &mut [u8], chunks: &[&[u8]])
        requires { FitsRoom self.old.message_bytes (length dst.old) }
        ensures stands { Continues S.VARIANT self.old (take self.old.message_bytes dst.old)
            self.new (take self.new.message_bytes dst.new) }
        ensures ciphertext { (key nonce ad : List ℕ)
            → Stands S.VARIANT self.old key nonce ad (take self.old.message_bytes dst.old)
            → ciphertext S.VARIANT key nonce ad (take self.new.message_bytes dst.new)
            ≡ accepted_after (length dst.old)
            (ciphertext S.VARIANT key nonce ad (take self.old.message_bytes dst.old)) chunks.now }
        ensures message_bytes { (kept : List ℕ) → length kept ≡ self.old.message_bytes
            → self.new.message_bytes ≡ length (accepted_after (length dst.old) kept chunks.now) }
        ensures fits { FitsRoom self.new.message_bytes (length dst.new) }
        ensures rest { (n : ℕ) → self.new.message_bytes ≤ n → drop n dst.new ≡ drop n dst.old }
    {
        for chunk in chunks {
            let _ = self.open_chunk(dst, chunk);
        }
    }
}
