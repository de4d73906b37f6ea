//! Bytes from several slices, and bytes for a vector.
//!
//! A vector grows in pieces: each piece is copied to its end, and processed there. A piece is short, so that the next
//! one can be read from memory while the rounds of this one run.

ghost use Rattle.std.specs.Prelude.{◌≡◌, ◌+◌, ◌^◌, ◌<◌, OnOk, [], length};
ghost use Rattle.aegis_base.specs.Chunks.{joined};
ghost use Rattle.aegis_base.specs.Context.{Encrypts, Takes};
ghost use Rattle.aegis_engine.specs.Pass.{absorbed, ciphertext_in};

use crate::context::Context;
use crate::pass::Pass;
use aegis_base::LaneState;
use std::alloc::{AllocError, Allocator};

/// The length of a piece, in bytes: a multiple of every rate. Of the lengths from 256 to 4096, this one is the fastest.
pub const COPY_BYTES: usize = 512;

impl<S: LaneState> Context<S> {
    /// Seals the next bytes of a message, which are chunks, into `out`. `out` is as long as all of them together.
    pub fn seal_chunks(&mut self, chunks: &[&[u8]], out: &mut [u8])
        requires within { self.old.message_bytes + length out.old < 2 ^ 63 }
        requires lengths { length out.old ≡ length (joined chunks.now) }
        ensures taken { Takes S.VARIANT self.old self.new (joined chunks.now) }
        ensures written { Encrypts S.VARIANT self.old (joined chunks.now) out.new }
        ensures length { self.new.message_bytes ≡ self.old.message_bytes + length out.old }
    {
        let mut at = 0;
        for chunk in chunks {
            let end = at + chunk.len();
            let part = &mut out[at..end];
            let total = self.message_bytes() + chunk.len() as u64;
            self.pass(Pass::Seal, Some(*chunk), part, total);
            at = end;
        }
    }

    /// Appends the next bytes of a message from `source` to an empty vector, and processes them there. A vector with
    /// enough capacity allocates nothing here.
    #[inline(always)]
    pub fn pass_appended<A: Allocator>(
        &mut self,
        pass: Pass,
        source: &[u8],
        out: &mut Vec<u8, A>,
    ) -> Result<(), AllocError>
        requires within { self.old.message_bytes + length source.now < 2 ^ 63 }
        requires empty { out.old.items ≡ [] }
        ensures taken { OnOk result
            (Takes S.VARIANT self.old self.new (absorbed pass source.now out.new.items)) }
        ensures written { OnOk result (Encrypts S.VARIANT self.old
            (absorbed pass source.now out.new.items)
            (ciphertext_in pass source.now out.new.items)) }
        ensures message_bytes { OnOk result
            (self.new.message_bytes ≡ self.old.message_bytes + length source.now) }
        ensures length { OnOk result (length out.new.items ≡ length source.now) }
    {
        for piece in source.chunks(COPY_BYTES) {
            let at = out.len();
            out.extend_from_slice(piece)?;
            let total = self.message_bytes + piece.len() as u64;
            self.pass(pass, None, &mut out[at..], total);
        }
        Ok(())
    }
}
