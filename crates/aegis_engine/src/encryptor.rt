//! Encryptors: sealing a message in chunks.

ghost use Rattle.std.specs.Prelude.{◌≡◌, ℕ, ◌+◌, ◌-◌, ◌<◌, ◌≤◌, ◌⊎◌, ◌++◌, List, [], Some, codes, length};
ghost use Rattle.aegis_base.specs.Message.{tag};
ghost use Rattle.aegis_base.specs.Variant.{module_name};
ghost use Rattle.aegis_base.specs.Context.{Encrypts, Stands, Takes};

use crate::context::Context;
use crate::pass::Pass;
use aegis_base::{LaneState, MAX_AEAD_BYTES, counted_within};
use std::fmt;
use std::marker::Model;

/// Seals a message in chunks of any lengths: one byte of ciphertext for each byte, and a tag at the end.
///
/// `Cipher::encryptor` creates one. Contracts state the key, nonce, associated data and message so far that an
/// encryptor stands for.
#[derive(Drop)]
pub struct Encryptor<S: LaneState, const TAG_BYTES: usize> {
    pub(crate) context: Context<S>,
}

impl<S: LaneState, const TAG_BYTES: usize> Model for Encryptor<S, TAG_BYTES> {
    ghost use Rattle.std.specs.Prelude.{◌≤◌};
    ghost use Rattle.aegis_base.specs.Lane.{IsTagLength};
    ghost use Rattle.aegis_base.specs.declared.error.TheConstants.{MAX_AEAD_BYTES};
    ghost use Rattle.aegis_base.specs.Context.{Held};

    ghost Value = { Held };

    ghost view = { λ e. e.context };

    ghost invariant = { λ e. IsTagLength TAG_BYTES
        × (e.context.message_bytes ≤ MAX_AEAD_BYTES) };
}

impl<S: LaneState, const TAG_BYTES: usize> fmt::Debug for Encryptor<S, TAG_BYTES> {
    ghost debug_output = { λ _. Some (module_name S.VARIANT.family S.VARIANT.lanes ++ codes "::Encryptor { .. }") };

    fn fmt<W: fmt::Write>(&self, f: &mut fmt::Formatter<W>) -> fmt::Result {
        f.write_str(S::module_name())?;
        f.write_str("::Encryptor { .. }")
    }
}

impl<S: LaneState, const TAG_BYTES: usize> Encryptor<S, TAG_BYTES> {
    /// Seals the next chunk in place: `buffer` is the chunk before the call and its ciphertext after it. The chunk must
    /// have at most `remaining` bytes.
    // Inlined into the loop of the caller: out of line, sealing by AEGIS-256 was 8 per cent slower.
    #[inline(always)]
    pub fn update_in_place(&mut self, buffer: &mut [u8])
        requires { self.old.message_bytes + length buffer.old ≤ MAX_AEAD_BYTES }
        ensures taken { Takes S.VARIANT self.old self.new buffer.old }
        ensures written { Encrypts S.VARIANT self.old buffer.old buffer.new }
        ensures length { self.new.message_bytes ≡ self.old.message_bytes + length buffer.old }
    {
        let total = counted_within(self.context.message_bytes(), buffer.len());
        self.context.pass(Pass::Seal, None, buffer, total);
    }

    /// Seals the next chunk into `out`, which must be as long as the chunk. The chunk must have at most `remaining`
    /// bytes.
    pub fn update(&mut self, plaintext: &[u8], out: &mut [u8])
        requires lengths { length out.old ≡ length plaintext.now }
        requires within { self.old.message_bytes + length plaintext.now ≤ MAX_AEAD_BYTES }
        ensures taken { Takes S.VARIANT self.old self.new plaintext.now }
        ensures written { Encrypts S.VARIANT self.old plaintext.now out.new }
        ensures length { self.new.message_bytes ≡ self.old.message_bytes + length plaintext.now }
    {
        let total = counted_within(self.context.message_bytes(), plaintext.len());
        self.context.pass(Pass::Seal, Some(plaintext), out, total);
    }

    /// Returns how many more bytes the message may have, of [`MAX_AEAD_BYTES`].
    pub fn remaining(&self) -> u64
        ensures { result ≡ MAX_AEAD_BYTES - self.now.message_bytes }
    {
        self.context.remaining()
    }

    /// Returns the tag of the message.
    pub fn finalize(self) -> [u8; TAG_BYTES]
        ensures { (key nonce ad m : List ℕ) → Stands S.VARIANT self key nonce ad m
            → result ≡ tag S.VARIANT TAG_BYTES key nonce ad m }
    {
        self.context.tag()
    }
}
