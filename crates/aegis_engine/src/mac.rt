//! MACs: the tag of an input under a key. Nothing is encrypted.

ghost use Rattle.std.specs.Prelude.{◌≡◌, ⊤, ℕ, ◌+◌, ◌-◌, ◌^◌, ◌<◌, ◌≤◌, ◌++◌, IfErr, IsOk, List, OnOk, Some, [], codes, length, replicate};
ghost use Rattle.aegis_base.specs.Chunks.{joined};
ghost use Rattle.aegis_base.specs.Variant.{cipher_name, key_length};
ghost use Rattle.aegis_base.specs.Lane.{IsTagLength, init};
ghost use Rattle.aegis_base.specs.Mac.{mac, mac_input, mac_tag};
ghost use Rattle.aegis_base.specs.Message.{after_all};
ghost use Rattle.aegis_base.specs.Context.{Stands, Takes};

use crate::context::Context;
use crate::pass::ZEROS;
use crate::tag::{folded_tag, same_bytes};
use aegis_base::{Error, LaneState, MAX_AEAD_BYTES, counted_within};
use std::alloc::AllocError;
use std::fmt;
use std::marker::Model;

/// A MAC of `TAG_BYTES` bytes, 16 or 32, of an input that is taken in by pieces of any lengths.
///
/// The input must have at most [`MAX_AEAD_BYTES`]. Contracts state the key, nonce and input so far that a MAC stands
/// for. No call allocates memory.
#[derive(Drop)]
pub struct Mac<S: LaneState, const KEY_BYTES: usize, const TAG_BYTES: usize> {
    context: Context<S>,
}

impl<S: LaneState, const KEY_BYTES: usize, const TAG_BYTES: usize> Model
    for Mac<S, KEY_BYTES, TAG_BYTES> {
    ghost use Rattle.std.specs.Prelude.{◌≤◌};
    ghost use Rattle.aegis_base.specs.Lane.{IsTagLength};
    ghost use Rattle.aegis_base.specs.declared.error.TheConstants.{MAX_AEAD_BYTES};
    ghost use Rattle.aegis_base.specs.Context.{Held};

    ghost Value = { Held };

    ghost view = { λ m. m.context };

    ghost invariant = { λ m. IsTagLength TAG_BYTES
        × (m.context.message_bytes ≤ MAX_AEAD_BYTES) };
}

impl<S: LaneState, const KEY_BYTES: usize, const TAG_BYTES: usize> Clone
    for Mac<S, KEY_BYTES, TAG_BYTES> {
    ghost is_clone = { λ x y. y ≡ x };

    ghost is_infallible = { λ _. ⊤ };

    fn clone(&self) -> Result<Self, AllocError> {
        Ok(Mac {
            context: self.context.copied(),
        })
    }
}

impl<S: LaneState, const KEY_BYTES: usize, const TAG_BYTES: usize> fmt::Debug
    for Mac<S, KEY_BYTES, TAG_BYTES> {
    ghost debug_output = { λ _. Some (cipher_name S.VARIANT.family S.VARIANT.lanes ++ codes "Mac { .. }") };

    fn fmt<W: fmt::Write>(&self, f: &mut fmt::Formatter<W>) -> fmt::Result {
        f.write_str(S::cipher_name())?;
        f.write_str("Mac { .. }")
    }
}

impl<S: LaneState> Context<S> {
    // The lanes after the input. An empty input is taken in as a rate block of zeros.
    #[inline(always)]
    fn input_lanes(&self) -> S
        requires { self.now.message_bytes ≤ MAX_AEAD_BYTES }
        ensures lanes { (key nonce x : List ℕ) → Stands S.VARIANT self.now key nonce [] x
            → (j : ℕ) → j < S.VARIANT.lanes
            → S.lane result j
            ≡ after_all S.VARIANT (init S.VARIANT key nonce j) j (mac_input S.VARIANT x) }
        ensures few { S.updates result ≤ self.now.ad_bytes + self.now.message_bytes + 1 }
    {
        if self.message_bytes == 0 {
            let mut after = self.state;
            after.absorb(&ZEROS, 0);
            return after;
        }
        self.padded()
    }

    /// Returns the MAC of the input of a context without associated data.
    #[inline(always)]
    pub fn mac<const TAG_BYTES: usize>(&self) -> [u8; TAG_BYTES]
        requires tag_bytes { IsTagLength TAG_BYTES }
        requires within { self.now.message_bytes ≤ MAX_AEAD_BYTES }
        ensures { (key nonce x : List ℕ) → Stands S.VARIANT self.now key nonce [] x
            → result ≡ mac S.VARIANT TAG_BYTES key nonce x }
    {
        let end = self
            .input_lanes()
            .finalize(8 * self.message_bytes, 8 * TAG_BYTES as u64);
        folded_tag(end)
    }
}

/// The MAC of an input that is there at once. The key and the nonce have the variant's length, and the input has at
/// most [`MAX_AEAD_BYTES`].
pub fn mac_at_once<S: LaneState, const TAG_BYTES: usize>(
    key: &[u8],
    nonce: &[u8],
    input: &[u8],
) -> [u8; TAG_BYTES]
    requires key_length { length key.now ≡ key_length S.VARIANT.family }
    requires nonce_length { length nonce.now ≡ key_length S.VARIANT.family }
    requires tag_bytes { IsTagLength TAG_BYTES }
    requires within { length input.now ≤ MAX_AEAD_BYTES }
    ensures { result ≡ mac S.VARIANT TAG_BYTES key.now nonce.now input.now }
{
    let mut context = Context::<S>::begin(key, nonce, &[]);
    context.absorb(input, input.len() as u64);
    context.mac()
}

impl<S: LaneState, const KEY_BYTES: usize, const TAG_BYTES: usize> Mac<S, KEY_BYTES, TAG_BYTES> {
    /// Creates a MAC under a key, with a nonce of zeros. `TAG_BYTES` must be 16 or 32.
    pub fn new(key: &[u8; KEY_BYTES]) -> Self
        requires key_bytes { KEY_BYTES ≡ key_length S.VARIANT.family }
        requires tag_bytes { IsTagLength TAG_BYTES }
        ensures stands { Stands S.VARIANT result key.now (replicate KEY_BYTES 0) [] [] }
        ensures length { result.message_bytes ≡ 0 }
    {
        Mac::new_with_nonce(key, &[0; KEY_BYTES])
    }

    /// Creates a MAC under a key and a nonce. `TAG_BYTES` must be 16 or 32.
    pub fn new_with_nonce(key: &[u8; KEY_BYTES], nonce: &[u8; KEY_BYTES]) -> Self
        requires key_bytes { KEY_BYTES ≡ key_length S.VARIANT.family }
        requires tag_bytes { IsTagLength TAG_BYTES }
        ensures stands { Stands S.VARIANT result key.now nonce.now [] [] }
        ensures length { result.message_bytes ≡ 0 }
    {
        Mac {
            context: Context::begin(key, nonce, &[]),
        }
    }

    /// Takes in the next bytes of the input, of which there must be at most `remaining`.
    pub fn update(&mut self, input: &[u8])
        requires { self.old.message_bytes + length input.now ≤ MAX_AEAD_BYTES }
        ensures taken { Takes S.VARIANT self.old self.new input.now }
        ensures length { self.new.message_bytes ≡ self.old.message_bytes + length input.now }
    {
        let total = counted_within(self.context.message_bytes(), input.len());
        self.context.absorb(input, total);
    }

    // Takes in all chunks, in order.
    fn update_all(&mut self, chunks: &[&[u8]])
        requires { self.old.message_bytes + length (joined chunks.now) ≤ MAX_AEAD_BYTES }
        ensures { Takes S.VARIANT self.old self.new (joined chunks.now) }
    {
        for chunk in chunks {
            self.update(chunk);
        }
    }

    /// Returns how many more bytes the input may have, of [`MAX_AEAD_BYTES`].
    pub fn remaining(&self) -> u64
        ensures { result ≡ MAX_AEAD_BYTES - self.now.message_bytes }
    {
        self.context.remaining()
    }

    /// Returns the MAC of the input.
    pub fn finalize(self) -> [u8; TAG_BYTES]
        ensures { (key nonce x : List ℕ) → Stands S.VARIANT self key nonce [] x
            → result ≡ mac S.VARIANT TAG_BYTES key nonce x }
    {
        self.context.mac()
    }

    /// Returns the MAC of the input followed by all chunks, which must have at most `remaining` bytes (see
    /// `chunks_len`).
    pub fn finalize_chunks(self, chunks: &[&[u8]]) -> [u8; TAG_BYTES]
        requires { self.message_bytes + length (joined chunks.now) ≤ MAX_AEAD_BYTES }
        ensures { (key nonce x : List ℕ) → Stands S.VARIANT self key nonce [] x
            → result ≡ mac S.VARIANT TAG_BYTES key nonce (x ++ joined chunks.now) }
    {
        let mut mac = self;
        mac.update_all(chunks);
        mac.finalize()
    }

    /// Returns `Ok` exactly if the MAC of the input is `expected`, and otherwise [`Error::InvalidTag`]. All bytes are
    /// compared, whether they are equal or not.
    pub fn verify(self, expected: &[u8; TAG_BYTES]) -> Result<(), Error>
        ensures verified { (key nonce x : List ℕ) → Stands S.VARIANT self key nonce [] x
            → OnOk result (expected.now ≡ mac S.VARIANT TAG_BYTES key nonce x) }
        ensures accepted { (key nonce x : List ℕ) → Stands S.VARIANT self key nonce [] x
            → expected.now ≡ mac S.VARIANT TAG_BYTES key nonce x → IsOk result }
        ensures error { IfErr result (λ e. e ≡ Error.InvalidTag) }
    {
        if same_bytes(&self.finalize(), expected) {
            Ok(())
        } else {
            Err(Error::InvalidTag)
        }
    }
}
