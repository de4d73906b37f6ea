//! Contexts: lanes that take in associated data and a message, in pieces of any lengths.
//!
//! A piece first fills the open block; then its whole rate blocks are processed, and the open block keeps the rest. A
//! call that has its whole input at once is a context of one piece. In contracts a context is a `Held`, and
//! clauses state the key, nonce, associated data and message so far that it stands for.

ghost use Rattle.std.specs.Prelude.{◌≡◌, ℕ, ◌+◌, ◌-◌, ◌*◌, ◌%◌, ◌/◌, ◌^◌, ◌<◌, ◌≤◌, ◌⊎◌, ◌++◌, ◌↔◌, IfSome, [], bit_xor, length, List, slice_index, true};
ghost use Rattle.aegis_base.specs.Chunks.{joined};
ghost use Rattle.aegis_base.specs.Lane.{IsTagLength};
ghost use Rattle.aegis_base.specs.Message.{Opens, after_all, block_count, ciphertext, keystream_byte_along, lane_before, lane_end, tag as tag_of};
ghost use Rattle.aegis_base.specs.Context.{Encrypts, IsAccepted, IsAlong, IsTagged, Stands, Takes, held_by};
ghost use Rattle.aegis_base.specs.Private.{HasFrom};
ghost use Rattle.aegis_base.specs.Variant.{key_length};
ghost use Rattle.aegis_engine.specs.Pass.{absorbed, given, ciphertext_in};

use crate::pass::{
    Pass, RateBlock, ZEROS, absorb_block, absorb_part, absorb_whole, copy_part, fill_part,
    pass_part, pass_whole,
};
use crate::tag::{lanes_tag, same_bytes};
use aegis_base::{LaneState, MAX_AEAD_BYTES};
use std::marker::Model;

/// A context: the lanes, the open block, and the numbers of bytes of associated data and of the message that were taken
/// in. Its lanes and its open block are overwritten with zeros when it is dropped; no clause states this.
pub struct Context<S: LaneState> {
    pub(crate) state: S,
    pub(crate) block: RateBlock,
    pub(crate) ad_bytes: u64,
    pub(crate) message_bytes: u64,
}

impl<S: LaneState> Model for Context<S> {
    ghost use Rattle.std.specs.Prelude.{◌+◌, ◌≤◌};
    ghost use Rattle.aegis_base.specs.declared.error.TheConstants.{MAX_AEAD_BYTES};
    ghost use Rattle.aegis_base.specs.Context.{Held, held_by};

    ghost Value = { Held };

    ghost view = { λ r. held_by S.VARIANT (S.lane r.state) (S.updates r.state) r.block
        r.ad_bytes r.message_bytes };

    ghost invariant = { λ r. (S.updates r.state ≤ r.ad_bytes + r.message_bytes)
        × (r.ad_bytes ≤ MAX_AEAD_BYTES) };
}

impl<S: LaneState> Drop for Context<S> {
    fn drop(self) {
        let Context {
            mut state,
            mut block,
            ad_bytes: _,
            message_bytes: _,
        } = self;
        state = S::zeros();
        block = ZEROS;
    }
}

// How many of the next `count` bytes go to the rate block that is open after `total` bytes: 0 if none is open.
fn filling<S: LaneState>(total: u64, count: usize) -> usize
    ensures within { result ≤ count }
    ensures one_block { total % S.RATE + result ≤ S.RATE }
    ensures fills { result < count → (total + result) % S.RATE ≡ 0 }
{
    let open = (total % S::RATE as u64) as usize;
    if open == 0 {
        0
    } else {
        count.min(S::RATE - open)
    }
}

/// The lanes after the next bytes of an input that is not encrypted, of which they have taken in `total`. The open
/// block is filled where it lies.
#[inline(always)]
pub fn absorb_bytes<S: LaneState>(state: S, block: &mut RateBlock, total: u64, bytes: &[u8]) -> S
    requires within { total + length bytes.now < 2 ^ 64 }
    requires countable { S.updates state + length bytes.now < 2 ^ 64 }
    ensures taken { (ad_bytes : ℕ) → Takes S.VARIANT
        (held_by S.VARIANT (S.lane state) (S.updates state) block.old ad_bytes total)
        (held_by S.VARIANT (S.lane result) (S.updates result) block.new ad_bytes
        (total + length bytes.now))
        bytes.now }
    ensures few { S.updates result ≤ S.updates state + length bytes.now }
{
    let first = filling::<S>(total, bytes.len());
    let whole = (bytes.len() - first) / S::RATE;
    let last = first + whole * S::RATE;
    let rest = bytes.len() - last;
    // As in `pass_bytes`. Empty associated data comes here too.
    if first + rest == 0 {
        return absorb_whole(state, bytes, 0, whole);
    }
    let mut state = state;
    absorb_part(&mut state, &mut *block, total, bytes, 0, first);
    let mut state = absorb_whole(state, bytes, first, whole);
    let end = total + last as u64;
    absorb_part(&mut state, &mut *block, end, bytes, last, rest);
    state
}

/// The lanes after the next bytes of a message, of which they have taken in `total`. Each byte is copied from `source`
/// if there is one, and xored with the keystream. The lanes take in the bytes that `pass` selects, and the open block
/// is filled where it lies.
#[inline(always)]
pub fn pass_bytes<S: LaneState>(
    state: S,
    block: &mut RateBlock,
    total: u64,
    pass: Pass,
    source: Option<&[u8]>,
    mc: &mut [u8],
) -> S
    requires within { total + length mc.old < 2 ^ 64 }
    requires lengths { IfSome source (λ s. length s.now ≡ length mc.old) }
    requires countable { S.updates state + length mc.old < 2 ^ 64 }
    ensures taken { (ad_bytes : ℕ) → Takes S.VARIANT
        (held_by S.VARIANT (S.lane state) (S.updates state) block.old ad_bytes total)
        (held_by S.VARIANT (S.lane result) (S.updates result) block.new ad_bytes
        (total + length mc.old))
        (absorbed pass (given source.entry mc.old) mc.new) }
    ensures written { (ad_bytes : ℕ) → Encrypts S.VARIANT
        (held_by S.VARIANT (S.lane state) (S.updates state) block.old ad_bytes total)
        (absorbed pass (given source.entry mc.old) mc.new)
        (ciphertext_in pass (given source.entry mc.old) mc.new) }
    ensures few { S.updates result ≤ S.updates state + length mc.old }
{
    let first = filling::<S>(total, mc.len());
    let whole = (mc.len() - first) / S::RATE;
    let last = first + whole * S::RATE;
    let rest = mc.len() - last;
    // Most pieces are whole rate blocks alone. They need no call before or after the loop.
    if first + rest == 0 {
        return pass_whole(state, pass, source, mc, 0, whole);
    }
    let mut state = state;
    fill_part(mc, source, 0, first);
    pass_part(&mut state, &mut *block, total, pass, mc, 0, first);
    let mut state = pass_whole(state, pass, source, mc, first, whole);
    let end = total + last as u64;
    fill_part(mc, source, last, rest);
    pass_part(&mut state, &mut *block, end, pass, mc, last, rest);
    state
}

// The lanes after their initialization and the pieces of the associated data, and how many bytes these have. Out of
// line, it is there once for all calls; a context that begins in its caller has a count that is known to be 0 there.
#[inline(never)]
fn begun<S: LaneState>(key: &[u8], nonce: &[u8], ad: &[&[u8]]) -> (S, u64)
    requires key_length { length key.now ≡ key_length S.VARIANT.family }
    requires nonce_length { length nonce.now ≡ key_length S.VARIANT.family }
    requires associated_data_within { length (joined ad.now) ≤ MAX_AEAD_BYTES }
    ensures lanes { (j : ℕ) → j < S.VARIANT.lanes
        → S.lane result.0 j ≡ lane_before S.VARIANT key.now nonce.now (joined ad.now) j }
    ensures updates { S.updates result.0 ≡ block_count S.VARIANT (length (joined ad.now)) }
    ensures ad_bytes { result.1 ≡ length (joined ad.now) }
{
    let mut context = Context {
        state: S::new(key, nonce),
        block: ZEROS,
        ad_bytes: 0,
        message_bytes: 0,
    };
    for piece in ad {
        let total = context.message_bytes() + piece.len() as u64;
        context.absorb(piece, total);
    }
    (context.padded(), context.message_bytes)
}

impl<S: LaneState> Context<S> {
    /// Begins a context by the initialization of the lanes and the associated data.
    #[inline(always)]
    pub fn begin(key: &[u8], nonce: &[u8], ad: &[u8]) -> Self
        requires key_length { length key.now ≡ key_length S.VARIANT.family }
        requires nonce_length { length nonce.now ≡ key_length S.VARIANT.family }
        requires associated_data_within { length ad.now ≤ MAX_AEAD_BYTES }
        ensures stands { Stands S.VARIANT result key.now nonce.now ad.now [] }
        ensures empty { ciphertext S.VARIANT key.now nonce.now ad.now [] ≡ [] }
        ensures ad_bytes { result.ad_bytes ≡ length ad.now }
        ensures message_bytes { result.message_bytes ≡ 0 }
    {
        Context::begin_with(key, nonce, &[ad])
    }

    /// Begins a context whose associated data comes in pieces.
    #[inline(always)]
    pub fn begin_with(key: &[u8], nonce: &[u8], ad: &[&[u8]]) -> Self
        requires key_length { length key.now ≡ key_length S.VARIANT.family }
        requires nonce_length { length nonce.now ≡ key_length S.VARIANT.family }
        requires associated_data_within { length (joined ad.now) ≤ MAX_AEAD_BYTES }
        ensures stands { Stands S.VARIANT result key.now nonce.now (joined ad.now) [] }
        ensures empty { ciphertext S.VARIANT key.now nonce.now (joined ad.now) [] ≡ [] }
        ensures ad_bytes { result.ad_bytes ≡ length (joined ad.now) }
        ensures message_bytes { result.message_bytes ≡ 0 }
    {
        let (state, ad_bytes) = begun(key, nonce, ad);
        Context {
            state,
            block: ZEROS,
            ad_bytes,
            message_bytes: 0,
        }
    }

    /// Returns a copy.
    pub fn copied(&self) -> Self
        ensures { result ≡ self.now }
    {
        Context {
            state: self.state,
            block: self.block,
            ad_bytes: self.ad_bytes,
            message_bytes: self.message_bytes,
        }
    }

    /// Returns the number of bytes of the message so far.
    pub fn message_bytes(&self) -> u64
        ensures { result ≡ self.now.message_bytes }
    {
        self.message_bytes
    }

    /// Returns how many more bytes the message may have, of [`MAX_AEAD_BYTES`].
    pub fn remaining(&self) -> u64
        requires { self.now.message_bytes ≤ MAX_AEAD_BYTES }
        ensures { result ≡ MAX_AEAD_BYTES - self.now.message_bytes }
    {
        MAX_AEAD_BYTES - self.message_bytes
    }

    /// Takes in the next bytes of an input that is not encrypted. With them, it has `total` bytes.
    #[inline(always)]
    pub fn absorb(&mut self, bytes: &[u8], total: u64)
        requires counted { total ≡ self.old.message_bytes + length bytes.now }
        requires within { total < 2 ^ 63 }
        ensures taken { Takes S.VARIANT self.old self.new bytes.now }
        ensures length { self.new.message_bytes ≡ self.old.message_bytes + length bytes.now }
    {
        // A copy, since a context that lends its block to a call would lie in memory in the loop over rate blocks too.
        let mut block = self.block;
        self.state = absorb_bytes(self.state, &mut block, self.message_bytes, bytes);
        self.block = block;
        self.message_bytes = total;
    }

    /// Processes the next bytes of a message, which are those of `source`, or if there is none, those of `mc`: each
    /// byte is xored with the keystream, and the lanes take in the bytes that `pass` selects. With them, the message
    /// has `total` bytes: the caller has counted them, since a message has a limit, and a keystream has none.
    #[inline(always)]
    pub fn pass(&mut self, pass: Pass, source: Option<&[u8]>, mc: &mut [u8], total: u64)
        requires counted { total ≡ self.old.message_bytes + length mc.old }
        requires within { total < 2 ^ 63 }
        requires lengths { IfSome source (λ s. length s.now ≡ length mc.old) }
        ensures taken { Takes S.VARIANT self.old self.new
            (absorbed pass (given source.entry mc.old) mc.new) }
        ensures written { Encrypts S.VARIANT self.old
            (absorbed pass (given source.entry mc.old) mc.new)
            (ciphertext_in pass (given source.entry mc.old) mc.new) }
        ensures ad_bytes { self.new.ad_bytes ≡ self.old.ad_bytes }
        ensures length { self.new.message_bytes ≡ self.old.message_bytes + length mc.old }
    {
        // As in `absorb`.
        let mut block = self.block;
        self.state = pass_bytes(self.state, &mut block, self.message_bytes, pass, source, mc);
        self.block = block;
        self.message_bytes = total;
    }

    /// Encrypts a whole message in place, and returns the context after it, which has the tag.
    // This and the next three are out of line, so that both tag lengths share them. The loop of one function for both
    // buffers would have up to 8 per cent more instructions.
    #[inline(never)]
    pub fn sealed_in_place(key: &[u8], nonce: &[u8], ad: &[&[u8]], mc: &mut [u8]) -> Self
        requires key_length { length key.now ≡ key_length S.VARIANT.family }
        requires nonce_length { length nonce.now ≡ key_length S.VARIANT.family }
        requires associated_data_within { length (joined ad.now) ≤ MAX_AEAD_BYTES }
        requires message_within { length mc.old ≤ MAX_AEAD_BYTES }
        ensures stands { Stands S.VARIANT result key.now nonce.now (joined ad.now) mc.old }
        ensures written { mc.new
            ≡ ciphertext S.VARIANT key.now nonce.now (joined ad.now) mc.old }
        ensures message_bytes { result.message_bytes ≡ length mc.old }
    {
        let mut context = Context::begin_with(key, nonce, ad);
        let total = mc.len() as u64;
        context.pass(Pass::Seal, None, mc, total);
        context
    }

    /// Encrypts a whole message from `source` into `mc`, which is as long, and returns the context after it, which has
    /// the tag.
    #[inline(never)]
    pub fn sealed_into(key: &[u8], nonce: &[u8], ad: &[&[u8]], source: &[u8], mc: &mut [u8]) -> Self
        requires key_length { length key.now ≡ key_length S.VARIANT.family }
        requires nonce_length { length nonce.now ≡ key_length S.VARIANT.family }
        requires associated_data_within { length (joined ad.now) ≤ MAX_AEAD_BYTES }
        requires message_within { length mc.old ≤ MAX_AEAD_BYTES }
        requires lengths { length source.now ≡ length mc.old }
        ensures stands { Stands S.VARIANT result key.now nonce.now (joined ad.now) source.now }
        ensures written { mc.new
            ≡ ciphertext S.VARIANT key.now nonce.now (joined ad.now) source.now }
        ensures message_bytes { result.message_bytes ≡ length mc.old }
    {
        let mut context = Context::begin_with(key, nonce, ad);
        let total = mc.len() as u64;
        context.pass(Pass::Seal, Some(source), mc, total);
        context
    }

    /// Decrypts a whole ciphertext in place, before its tag is verified: `has_tag` of the context that is returned
    /// decides.
    #[inline(never)]
    pub fn opened_in_place(key: &[u8], nonce: &[u8], ad: &[&[u8]], mc: &mut [u8]) -> Self
        requires key_length { length key.now ≡ key_length S.VARIANT.family }
        requires nonce_length { length nonce.now ≡ key_length S.VARIANT.family }
        requires associated_data_within { length (joined ad.now) ≤ MAX_AEAD_BYTES }
        requires message_within { length mc.old ≤ MAX_AEAD_BYTES }
        ensures stands { Stands S.VARIANT result key.now nonce.now (joined ad.now) mc.new }
        ensures written { mc.old
            ≡ ciphertext S.VARIANT key.now nonce.now (joined ad.now) mc.new }
        ensures message_bytes { result.message_bytes ≡ length mc.old }
    {
        let mut context = Context::begin_with(key, nonce, ad);
        let total = mc.len() as u64;
        context.pass(Pass::Open, None, mc, total);
        context
    }

    /// Decrypts a whole ciphertext from `source` into `mc`, which is as long, before its tag is verified: `has_tag` of
    /// the context that is returned decides.
    #[inline(never)]
    pub fn opened_into(key: &[u8], nonce: &[u8], ad: &[&[u8]], source: &[u8], mc: &mut [u8]) -> Self
        requires key_length { length key.now ≡ key_length S.VARIANT.family }
        requires nonce_length { length nonce.now ≡ key_length S.VARIANT.family }
        requires associated_data_within { length (joined ad.now) ≤ MAX_AEAD_BYTES }
        requires message_within { length mc.old ≤ MAX_AEAD_BYTES }
        requires lengths { length source.now ≡ length mc.old }
        ensures stands { Stands S.VARIANT result key.now nonce.now (joined ad.now) mc.new }
        ensures written { source.now
            ≡ ciphertext S.VARIANT key.now nonce.now (joined ad.now) mc.new }
        ensures message_bytes { result.message_bytes ≡ length mc.old }
    {
        let mut context = Context::begin_with(key, nonce, ad);
        let total = mc.len() as u64;
        context.pass(Pass::Open, Some(source), mc, total);
        context
    }

    /// Returns the lanes after all bytes: if a rate block is open, it is taken in, padded with zeros.
    #[inline(always)]
    pub fn padded(&self) -> S
        requires { self.now.message_bytes ≤ MAX_AEAD_BYTES }
        ensures lanes { (key nonce ad m : List ℕ) → Stands S.VARIANT self.now key nonce ad m
            → (j : ℕ) → j < S.VARIANT.lanes
            → S.lane result j
            ≡ after_all S.VARIANT (lane_before S.VARIANT key nonce ad j) j m }
        ensures updates { (key nonce ad m : List ℕ) → Stands S.VARIANT self.now key nonce ad m
            → S.updates result
            ≡ block_count S.VARIANT (length ad) + block_count S.VARIANT (length m) }
        ensures few { S.updates result ≤ self.now.ad_bytes + self.now.message_bytes + 1 }
    {
        let open = (self.message_bytes % S::RATE as u64) as usize;
        let mut state = self.state;
        if open > 0 {
            let mut last = ZEROS;
            copy_part(&mut last, 0, &self.block, 0, open);
            absorb_block(&mut state, &last);
        }
        state
    }

    // The lanes after the end of the message (AEGIS, Finalize).
    #[inline(always)]
    fn end(&self) -> S
        requires { self.now.message_bytes ≤ MAX_AEAD_BYTES }
        ensures lanes { (key nonce ad m : List ℕ) → Stands S.VARIANT self.now key nonce ad m
            → (j : ℕ) → j < S.VARIANT.lanes
            → S.lane result j ≡ lane_end S.VARIANT key nonce ad m j }
        ensures updates { (key nonce ad m : List ℕ) → Stands S.VARIANT self.now key nonce ad m
            → S.updates result
            ≡ block_count S.VARIANT (length ad) + block_count S.VARIANT (length m) + 7 }
    {
        self.padded()
            .finalize(8 * self.ad_bytes, 8 * self.message_bytes)
    }

    /// Returns the tag of the message.
    #[inline(always)]
    pub fn tag<const TAG_BYTES: usize>(&self) -> [u8; TAG_BYTES]
        requires tag_bytes { IsTagLength TAG_BYTES }
        requires message_within { self.now.message_bytes ≤ MAX_AEAD_BYTES }
        ensures { (key nonce ad m : List ℕ) → Stands S.VARIANT self.now key nonce ad m
            → result ≡ tag_of S.VARIANT TAG_BYTES key nonce ad m }
    {
        lanes_tag(self.end())
    }

    /// Returns whether `tag` is the tag of the message.
    #[inline(always)]
    pub fn has_tag<const TAG_BYTES: usize>(&self, tag: &[u8; TAG_BYTES]) -> bool
        requires tag_bytes { IsTagLength TAG_BYTES }
        requires message_within { self.now.message_bytes ≤ MAX_AEAD_BYTES }
        ensures tag { (m : List ℕ) → IsTagged S.VARIANT TAG_BYTES self.now m tag.now
            (result ≡ true) }
        ensures accepted { (m : List ℕ) → IsAccepted S.VARIANT TAG_BYTES self.now m tag.now
            (result ≡ true) }
        ensures only { (key nonce ad m opened : List ℕ) → Stands S.VARIANT self.now key nonce ad m
            → Opens S.VARIANT TAG_BYTES key nonce ad
            (ciphertext S.VARIANT key nonce ad m) tag.now opened
            → m ≡ opened }
    {
        same_bytes(&self.tag::<TAG_BYTES>(), tag)
    }
}
