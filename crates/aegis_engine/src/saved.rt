//! Saved contexts: the values of a message or a MAC as bytes and numbers, which a caller may keep between two calls.
//!
//! The type of a saved context does not name its variant: each call names the state that the bytes are read as.
//! Contracts state the key, nonce, associated data and message so far that a context stands for before and after a
//! call. If its bytes stand for nothing, the calls are still safe, provided that its two numbers are within the limit.
//! The mark distinguishes a context from bytes that were never begun or have ended.

ghost use Rattle.std.specs.Prelude.{◌≡◌, IfSome, ℕ, ◌+◌, ◌/◌, ◌%◌, ◌<◌, ◌≤◌, ◌↔◌, ◌++◌, List, [], length, slice_index, true};
ghost use Rattle.aegis_base.specs.Lane.{IsTagLength};
ghost use Rattle.aegis_base.specs.Mac.{mac};
ghost use Rattle.aegis_base.specs.Message.{Opens, block_count, ciphertext, tag as tag_of};
ghost use Rattle.aegis_base.specs.Context.{Stands, held_by};
ghost use Rattle.aegis_base.specs.Variant.{key_length};
ghost use Rattle.aegis_engine.specs.Pass.{absorbed, given, ciphertext_in};
ghost use Rattle.aegis_engine.specs.SavedContexts.{HasChecked, HasSealed, HasTaken, IsSaved};

use crate::context::{Context, absorb_bytes, pass_bytes};
use crate::pass::{Pass, RateBlock, ZEROS};
use crate::pieces::COPY_BYTES;
use crate::tag::same_bytes;
use aegis_base::{LaneState, MAX_AEAD_BYTES, SavedLanes, SavedRows, counted_within};

/// The mark of a context from its beginning to its end. Other bytes are unlikely to have it by chance.
pub const BEGUN: u64 = 0x6165_6769_732d_7275;

/// A context between two calls: the mark, the rows of the lanes, the open block, and the numbers of bytes of associated
/// data and of the message that were taken in.
#[repr(C)]
#[derive(Clone, Copy)]
pub struct SavedContext {
    pub mark: u64,
    pub rows: SavedRows,
    pub block: RateBlock,
    pub ad_bytes: u64,
    pub message_bytes: u64,
}

/// A context after its end: zeros.
pub const ENDED: SavedContext = SavedContext {
    mark: 0,
    rows: SavedRows {
        first_pair: [0; 128],
        second_pair: [0; 128],
        third_pair: [0; 128],
        fourth_pair: [0; 128],
    },
    block: ZEROS,
    ad_bytes: 0,
    message_bytes: 0,
};

// The number of updates since the start, after this many bytes of associated data and of a message.
fn updates_along<S: LaneState>(ad_bytes: u64, message_bytes: u64) -> u64
    requires associated_data_within { ad_bytes ≤ MAX_AEAD_BYTES }
    requires message_within { message_bytes ≤ MAX_AEAD_BYTES }
    ensures value { result ≡ block_count S.VARIANT ad_bytes + message_bytes / S.RATE }
    ensures few { result ≤ ad_bytes + message_bytes }
{
    let rate = S::RATE as u64;
    (ad_bytes + (rate - 1)) / rate + message_bytes / rate
}

impl SavedContext {
    // The lanes, with their updates counted.
    #[inline(always)]
    fn lanes<S: SavedLanes>(&self) -> S
        requires associated_data_within { self.now.ad_bytes ≤ MAX_AEAD_BYTES }
        requires message_within { self.now.message_bytes ≤ MAX_AEAD_BYTES }
        ensures stands { (key nonce ad m : List ℕ) → IsSaved S.VARIANT self.now key nonce ad m
            → Stands S.VARIANT (held_by S.VARIANT (S.lane result) (S.updates result)
            self.now.block self.now.ad_bytes self.now.message_bytes) key nonce ad m }
        ensures few { S.updates result ≤ self.now.ad_bytes + self.now.message_bytes }
    {
        let count = updates_along::<S>(self.ad_bytes, self.message_bytes);
        S::restore(&self.rows, count)
    }

    // Saves the lanes of a context whose other values are here.
    #[inline(always)]
    fn keep<S: SavedLanes>(&mut self, state: S)
        ensures stands { (key nonce ad m : List ℕ)
            → Stands S.VARIANT (held_by S.VARIANT (S.lane state) (S.updates state)
            self.old.block self.old.ad_bytes self.old.message_bytes) key nonce ad m
            → self.old.mark ≡ BEGUN → IsSaved S.VARIANT self.new key nonce ad m }
        ensures ad_bytes { self.new.ad_bytes ≡ self.old.ad_bytes }
        ensures message_bytes { self.new.message_bytes ≡ self.old.message_bytes }
    {
        state.save(&mut self.rows);
    }

    // The context, as a value of its own.
    fn context<S: SavedLanes>(&self) -> Context<S>
        requires associated_data_within { self.now.ad_bytes ≤ MAX_AEAD_BYTES }
        requires message_within { self.now.message_bytes ≤ MAX_AEAD_BYTES }
        ensures stands { (key nonce ad m : List ℕ) → IsSaved S.VARIANT self.now key nonce ad m
            → Stands S.VARIANT result key nonce ad m }
        ensures ad_bytes { result.ad_bytes ≡ self.now.ad_bytes }
        ensures message_bytes { result.message_bytes ≡ self.now.message_bytes }
    {
        Context {
            state: self.lanes::<S>(),
            block: self.block,
            ad_bytes: self.ad_bytes,
            message_bytes: self.message_bytes,
        }
    }

    /// Begins a message with the associated data `ad`, or a MAC, for which `ad` must be empty. The key and the nonce
    /// have 16 or 32 bytes each, by the variant's family.
    pub fn begin<S: SavedLanes>(&mut self, key: &[u8], nonce: &[u8], ad: &[u8])
        requires key_length { length key.now ≡ key_length S.VARIANT.family }
        requires nonce_length { length nonce.now ≡ key_length S.VARIANT.family }
        requires associated_data_within { length ad.now ≤ MAX_AEAD_BYTES }
        ensures stands { IsSaved S.VARIANT self.new key.now nonce.now ad.now [] }
        ensures empty { ciphertext S.VARIANT key.now nonce.now ad.now [] ≡ [] }
    {
        let context = Context::<S>::begin(key, nonce, ad);
        self.mark = BEGUN;
        self.block = context.block;
        self.ad_bytes = context.ad_bytes;
        self.message_bytes = context.message_bytes;
        self.keep(context.state);
    }

    // Processes the next bytes of a message, as `Context::pass` does.
    #[inline(always)]
    fn pass<S: SavedLanes>(&mut self, pass: Pass, source: Option<&[u8]>, mc: &mut [u8])
        requires lengths { IfSome source (λ s. length s.now ≡ length mc.old) }
        requires associated_data_within { self.old.ad_bytes ≤ MAX_AEAD_BYTES }
        requires message_within { self.old.message_bytes + length mc.old ≤ MAX_AEAD_BYTES }
        ensures taken { HasTaken S.VARIANT self.old self.new
            (absorbed pass (given source.entry mc.old) mc.new) }
        ensures written { HasSealed S.VARIANT self.old
            (absorbed pass (given source.entry mc.old) mc.new)
            (ciphertext_in pass (given source.entry mc.old) mc.new) }
        ensures associated_data { self.new.ad_bytes ≡ self.old.ad_bytes }
        ensures counted { self.new.message_bytes ≡ self.old.message_bytes + length mc.old }
    {
        let state = self.lanes::<S>();
        let state = pass_bytes(state, &mut self.block, self.message_bytes, pass, source, mc);
        self.message_bytes = counted_within(self.message_bytes, mc.len());
        self.keep(state);
    }

    /// Encrypts the next bytes of the message, which are those of `source`, or if there is none, those of `mc`.
    /// Together with those before, there must be at most [`MAX_AEAD_BYTES`].
    #[inline(always)]
    pub fn encrypt<S: SavedLanes>(&mut self, source: Option<&[u8]>, mc: &mut [u8])
        requires lengths { IfSome source (λ s. length s.now ≡ length mc.old) }
        requires associated_data_within { self.old.ad_bytes ≤ MAX_AEAD_BYTES }
        requires message_within { self.old.message_bytes + length mc.old ≤ MAX_AEAD_BYTES }
        ensures taken { HasTaken S.VARIANT self.old self.new (given source.entry mc.old) }
        ensures written { HasSealed S.VARIANT self.old (given source.entry mc.old) mc.new }
    {
        self.pass::<S>(Pass::Seal, source, mc);
    }

    /// Decrypts the next bytes of the ciphertext, which are those of `source`, or if there is none, those of `mc`,
    /// before the tag is known. The limit is that of `encrypt`.
    #[inline(always)]
    pub fn decrypt_unverified<S: SavedLanes>(&mut self, source: Option<&[u8]>, mc: &mut [u8])
        requires lengths { IfSome source (λ s. length s.now ≡ length mc.old) }
        requires associated_data_within { self.old.ad_bytes ≤ MAX_AEAD_BYTES }
        requires message_within { self.old.message_bytes + length mc.old ≤ MAX_AEAD_BYTES }
        ensures taken { HasTaken S.VARIANT self.old self.new mc.new }
        ensures written { HasSealed S.VARIANT self.old mc.new (given source.entry mc.old) }
        ensures associated_data { self.new.ad_bytes ≡ self.old.ad_bytes }
        ensures counted { self.new.message_bytes ≡ self.old.message_bytes + length mc.old }
    {
        self.pass::<S>(Pass::Open, source, mc);
    }

    // Takes in a piece of the ciphertext, which is decrypted into a buffer of its own.
    fn check_piece<S: SavedLanes>(&mut self, piece: &[u8])
        requires short { length piece.now ≤ COPY_BYTES }
        requires associated_data_within { self.old.ad_bytes ≤ MAX_AEAD_BYTES }
        requires message_within { self.old.message_bytes + length piece.now ≤ MAX_AEAD_BYTES }
        ensures checked { HasChecked S.VARIANT self.old self.new piece.now }
        ensures associated_data { self.new.ad_bytes ≡ self.old.ad_bytes }
        ensures counted { self.new.message_bytes ≡ self.old.message_bytes + length piece.now }
    {
        let mut copy = [0; COPY_BYTES];
        self.decrypt_unverified::<S>(Some(piece), &mut copy[..piece.len()]);
    }

    /// Takes in the next bytes of the ciphertext, without writing the message. The limit is that of
    /// `encrypt`.
    pub fn decrypt_check<S: SavedLanes>(&mut self, c: &[u8])
        requires associated_data_within { self.old.ad_bytes ≤ MAX_AEAD_BYTES }
        requires message_within { self.old.message_bytes + length c.now ≤ MAX_AEAD_BYTES }
        ensures { HasChecked S.VARIANT self.old self.new c.now }
    {
        for piece in c.chunks(COPY_BYTES) {
            self.check_piece::<S>(piece);
        }
    }

    /// Takes in the next bytes of the input of a MAC. The limit is that of `encrypt`.
    pub fn absorb<S: SavedLanes>(&mut self, input: &[u8])
        requires associated_data_within { self.old.ad_bytes ≤ MAX_AEAD_BYTES }
        requires message_within { self.old.message_bytes + length input.now ≤ MAX_AEAD_BYTES }
        ensures { HasTaken S.VARIANT self.old self.new input.now }
    {
        let state = self.lanes::<S>();
        let state = absorb_bytes(state, &mut self.block, self.message_bytes, input);
        self.message_bytes = counted_within(self.message_bytes, input.len());
        self.keep(state);
    }

    /// Returns the tag of the message. The context may continue afterwards.
    pub fn tag<S: SavedLanes, const TAG_BYTES: usize>(&self) -> [u8; TAG_BYTES]
        requires tag_bytes { IsTagLength TAG_BYTES }
        requires associated_data_within { self.now.ad_bytes ≤ MAX_AEAD_BYTES }
        requires message_within { self.now.message_bytes ≤ MAX_AEAD_BYTES }
        ensures { (key nonce ad m : List ℕ) → IsSaved S.VARIANT self.now key nonce ad m
            → result ≡ tag_of S.VARIANT TAG_BYTES key nonce ad m }
    {
        self.context::<S>().tag()
    }

    /// Returns whether `tag` is the tag of the message. All bytes are compared, whether they are equal or not.
    pub fn has_tag<S: SavedLanes, const TAG_BYTES: usize>(&self, tag: &[u8; TAG_BYTES]) -> bool
        requires tag_bytes { IsTagLength TAG_BYTES }
        requires associated_data_within { self.now.ad_bytes ≤ MAX_AEAD_BYTES }
        requires message_within { self.now.message_bytes ≤ MAX_AEAD_BYTES }
        ensures tag { (key nonce ad m : List ℕ) → IsSaved S.VARIANT self.now key nonce ad m
            → (result ≡ true) ↔ (tag.now ≡ tag_of S.VARIANT TAG_BYTES key nonce ad m) }
        ensures accepted { (key nonce ad m opened : List ℕ)
            → IsSaved S.VARIANT self.now key nonce ad m
            → Opens S.VARIANT TAG_BYTES key nonce ad
            (ciphertext S.VARIANT key nonce ad m) tag.now opened
            → result ≡ true }
    {
        self.context::<S>().has_tag(tag)
    }

    /// Returns the MAC of the input. The context may continue afterwards.
    pub fn mac<S: SavedLanes, const TAG_BYTES: usize>(&self) -> [u8; TAG_BYTES]
        requires tag_bytes { IsTagLength TAG_BYTES }
        requires no_associated_data { self.now.ad_bytes ≡ 0 }
        requires input_within { self.now.message_bytes ≤ MAX_AEAD_BYTES }
        ensures { (key nonce x : List ℕ) → IsSaved S.VARIANT self.now key nonce [] x
            → result ≡ mac S.VARIANT TAG_BYTES key nonce x }
    {
        self.context::<S>().mac()
    }

    /// Returns whether `expected` is the MAC of the input. All bytes are compared, whether they are equal or not.
    pub fn has_mac<S: SavedLanes, const TAG_BYTES: usize>(&self, expected: &[u8; TAG_BYTES]) -> bool
        requires tag_bytes { IsTagLength TAG_BYTES }
        requires no_associated_data { self.now.ad_bytes ≡ 0 }
        requires input_within { self.now.message_bytes ≤ MAX_AEAD_BYTES }
        ensures { (key nonce x : List ℕ) → IsSaved S.VARIANT self.now key nonce [] x
            → (result ≡ true) ↔ (expected.now ≡ mac S.VARIANT TAG_BYTES key nonce x) }
    {
        same_bytes(&self.mac::<S, TAG_BYTES>(), expected)
    }

    /// Ends the context, by overwriting it with zeros.
    pub fn end(&mut self)
        ensures { self.new ≡ ENDED }
    {
        *self = ENDED;
    }
}
