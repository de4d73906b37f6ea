//! States: the lanes of a variant, side by side.

ghost use Rattle.std.specs.Prelude.{◌≡◌, ℕ, ◌+◌, ◌-◌, ◌*◌, ◌^◌, ◌<◌, ◌≤◌, ◌++◌, List, length, slice_index};
ghost use Rattle.aegis_aes.specs.Private.{IsSameBefore, IsSameFrom};
ghost use Rattle.aegis_aes.specs.Block.{block_at, xor};
ghost use Rattle.aegis_aes.specs.Lanes.{IsLaneCount, context_block, xor_lanes};
ghost use Rattle.aegis_base.specs.Variant.{Variant, cipher_name, key_length, module_name, rate, width};
ghost use Rattle.aegis_base.specs.Lane.{finalize, first_blocks, high_tag, keystream_blocks, lane_tag, last_block, last_input, low_tag, block_in, short_tag, init, init_turn, init_turns, update, times};
ghost use Rattle.aegis_base.specs.Mac.{alone};
ghost use Rattle.aegis_base.specs.Message.{share_at};

use aegis_aes::{AesBlock, Row};

/// The lanes of one variant, side by side.
///
/// In contracts, `lane state j` is the list of the blocks of lane j, and each clause states what happens to each lane
/// as if it ran alone. A state also counts its updates since initialization.
///
/// A family implements the steps of the AEGIS specification, and initialization, the end and the tags are composed of
/// them here. The engine uses only `RATE`, the names, `new`, `absorb`, `absorb_in_each`, `xor_keystream`, `finalize`,
/// `zeros` and the tags, and of a row `LANES` and `store`.
pub trait LaneState: Copy {
    /// The type of a row: one block of each lane.
    type Row: Row;

    /// The length of a rate block, which all lanes together take in by one update: at most 128 bytes.
    const RATE: usize;

    ghost RATE: { ℕ };

    ghost VARIANT: { Variant };

    // the blocks of a lane
    ghost lane: { Self → ℕ → List (List ℕ) };

    // the number of updates since initialization
    ghost updates: { Self → ℕ };

    /// Returns the name of the variant's cipher.
    fn cipher_name() -> &'static str
        ensures { result.now ≡ cipher_name VARIANT.family VARIANT.lanes };

    /// Returns the name of the variant's module.
    fn module_name() -> &'static str
        ensures { result.now ≡ module_name VARIANT.family VARIANT.lanes };

    /// Returns the lanes before the updates of initialization (AEGIS, Init).
    fn first_blocks(key: &[u8], nonce: &[u8]) -> Self
        requires key_length { length key.now ≡ key_length VARIANT.family }
        requires nonce_length { length nonce.now ≡ key_length VARIANT.family }
        ensures lanes { (j : ℕ) → j < VARIANT.lanes
            → lane result j ≡ first_blocks VARIANT.family key.now nonce.now }
        ensures updates { updates result ≡ 0 };

    /// Updates the lanes by all turns of initialization, at most sixteen updates (AEGIS, Init). Updates are counted
    /// from 0 after it.
    fn init(&mut self, key: &[u8], nonce: &[u8])
        requires key_length { length key.now ≡ key_length VARIANT.family }
        requires nonce_length { length nonce.now ≡ key_length VARIANT.family }
        requires countable { updates self.old + 16 < 2 ^ 64 }
        ensures lanes { (j : ℕ) → j < VARIANT.lanes
            → lane self.new j
            ≡ times (init_turns VARIANT.family)
            (init_turn VARIANT.family key.now nonce.now (context_block j VARIANT.lanes))
            (lane self.old j) }
        ensures updates { updates self.new ≡ 0 };

    /// Returns lanes of zeros, to overwrite a state that is no longer used.
    fn zeros() -> Self;

    /// Returns the lanes after initialization with a key and a nonce (AEGIS, Init).
    #[tactic(auto, unfolding(crate::specs::Lane::init))]
    final fn new(key: &[u8], nonce: &[u8]) -> Self
        requires key_length { length key.now ≡ key_length VARIANT.family }
        requires nonce_length { length nonce.now ≡ key_length VARIANT.family }
        ensures lanes { (j : ℕ) → j < VARIANT.lanes
            → lane result j ≡ init VARIANT key.now nonce.now j }
        ensures updates { updates result ≡ 0 }
    {
        let mut state = Self::first_blocks(key, nonce);
        state.init(key, nonce);
        state
    }

    /// Updates the lanes by the rate block of `bytes` that begins at place `at` (AEGIS, Absorb).
    fn absorb(&mut self, bytes: &[u8], at: usize)
        requires within { at + RATE ≤ length bytes.now }
        requires countable { updates self.old + 1 < 2 ^ 64 }
        ensures lanes { (j : ℕ) → j < VARIANT.lanes
            → lane self.new j
            ≡ update VARIANT.family (lane self.old j) (share_at VARIANT j bytes.now at) }
        ensures updates { updates self.new ≡ updates self.old + 1 };

    /// Updates each lane by the same blocks: the rate block of one lane alone that begins at place `at` of `bytes`.
    fn absorb_in_each(&mut self, bytes: &[u8], at: usize)
        requires within { at + rate (alone VARIANT) ≤ length bytes.now }
        requires countable { updates self.old + 1 < 2 ^ 64 }
        ensures lanes { (j : ℕ) → j < VARIANT.lanes
            → lane self.new j
            ≡ update VARIANT.family (lane self.old j) (share_at (alone VARIANT) 0 bytes.now at) }
        ensures updates { updates self.new ≡ updates self.old + 1 };

    /// Xors the rate block of `buffer` that begins at place `at` with the lanes' keystream (AEGIS, Enc). The lanes are
    /// not updated.
    fn xor_keystream(self, buffer: &mut [u8], at: usize)
        requires { at + RATE ≤ length buffer.old }
        ensures written { (j h : ℕ) → j < VARIANT.lanes → h < width VARIANT.family
            → block_at buffer.new (at + 16 * (h * VARIANT.lanes + j))
            ≡ xor (block_at buffer.old (at + 16 * (h * VARIANT.lanes + j)))
            (block_in (keystream_blocks VARIANT.family (lane self j)) h) }
        ensures below { IsSameBefore at buffer.old buffer.new }
        ensures above { IsSameFrom (at + RATE) buffer.old buffer.new };

    /// Returns the input of the lanes' last updates: one of their rows, xored with two lengths in bits (AEGIS,
    /// Finalize).
    fn last_blocks(self, first_bits: u64, second_bits: u64) -> Self::Row
        ensures { (j : ℕ) → j < VARIANT.lanes
            → Self.Row.block result j
            ≡ last_block VARIANT.family (lane self j) first_bits second_bits };

    /// Updates the lanes by these blocks, with each lane's block as each block of its input (AEGIS, Finalize).
    fn end_update(&mut self, last: Self::Row)
        requires { updates self.old + 1 < 2 ^ 64 }
        ensures lanes { (j : ℕ) → j < VARIANT.lanes
            → lane self.new j
            ≡ update VARIANT.family (lane self.old j)
            (last_input VARIANT.family (Self.Row.block last j)) }
        ensures updates { updates self.new ≡ updates self.old + 1 };

    /// Returns the lanes after their end: seven updates by `last_blocks` (AEGIS, Finalize).
    #[tactic(auto, unfolding(crate::specs::Lane::finalize))]
    final fn finalize(self, first_bits: u64, second_bits: u64) -> Self
        requires { updates self + 7 < 2 ^ 64 }
        ensures lanes { (j : ℕ) → j < VARIANT.lanes
            → lane result j ≡ finalize VARIANT.family (lane self j) first_bits second_bits }
        ensures updates { updates result ≡ updates self + 7 }
    {
        let last = self.last_blocks(first_bits, second_bits);
        let mut state = self;
        for _turn in 0..7usize {
            state.end_update(last);
        }
        state
    }

    /// Returns the lanes' tags of 16 bytes (AEGIS, Finalize).
    fn short_tags(self) -> Self::Row
        ensures { (j : ℕ) → j < VARIANT.lanes
            → Self.Row.block result j ≡ short_tag VARIANT.family (lane self j) };

    /// Returns the halves of the lanes' tags of 32 bytes, low halves first.
    fn long_tags(self) -> (Self::Row, Self::Row)
        ensures low { (j : ℕ) → j < VARIANT.lanes
            → Self.Row.block result.0 j ≡ low_tag VARIANT.family (lane self j) }
        ensures high { (j : ℕ) → j < VARIANT.lanes
            → Self.Row.block result.1 j ≡ high_tag VARIANT.family (lane self j) };

    /// Returns the tag of 16 bytes: the xor of the lanes' tags.
    #[tactic(auto, using(crate::proofs::LaneFacts::xor_lanes_same))]
    final fn short_tag(self) -> AesBlock
        ensures { result ≡ xor_lanes (λ j. lane_tag VARIANT.family 16 (lane self j))
            VARIANT.lanes }
    {
        self.short_tags().xor_of_lanes()
    }

    /// Returns the halves of the tag of 32 bytes, low half first: the xor of the lanes' tags.
    final fn long_tag(self) -> (AesBlock, AesBlock)
        ensures { result.0 ++ result.1
            ≡ xor_lanes (λ j. lane_tag VARIANT.family 32 (lane self j)) VARIANT.lanes }
    {
        let (low, high) = self.long_tags();
        (low.xor_of_lanes(), high.xor_of_lanes())
    }

    ghost lanes_are: { VARIANT.lanes ≡ Self.Row.LANES };

    ghost one_two_or_four: { IsLaneCount VARIANT.lanes };

    ghost rate_is: { RATE ≡ rate VARIANT };
}
