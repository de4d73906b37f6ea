//! The lanes of the family AEGIS-256: six rows. Each lane takes in one block of each rate block.
//!
//! The public methods of [`State256`] are those of `LaneState` and `SavedLanes`. Each private step is one of the AEGIS
//! specification, with a contract for each lane; only `update` counts.
#![tactic(auto)]

ghost use Rattle.std.specs.Prelude.{◌≡◌, ℕ, ◌+◌, ◌-◌, ◌*◌, ◌^◌, ◌<◌, List, [], ◌∷◌, length};
ghost use Rattle.aegis_aes.specs.Lanes.{context_block};
ghost use Rattle.aegis_base.specs.Variant.{Family256};
ghost use Rattle.aegis_base.specs.Lane.{add_context, first_blocks, high_half, high_tag, keystream_blocks, last_block, low_half, low_tag, block_in, short_tag, init, init_turn, update};

use aegis_aes::{AesBlock, AesBlock2, AesBlock4, Pair, Row, Rows2};
use aegis_base::{C0, C1, LaneState, SavedLanes, SavedRows, bit_lengths};

// The first block of a key or nonce.
fn low_half(bytes: &[u8]) -> AesBlock
    requires { length bytes.now ≡ 32 }
    ensures { result ≡ low_half bytes.now }
{
    AesBlock::from_bytes(&bytes[..16])
}

// The second block of a key or nonce.
fn high_half(bytes: &[u8]) -> AesBlock
    requires { length bytes.now ≡ 32 }
    ensures { result ≡ high_half bytes.now }
{
    let (_, high) = bytes.split_at(16);
    AesBlock::from_bytes(high)
}

/// The lanes of AEGIS-256, 256X2 or 256X4: their rows, each with one block of every lane, and the number of updates
/// since initialization.
///
/// Row i is in a pair with row i + 3, so that an update computes each pair from the previous one, and the first pair
/// from the last one with its rows exchanged.
#[derive(Clone, Copy)]
pub struct State256<P> {
    s03: P,
    s14: P,
    s25: P,
    updates: u64,
}

/// The lanes of AEGIS-256.
pub type State256X1 = State256<AesBlock2>;

/// The lanes of AEGIS-256X2.
pub type State256X2 = State256<Rows2<AesBlock2>>;

/// The lanes of AEGIS-256X4.
pub type State256X4 = State256<Rows2<AesBlock4>>;

impl<P: Pair> State256<P> {
    ghost use Rattle.aegis_256.specs.Rows.{lane};

    // One update by a row of blocks (AEGIS, Update). The last rows come first, so that each pair is updated from the
    // pair before it as that was.
    #[inline(always)]
    fn update(&mut self, m: P::Row)
        requires { self.old.updates + 1 < 2 ^ 64 }
        ensures lanes { (j : ℕ) → j < P.Row.LANES
            → lane P.block self.new j
            ≡ update Family256 (lane P.block self.old j) (P.Row.block m j ∷ []) }
        ensures updates { self.new.updates ≡ self.old.updates + 1 }
    {
        let last = self.s25.swap();
        self.s25.update_from(&self.s14);
        self.s14.update_from(&self.s03);
        self.s03.update_from(&last);
        self.s03 = self.s03.xor_first_row(m);
        self.updates += 1;
    }

    // Xors the context blocks into rows 3 and 5 (AEGIS, Init).
    #[inline(always)]
    fn add_contexts(&mut self)
        ensures lanes { (j : ℕ) → j < P.Row.LANES
            → lane P.block self.new j
            ≡ add_context Family256 (context_block j P.Row.LANES) (lane P.block self.old j) }
        ensures updates { self.new.updates ≡ self.old.updates }
    {
        let contexts = P::Row::contexts();
        self.s03 = P::of(self.s03.first(), self.s03.second().xor_row(contexts));
        self.s25 = P::of(self.s25.first(), self.s25.second().xor_row(contexts));
    }

    // One update of initialization (AEGIS, Init).
    #[inline(always)]
    fn init_update(&mut self, block: AesBlock)
        requires { self.old.updates + 1 < 2 ^ 64 }
        ensures lanes { (j : ℕ) → j < P.Row.LANES
            → lane P.block self.new j
            ≡ update Family256
            (add_context Family256 (context_block j P.Row.LANES) (lane P.block self.old j))
            (block ∷ []) }
        ensures updates { self.new.updates ≡ self.old.updates + 1 }
    {
        self.add_contexts();
        self.update(P::Row::splat(block));
    }

    // The row of keystream blocks.
    #[inline(always)]
    fn keystream_blocks(self) -> P::Row
        ensures { (j : ℕ) → j < P.Row.LANES
            → P.Row.block result j
            ≡ block_in (keystream_blocks Family256 (lane P.block self j)) 0 }
    {
        let front = self.s14.first().xor_row(self.s14.second());
        let masked = self.s25.first().and_row(self.s03.second());
        front.xor_row(self.s25.second().xor_row(masked))
    }

    // The sums of rows 0 to 2, and of rows 3 to 5.
    fn sums(self) -> P
        ensures low { (j : ℕ) → j < P.Row.LANES
            → P.block result 0 j ≡ low_tag Family256 (lane P.block self j) }
        ensures high { (j : ℕ) → j < P.Row.LANES
            → P.block result 1 j ≡ high_tag Family256 (lane P.block self j) }
    {
        self.s03.xor_pair(self.s14).xor_pair(self.s25)
    }
}

impl<P: Pair> LaneState for State256<P> {
    ghost use Rattle.aegis_256.specs.Rows.{lane};
    ghost use Rattle.std.proofs.Common.{refl, rules};

    type Row = P::Row;

    const RATE: usize = 16 * P::Row::LANES;

    ghost RATE = { 16 * P.Row.LANES };

    ghost VARIANT = { record { family = Family256; lanes = P.Row.LANES } };

    ghost lane = { λ s j. lane P.block s j };

    ghost updates = { λ s. s.updates };

    fn cipher_name() -> &'static str {
        match P::Row::LANES {
            1 => "Aegis256",
            2 => "Aegis256X2",
            _ => "Aegis256X4",
        }
    }

    fn module_name() -> &'static str {
        match P::Row::LANES {
            1 => "aegis256",
            2 => "aegis256x2",
            _ => "aegis256x4",
        }
    }

    fn first_blocks(key: &[u8], nonce: &[u8]) -> Self {
        let c0 = AesBlock::from_bytes(&C0);
        let c1 = AesBlock::from_bytes(&C1);
        let low = P::Row::splat(low_half(key).xor(low_half(nonce)));
        let high = P::Row::splat(high_half(key).xor(high_half(nonce)));
        State256 {
            s03: P::of(low, P::Row::splat(c0)),
            s14: P::of(high, P::Row::splat(low_half(key).xor(c0))),
            s25: P::of(P::Row::splat(c1), P::Row::splat(high_half(key).xor(c1))),
            updates: 0,
        }
    }

    // One loop for all four turns: in a loop inside a loop LLVM inlines the rounds of four lanes, which is slower at
    // x86-64-v2.
    fn init(&mut self, key: &[u8], nonce: &[u8]) {
        let low = low_half(key);
        let high = high_half(key);
        let blocks = [
            low,
            high,
            low.xor(low_half(nonce)),
            high.xor(high_half(nonce)),
        ];
        for i in 0..16usize {
            self.init_update(blocks[i % 4]);
        }
        self.updates = 0;
    }

    fn zeros() -> Self {
        let zero = P::Row::splat(AesBlock::default());
        let zeros = P::of(zero, zero);
        State256 {
            s03: zeros,
            s14: zeros,
            s25: zeros,
            updates: 0,
        }
    }

    #[inline(always)]
    fn absorb(&mut self, bytes: &[u8], at: usize) {
        self.update(P::Row::load(bytes, at));
    }

    fn absorb_in_each(&mut self, bytes: &[u8], at: usize) {
        let block: AesBlock = Row::load(bytes, at);
        self.update(P::Row::splat(block));
    }

    #[inline(always)]
    fn xor_keystream(self, buffer: &mut [u8], at: usize) {
        P::Row::load(buffer, at)
            .xor_row(self.keystream_blocks())
            .store(buffer, at);
    }

    fn last_blocks(self, first_bits: u64, second_bits: u64) -> P::Row {
        let lengths = AesBlock::from_bytes(&bit_lengths(first_bits, second_bits));
        self.s03.second().xor_row(P::Row::splat(lengths))
    }

    #[inline(always)]
    fn end_update(&mut self, last: P::Row) {
        self.update(last);
    }

    fn short_tags(self) -> P::Row {
        let sums = self.sums();
        sums.first().xor_row(sums.second())
    }

    fn long_tags(self) -> (P::Row, P::Row) {
        let sums = self.sums();
        (sums.first(), sums.second())
    }

    ghost lanes_are = { refl };

    ghost one_two_or_four = { P.Row.one_two_or_four };

    ghost rate_is = { Prim.search rules };
}

impl<P: Pair> SavedLanes for State256<P> {
    // Inlined, it changes which rows a loop before it keeps in registers.
    #[inline(never)]
    fn save(self, rows: &mut SavedRows) {
        self.s03.store(&mut rows.first_pair, 0);
        self.s14.store(&mut rows.second_pair, 0);
        self.s25.store(&mut rows.third_pair, 0);
    }

    #[inline(always)]
    fn restore(rows: &SavedRows, count: u64) -> Self {
        State256 {
            s03: P::load(&rows.first_pair, 0),
            s14: P::load(&rows.second_pair, 0),
            s25: P::load(&rows.third_pair, 0),
            updates: count,
        }
    }
}
