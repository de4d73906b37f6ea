//! The lanes of the family AEGIS-128: eight rows. Each lane takes in two blocks of each rate block.
//!
//! The public methods of [`State128`] are those of `LaneState` and `SavedLanes`. Each private step is one of the AEGIS
//! specification, with a contract for each lane; only `update` counts.
#![tactic(auto)]

ghost use Rattle.std.specs.Prelude.{◌≡◌, ℕ, ◌+◌, ◌*◌, ◌/◌, ◌^◌, ◌<◌, List, [], ◌∷◌};
ghost use Rattle.aegis_aes.specs.Lanes.{context_block};
ghost use Rattle.aegis_base.specs.Variant.{Family128};
ghost use Rattle.aegis_base.specs.Lane.{add_context, first_blocks, high_tag, keystream_blocks, last_block, low_tag, block_in, short_tag, init, init_turn, update};

use aegis_aes::{AesBlock, AesBlock2, AesBlock4, Pair, Row, Rows2};
use aegis_base::{C0, C1, LaneState, SavedLanes, SavedRows, bit_lengths};

/// The lanes of AEGIS-128L, 128X2 or 128X4: their rows, each with one block of every lane, and the number of updates
/// since initialization.
///
/// Row i is in a pair with row i + 4, so that an update computes each pair from the previous one, and the first pair
/// from the last one with its rows exchanged.
#[derive(Clone, Copy)]
pub struct State128<P> {
    s04: P,
    s15: P,
    s26: P,
    s37: P,
    updates: u64,
}

/// The lanes of AEGIS-128L.
pub type State128X1 = State128<AesBlock2>;

/// The lanes of AEGIS-128X2.
pub type State128X2 = State128<Rows2<AesBlock2>>;

/// The lanes of AEGIS-128X4.
pub type State128X4 = State128<Rows2<AesBlock4>>;

impl<P: Pair> State128<P> {
    ghost use Rattle.aegis_128.specs.Rows.{lane};

    // One update by two rows of blocks (AEGIS, Update). The last rows come first, so that each pair is updated from the
    // pair before it as that was.
    #[inline(always)]
    fn update(&mut self, m: P)
        requires { self.old.updates + 1 < 2 ^ 64 }
        ensures lanes { (j : ℕ) → j < P.Row.LANES
            → lane P.block self.new j
            ≡ update Family128 (lane P.block self.old j) (P.block m 0 j ∷ P.block m 1 j ∷ []) }
        ensures updates { self.new.updates ≡ self.old.updates + 1 }
    {
        let last = self.s37.swap();
        self.s37.update_from(&self.s26);
        self.s26.update_from(&self.s15);
        self.s15.update_from(&self.s04);
        self.s04.update_from(&last);
        self.s04 = self.s04.xor_pair(m);
        self.updates += 1;
    }

    // Xors the context blocks into rows 3 and 7 (AEGIS, Init).
    #[inline(always)]
    fn add_contexts(&mut self)
        ensures lanes { (j : ℕ) → j < P.Row.LANES
            → lane P.block self.new j
            ≡ add_context Family128 (context_block j P.Row.LANES) (lane P.block self.old j) }
        ensures updates { self.new.updates ≡ self.old.updates }
    {
        let contexts = P::Row::contexts();
        self.s37 = self.s37.xor_pair(P::of(contexts, contexts));
    }

    // The two rows of keystream blocks.
    #[inline(always)]
    fn keystream_blocks(self) -> P
        ensures { (h j : ℕ) → h < 2 → j < P.Row.LANES
            → P.block result h j
            ≡ block_in (keystream_blocks Family128 (lane P.block self j)) h }
    {
        self.s26
            .swap()
            .xor_pair(self.s15)
            .xor_pair(self.s26.and_pair(self.s37))
    }

    // The sums of rows 0 to 3, and of rows 4 to 7.
    fn sums(self) -> P
        ensures low { (j : ℕ) → j < P.Row.LANES
            → P.block result 0 j ≡ low_tag Family128 (lane P.block self j) }
        ensures high { (j : ℕ) → j < P.Row.LANES
            → P.block result 1 j ≡ high_tag Family128 (lane P.block self j) }
    {
        self.s04
            .xor_pair(self.s15)
            .xor_pair(self.s26.xor_pair(self.s37))
    }
}

impl<P: Pair> LaneState for State128<P> {
    ghost use Rattle.aegis_128.specs.Rows.{lane};
    ghost use Rattle.std.proofs.Common.{refl, rules};

    type Row = P::Row;

    const RATE: usize = 32 * P::Row::LANES;

    ghost RATE = { 32 * P.Row.LANES };

    ghost VARIANT = { record { family = Family128; lanes = P.Row.LANES } };

    ghost lane = { λ s j. lane P.block s j };

    ghost updates = { λ s. s.updates };

    fn cipher_name() -> &'static str {
        match P::Row::LANES {
            1 => "Aegis128L",
            2 => "Aegis128X2",
            _ => "Aegis128X4",
        }
    }

    fn module_name() -> &'static str {
        match P::Row::LANES {
            1 => "aegis128l",
            2 => "aegis128x2",
            _ => "aegis128x4",
        }
    }

    fn first_blocks(key: &[u8], nonce: &[u8]) -> Self {
        let key = AesBlock::from_bytes(key);
        let nonce = AesBlock::from_bytes(nonce);
        let c0 = AesBlock::from_bytes(&C0);
        let c1 = AesBlock::from_bytes(&C1);
        let both = P::Row::splat(key.xor(nonce));
        let key_c0 = P::Row::splat(key.xor(c0));
        State128 {
            s04: P::of(both, both),
            s15: P::of(P::Row::splat(c1), key_c0),
            s26: P::of(P::Row::splat(c0), P::Row::splat(key.xor(c1))),
            s37: P::of(P::Row::splat(c1), key_c0),
            updates: 0,
        }
    }

    fn init(&mut self, key: &[u8], nonce: &[u8]) {
        let key_row = P::Row::splat(AesBlock::from_bytes(key));
        let nonce_row = P::Row::splat(AesBlock::from_bytes(nonce));
        for _turn in 0..10usize {
            self.add_contexts();
            self.update(P::of(nonce_row, key_row));
        }
        self.updates = 0;
    }

    fn zeros() -> Self {
        let zero = P::Row::splat(AesBlock::default());
        let zeros = P::of(zero, zero);
        State128 {
            s04: zeros,
            s15: zeros,
            s26: zeros,
            s37: zeros,
            updates: 0,
        }
    }

    #[inline(always)]
    fn absorb(&mut self, bytes: &[u8], at: usize) {
        self.update(P::load(bytes, at));
    }

    fn absorb_in_each(&mut self, bytes: &[u8], at: usize) {
        let first: AesBlock = Row::load(bytes, at);
        let second: AesBlock = Row::load(bytes, at + 16);
        self.update(P::of(P::Row::splat(first), P::Row::splat(second)));
    }

    #[inline(always)]
    fn xor_keystream(self, buffer: &mut [u8], at: usize) {
        P::load(buffer, at)
            .xor_pair(self.keystream_blocks())
            .store(buffer, at);
    }

    fn last_blocks(self, first_bits: u64, second_bits: u64) -> P::Row {
        let lengths = AesBlock::from_bytes(&bit_lengths(first_bits, second_bits));
        self.s26.first().xor_row(P::Row::splat(lengths))
    }

    #[inline(always)]
    fn end_update(&mut self, last: P::Row) {
        self.update(P::of(last, last));
    }

    fn short_tags(self) -> P::Row {
        let but_last = self.s04.xor_pair(self.s15).xor_pair(self.s26);
        self.sums().first().xor_row(but_last.second())
    }

    fn long_tags(self) -> (P::Row, P::Row) {
        let sums = self.sums();
        (sums.first(), sums.second())
    }

    ghost lanes_are = { refl };

    ghost one_two_or_four = { P.Row.one_two_or_four };

    ghost rate_is = { Prim.search rules };
}

impl<P: Pair> SavedLanes for State128<P> {
    // Inlined, it changes which rows a loop before it keeps in registers.
    #[inline(never)]
    fn save(self, rows: &mut SavedRows) {
        self.s04.store(&mut rows.first_pair, 0);
        self.s15.store(&mut rows.second_pair, 0);
        self.s26.store(&mut rows.third_pair, 0);
        self.s37.store(&mut rows.fourth_pair, 0);
    }

    #[inline(always)]
    fn restore(rows: &SavedRows, count: u64) -> Self {
        State128 {
            s04: P::load(&rows.first_pair, 0),
            s15: P::load(&rows.second_pair, 0),
            s26: P::load(&rows.third_pair, 0),
            s37: P::load(&rows.fourth_pair, 0),
            updates: count,
        }
    }
}
