//! Pairs: two rows of the state of a parallel AEGIS, side by side.

ghost use Rattle.std.specs.Prelude.{◌≡◌, ℕ, ◌+◌, ◌*◌, ◌<◌, ◌≤◌, length, List, slice_index};
ghost use Rattle.aegis_aes.specs.Private.{IsSameBefore, IsSameFrom};
ghost use Rattle.aegis_aes.specs.Block.{and, block_at, xor};
ghost use Rattle.aegis_aes.specs.Blocks.{block_of_two};
ghost use Rattle.aegis_aes.specs.Round.{round};

use crate::block::AesBlock;
use crate::block2::AesBlock2;
use crate::row::Row;
use std::simd::prelude::*;

/// Two rows that go through a round together, so that even the rows of a single lane fill a vector of 32 bytes.
///
/// In contracts, `block pair h j` is the block of lane j in the first row, h = 0, or the second, h = 1.
pub trait Pair: Copy {
    /// The type of each of the two rows.
    type Row: Row;

    // the block of a lane in a row
    ghost block: { Self → ℕ → ℕ → List ℕ };

    /// Creates a pair of two rows.
    fn of(first: Self::Row, second: Self::Row) -> Self
        ensures first { (j : ℕ) → j < Self.Row.LANES
            → block result 0 j ≡ Self.Row.block first j }
        ensures second { (j : ℕ) → j < Self.Row.LANES
            → block result 1 j ≡ Self.Row.block second j };

    /// Returns the first row.
    fn first(self) -> Self::Row
        ensures { (j : ℕ) → j < Self.Row.LANES → Self.Row.block result j ≡ block self 0 j };

    /// Returns the second row.
    fn second(self) -> Self::Row
        ensures { (j : ℕ) → j < Self.Row.LANES → Self.Row.block result j ≡ block self 1 j };

    /// Returns the pair with its rows exchanged.
    fn swap(self) -> Self
        ensures first { (j : ℕ) → j < Self.Row.LANES → block result 0 j ≡ block self 1 j }
        ensures second { (j : ℕ) → j < Self.Row.LANES → block result 1 j ≡ block self 0 j };

    /// Reads a pair from `bytes`, beginning at byte `at`: 16 bytes for each lane of the first row, lane after lane, and
    /// then those of the second row.
    fn load(bytes: &[u8], at: usize) -> Self
        requires { at + 32 * Self.Row.LANES ≤ length bytes.now }
        ensures { (h j : ℕ) → h < 2 → j < Self.Row.LANES
            → block result h j ≡ block_at bytes.now (at + 16 * (h * Self.Row.LANES + j)) };

    /// Writes the pair into `out`, beginning at byte `at`, in the order of [`Pair::load`]. The other bytes of `out` are
    /// unchanged.
    fn store(self, out: &mut [u8], at: usize)
        requires { at + 32 * Self.Row.LANES ≤ length out.old }
        ensures written { (h j : ℕ) → h < 2 → j < Self.Row.LANES
            → block_at out.new (at + 16 * (h * Self.Row.LANES + j)) ≡ block self h j }
        ensures below { IsSameBefore at out.old out.new }
        ensures above { IsSameFrom (at + 32 * Self.Row.LANES) out.old out.new };

    /// Returns the bitwise xor, block by block.
    fn xor_pair(self, other: Self) -> Self
        ensures { (h j : ℕ) → h < 2 → j < Self.Row.LANES
            → block result h j ≡ xor (block self h j) (block other h j) };

    /// Returns the pair with `row` xored into its first row. The second row is unchanged.
    fn xor_first_row(self, row: Self::Row) -> Self
        ensures first { (j : ℕ) → j < Self.Row.LANES
            → block result 0 j ≡ xor (block self 0 j) (Self.Row.block row j) }
        ensures second { (j : ℕ) → j < Self.Row.LANES → block result 1 j ≡ block self 1 j };

    /// Returns the bitwise and, block by block.
    fn and_pair(self, other: Self) -> Self
        ensures { (h j : ℕ) → h < 2 → j < Self.Row.LANES
            → block result h j ≡ and (block self h j) (block other h j) };

    /// Replaces each block by the block of `previous` at the same place after one AES round (FIPS 197, sections 5.1.1
    /// to 5.1.4), with the replaced block as its key.
    fn update_from(&mut self, previous: &Self)
        ensures { (h j : ℕ) → h < 2 → j < Self.Row.LANES
            → block self.new h j ≡ round (block previous.now h j) (block self.old h j) };
}

// Two rows of one lane are one vector.
impl Pair for AesBlock2 {
    type Row = AesBlock;

    ghost block = { λ p h _. block_of_two p h };

    fn of(first: AesBlock, second: AesBlock) -> AesBlock2 {
        AesBlock2::from_blocks(first, second)
    }

    fn first(self) -> AesBlock {
        let (first, _) = self.as_blocks();
        first
    }

    fn second(self) -> AesBlock {
        let (_, second) = self.as_blocks();
        second
    }

    fn swap(self) -> AesBlock2 {
        self.exchanged()
    }

    fn load(bytes: &[u8], at: usize) -> AesBlock2 {
        Row::load(bytes, at)
    }

    fn store(self, out: &mut [u8], at: usize) {
        Row::store(self, out, at);
    }

    fn xor_pair(self, other: AesBlock2) -> AesBlock2 {
        AesBlock2::xor(&self, other)
    }

    fn xor_first_row(self, row: AesBlock) -> AesBlock2 {
        AesBlock2::xor_first(&self, row)
    }

    fn and_pair(self, other: AesBlock2) -> AesBlock2 {
        AesBlock2::and(&self, other)
    }

    #[tactic(auto, unfolding(crate::specs::Round::round))]
    fn update_from(&mut self, previous: &AesBlock2) {
        *self = previous.sub_bytes_row().complete_row(*self);
    }
}

/// Two rows of two or more lanes, each row in vectors of its own.
#[derive(Clone, Copy, Debug)]
pub struct Rows2<R: Row> {
    first: R,
    second: R,
    // It holds nothing, and aligns the rows to 16 bytes, so that no block of theirs crosses a cache line.
    aligned: [u128; 0],
}

impl<R: Row> Pair for Rows2<R> {
    ghost use Rattle.aegis_aes.specs.Pairs.{row_of_two};

    type Row = R;

    ghost block = { λ p h. R.block (row_of_two p h) };

    fn of(first: R, second: R) -> Self {
        Rows2 {
            first,
            second,
            aligned: [],
        }
    }

    fn first(self) -> R {
        self.first
    }

    fn second(self) -> R {
        self.second
    }

    fn swap(self) -> Self {
        Rows2 {
            first: self.second,
            second: self.first,
            aligned: [],
        }
    }

    fn load(bytes: &[u8], at: usize) -> Self {
        Rows2 {
            first: R::load(bytes, at),
            second: R::load(bytes, at + 16 * R::LANES),
            aligned: [],
        }
    }

    fn store(self, out: &mut [u8], at: usize) {
        self.first.store(out, at);
        self.second.store(out, at + 16 * R::LANES);
    }

    fn xor_pair(self, other: Self) -> Self {
        Rows2 {
            first: self.first.xor_row(other.first),
            second: self.second.xor_row(other.second),
            aligned: [],
        }
    }

    fn xor_first_row(self, row: R) -> Self {
        Rows2 {
            first: self.first.xor_row(row),
            second: self.second,
            aligned: [],
        }
    }

    fn and_pair(self, other: Self) -> Self {
        Rows2 {
            first: self.first.and_row(other.first),
            second: self.second.and_row(other.second),
            aligned: [],
        }
    }

    // SubBytes of both rows comes first, so that a processor has steps of both rounds to execute at the same time.
    #[tactic(auto, unfolding(crate::specs::Round::round))]
    fn update_from(&mut self, previous: &Self) {
        let second = previous.second.sub_bytes_row();
        let first = previous.first.sub_bytes_row();
        self.second = second.complete_row(self.second);
        self.first = first.complete_row(self.first);
    }
}
