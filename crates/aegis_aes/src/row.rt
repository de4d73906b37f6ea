//! Rows: the blocks at one place of the states of all lanes of AEGIS, side by side.

ghost use Rattle.std.proofs.Common.{inl};
ghost use Rattle.std.specs.Prelude.{◌≡◌, ℕ, ◌+◌, ◌*◌, ◌<◌, ◌≤◌, length, List, refl, slice_index};
ghost use Rattle.aegis_aes.specs.Private.{IsSameBefore, IsSameFrom};
ghost use Rattle.aegis_aes.specs.Block.{and, block_at, xor};
ghost use Rattle.aegis_aes.specs.Round.{complete_round, sub_bytes};
ghost use Rattle.aegis_aes.specs.Lanes.{IsLaneCount, context_block, xor_lanes};

use crate::block::AesBlock;
use crate::permutes::sub_bytes;
use crate::round::complete;

/// One block of each lane of AEGIS, which has 1, 2 or 4 lanes side by side. The lanes are numbered from 0, and in
/// contracts `block row j` is the block of lane j.
pub trait Row: Copy {
    /// The number of lanes: 1, 2 or 4.
    const LANES: usize;

    ghost LANES: { ℕ };

    // the block of a lane
    ghost block: { Self → ℕ → List ℕ };

    /// Creates a row with the same block in all lanes.
    fn splat(value: AesBlock) -> Self
        ensures { (j : ℕ) → j < LANES → block result j ≡ value };

    /// Returns the row of the lanes' context blocks (AEGIS specification, Init of AEGIS-128X and AEGIS-256X): the
    /// number of the lane, the number of the last lane, and 14 zero bytes.
    fn contexts() -> Self
        ensures { (j : ℕ) → j < LANES → block result j ≡ context_block j LANES };

    /// Reads a row from `bytes`, beginning at byte `at`: 16 bytes for each lane, lane after lane.
    fn load(bytes: &[u8], at: usize) -> Self
        requires { at + 16 * LANES ≤ length bytes.now }
        ensures { (j : ℕ) → j < LANES → block result j ≡ block_at bytes.now (at + 16 * j) };

    /// Writes the row into `out`, beginning at byte `at`, in the order of [`Row::load`]. The other bytes of `out` are
    /// unchanged.
    fn store(self, out: &mut [u8], at: usize)
        requires { at + 16 * LANES ≤ length out.old }
        ensures written { (j : ℕ) → j < LANES
            → block_at out.new (at + 16 * j) ≡ block self j }
        ensures below { IsSameBefore at out.old out.new }
        ensures above { IsSameFrom (at + 16 * LANES) out.old out.new };

    /// Returns the bitwise xor, lane by lane.
    fn xor_row(self, other: Self) -> Self
        ensures { (j : ℕ) → j < LANES
            → block result j ≡ xor (block self j) (block other j) };

    /// Returns the bitwise and, lane by lane.
    fn and_row(self, other: Self) -> Self
        ensures { (j : ℕ) → j < LANES
            → block result j ≡ and (block self j) (block other j) };

    /// Returns each lane's block after SubBytes (FIPS 197, section 5.1.1), the first step of an AES round.
    fn sub_bytes_row(self) -> Self
        ensures { (j : ℕ) → j < LANES → block result j ≡ sub_bytes (block self j) };

    /// Returns each lane's block after the other steps of an AES round (FIPS 197, sections 5.1.2 to 5.1.4), with that
    /// lane's block of `key` as its key.
    fn complete_row(self, key: Self) -> Self
        ensures { (j : ℕ) → j < LANES
            → block result j ≡ complete_round (block self j) (block key j) };

    /// Returns the xor of the lanes' blocks.
    fn xor_of_lanes(self) -> AesBlock
        ensures value { result ≡ xor_lanes (block self) LANES }
        ensures sixteen { (j : ℕ) → j < LANES → length (block self j) ≡ 16 };

    ghost one_two_or_four: { IsLaneCount LANES };
}

// The context block of a lane: its number, the last lane's number, and zeros.
pub(crate) fn context_block(lane: u8, lanes: u8) -> AesBlock
    requires { 0 < lanes }
    ensures { result ≡ context_block lane lanes }
{
    let mut bytes = [0; 16];
    bytes[0] = lane;
    bytes[1] = lanes - 1;
    AesBlock::from_bytes(&bytes)
}

impl Row for AesBlock {
    const LANES: usize = 1;

    ghost LANES = { 1 };

    ghost block = { λ b _. b };

    fn splat(value: AesBlock) -> AesBlock {
        value
    }

    fn contexts() -> AesBlock {
        context_block(0, 1)
    }

    fn load(bytes: &[u8], at: usize) -> AesBlock {
        AesBlock::from_bytes(&bytes[at..at + 16])
    }

    #[tactic(auto, using(crate::proofs::Places::bytes_at_put_mid))]
    fn store(self, out: &mut [u8], at: usize) {
        out[at..at + 16].copy_from_slice(&self.to_bytes());
    }

    fn xor_row(self, other: AesBlock) -> AesBlock {
        AesBlock::xor(&self, other)
    }

    fn and_row(self, other: AesBlock) -> AesBlock {
        AesBlock::and(&self, other)
    }

    #[tactic(auto, unfolding(crate::specs::Round::sub_bytes))]
    fn sub_bytes_row(self) -> AesBlock {
        AesBlock {
            bytes: sub_bytes(self.bytes),
        }
    }

    #[tactic(auto, using(crate::proofs::Places::block_at_all))]
    fn complete_row(self, key: AesBlock) -> AesBlock {
        AesBlock {
            bytes: complete(self.bytes, key.bytes),
        }
    }

    #[tactic(auto, unfolding(crate::specs::Lanes::xor_lanes))]
    fn xor_of_lanes(self) -> AesBlock {
        self
    }

    ghost one_two_or_four = { inl refl };
}
