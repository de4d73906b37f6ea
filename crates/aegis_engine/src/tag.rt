//! Tags: the end of the lanes, and the comparison of two tags.

ghost use Rattle.std.specs.Prelude.{◌≡◌, ℕ, ◌+◌, ◌*◌, ◌^◌, ◌<◌, ◌≤◌, ◌++◌, ◌↔◌, IsTrue, List, length, slice_index};
ghost use Rattle.aegis_aes.specs.Block.{bytes_at};
ghost use Rattle.aegis_aes.specs.Lanes.{xor_lanes};
ghost use Rattle.aegis_base.specs.Variant.{rate};
ghost use Rattle.aegis_base.specs.Lane.{IsTagLength, lane_tag};
ghost use Rattle.aegis_base.specs.Mac.{alone, first_folded, mac_tag};
ghost use Rattle.aegis_base.specs.Message.{lane_after};

use crate::pass::{RateBlock, ZEROS, copy_part};
use aegis_aes::{AesBlock, Row};
use aegis_base::LaneState;

/// Returns whether two slices of the same length are equal. All bytes are compared, whether they are equal or not.
pub fn same_bytes(a: &[u8], b: &[u8]) -> bool
    requires { length a.now ≡ length b.now }
    ensures { IsTrue result ↔ (a.now ≡ b.now) }
{
    let mut difference = 0;
    for i in 0..a.len() {
        difference |= a[i] ^ b[i];
    }
    difference == 0
}

// The bytes of a tag of 16 bytes.
fn short_bytes<const TAG_BYTES: usize>(tag: AesBlock) -> [u8; TAG_BYTES]
    requires { TAG_BYTES ≡ 16 }
    ensures { result ≡ tag }
{
    let mut bytes = [0; TAG_BYTES];
    let out = &mut bytes[..];
    out.copy_from_slice(&tag.to_bytes());
    bytes
}

// The bytes of a tag of 32 bytes, from its halves.
fn long_bytes<const TAG_BYTES: usize>(low: AesBlock, high: AesBlock) -> [u8; TAG_BYTES]
    requires { TAG_BYTES ≡ 32 }
    ensures { result ≡ low ++ high }
{
    let mut bytes = [0; TAG_BYTES];
    let out = &mut bytes[..];
    out[..16].copy_from_slice(&low.to_bytes());
    out[16..].copy_from_slice(&high.to_bytes());
    bytes
}

/// Returns the tag, from the lanes after their end: the xor of the lanes' tags (AEGIS, Finalize).
pub fn lanes_tag<S: LaneState, const TAG_BYTES: usize>(end: S) -> [u8; TAG_BYTES]
    requires { IsTagLength TAG_BYTES }
    ensures { result
        ≡ xor_lanes (λ j. lane_tag S.VARIANT.family TAG_BYTES (S.lane end j)) S.VARIANT.lanes }
{
    if TAG_BYTES == 16 {
        short_bytes(end.short_tag())
    } else {
        let (low, high) = end.long_tag();
        long_bytes(low, high)
    }
}

// The blocks of two rows, lane after lane: each lane's block of the first row, and then its block of the second.
fn lane_after_lane<R: Row>(first: R, second: R) -> RateBlock
    ensures { (j : ℕ) → j < R.LANES
        → bytes_at result (32 * j) 32 ≡ R.block first j ++ R.block second j }
{
    let mut firsts = ZEROS;
    first.store(&mut firsts, 0);
    let mut seconds = ZEROS;
    second.store(&mut seconds, 0);
    let mut bytes = ZEROS;
    for lane in 0..R::LANES {
        copy_part(&mut bytes, 32 * lane, &firsts, 16 * lane, 16);
        copy_part(&mut bytes, 32 * lane + 16, &seconds, 16 * lane, 16);
    }
    bytes
}

// The lanes' tags of `n` bytes, lane after lane.
fn lane_tags<S: LaneState>(end: S, n: usize) -> RateBlock
    requires { IsTagLength n }
    ensures { (j : ℕ) → j < S.VARIANT.lanes
        → bytes_at result (n * j) n ≡ lane_tag S.VARIANT.family n (S.lane end j) }
{
    if n == 16 {
        let mut tags = ZEROS;
        end.short_tags().store(&mut tags, 0);
        tags
    } else {
        let (low, high) = end.long_tags();
        lane_after_lane(low, high)
    }
}

// The length of a rate block of one lane alone, in bytes.
fn rate_of_one<S: LaneState>() -> usize
    ensures { result ≡ rate (alone S.VARIANT) }
{
    S::RATE / S::Row::LANES
}

// The first of the lanes whose tags of `n` bytes are folded.
#[tactic(auto, using(crate::proofs::TagFacts::folds_all, crate::proofs::TagFacts::folds_others))]
fn first_folded<S: LaneState>(n: usize) -> usize
    requires { IsTagLength n }
    ensures { result ≡ first_folded S.VARIANT.family n }
{
    if n < rate_of_one::<S>() { 0 } else { 1 }
}

// The lanes after `turns` updates, each by the next rate block of one lane alone, beginning at place `from` of `tags`.
fn folded<S: LaneState>(end: S, tags: &RateBlock, from: usize, turns: usize) -> S
    requires within { from + turns * rate (alone S.VARIANT) ≤ 128 }
    requires countable { S.updates end + turns < 2 ^ 64 }
    ensures first { (x : List ℕ)
        → ((i : ℕ) → i < turns * rate (alone S.VARIANT)
        → slice_index x i ≡ slice_index tags.now (from + i))
        → S.lane result 0 ≡ lane_after (alone S.VARIANT) (S.lane end 0) 0 x turns }
    ensures updates { S.updates result ≡ S.updates end + turns }
{
    let rate = rate_of_one::<S>();
    let mut state = end;
    for turn in 0..turns {
        state.absorb_in_each(tags, from + turn * rate);
    }
    state
}

/// Returns the MAC, from the lanes after their end: the tag of a single lane, and with more lanes the tag of lane 0
/// after it took in the lanes' tags, and after a second end with the number of lanes and the MAC's length in bits.
pub fn folded_tag<S: LaneState, const TAG_BYTES: usize>(end: S) -> [u8; TAG_BYTES]
    requires tag_bytes { IsTagLength TAG_BYTES }
    requires countable { S.updates end + 16 < 2 ^ 64 }
    ensures { result ≡ mac_tag S.VARIANT TAG_BYTES (S.lane end) }
{
    let lanes = S::Row::LANES;
    if lanes == 1 {
        return lanes_tag(end);
    }
    let first = first_folded::<S>(TAG_BYTES);
    let turns = (lanes - first) * TAG_BYTES / rate_of_one::<S>();
    let folded = folded(end, &lane_tags(end, TAG_BYTES), TAG_BYTES * first, turns);
    let ended = folded.finalize(lanes as u64, 8 * TAG_BYTES as u64);
    let mut tag = [0; TAG_BYTES];
    tag.copy_from_slice(&lane_tags(ended, TAG_BYTES)[..TAG_BYTES]);
    tag
}
