//! Rate blocks: processing one rate block, a part of one, or many.
//!
//! Sealing, opening and the xor with a keystream are one pass: each byte of a buffer is xored with the keystream, and
//! the lanes take in the bytes before the xor (sealing), the bytes after it (opening), or zeros (a keystream).
//! Associated data and the input of a MAC are taken in without a buffer. In contracts, the context has taken in `total`
//! bytes before a call.

ghost use Rattle.std.specs.Prelude.{◌≡◌, ℕ, ◌+◌, ◌*◌, ◌/◌, ◌%◌, ◌^◌, ◌<◌, ◌≤◌, IfSome, bit_xor, length, List, slice_index};
ghost use Rattle.aegis_aes.specs.Private.{IsSameBefore, IsSameFrom};
ghost use Rattle.aegis_aes.specs.Block.{bytes_at};
ghost use Rattle.aegis_base.specs.Lane.{update};
ghost use Rattle.aegis_base.specs.Message.{keystream_byte, share_at};
ghost use Rattle.aegis_base.specs.Private.{IsUnopened};
ghost use Rattle.aegis_base.specs.Context.{Takes, held_by};
ghost use Rattle.aegis_engine.specs.Pass.{IsPassed, absorbed, given};

use aegis_base::LaneState;

/// Selects the bytes that the lanes take in as a buffer is xored with the keystream.
#[derive(Clone, Copy)]
pub enum Pass {
    /// The bytes before the xor.
    Seal,
    /// The bytes after the xor.
    Open,
    /// Zeros.
    Keystream,
}

/// A buffer for one rate block, which has at most 128 bytes.
pub type RateBlock = [u8; 128];

/// A block of zeros.
pub const ZEROS: RateBlock = [0; 128];

/// Copies `count` bytes of `source`, beginning at place `from`, to `target`, beginning at place `at`.
#[inline(always)]
pub fn copy_part(target: &mut [u8], at: usize, source: &[u8], from: usize, count: usize)
    requires target_within { at + count ≤ length target.old }
    requires source_within { from + count ≤ length source.now }
    ensures written { (k : ℕ) → k < count
        → slice_index target.new (at + k) ≡ slice_index source.now (from + k) }
    ensures below { IsSameBefore at target.old target.new }
    ensures above { IsSameFrom (at + count) target.old target.new }
{
    target[at..at + count].copy_from_slice(&source[from..from + count]);
}

/// Copies `count` bytes, beginning at place `at`, from `source` to the same place of a buffer. If there is no source,
/// the bytes are in the buffer already.
#[inline(always)]
pub fn fill_part(buffer: &mut [u8], source: Option<&[u8]>, at: usize, count: usize)
    requires within { at + count ≤ length buffer.old }
    requires lengths { IfSome source (λ s. length s.now ≡ length buffer.old) }
    ensures written { (k : ℕ) → k < count
        → slice_index buffer.new (at + k) ≡ slice_index (given source.entry buffer.old) (at + k) }
    ensures below { IsSameBefore at buffer.old buffer.new }
    ensures above { IsSameFrom (at + count) buffer.old buffer.new }
{
    if let Some(source) = source {
        copy_part(buffer, at, source, at, count);
    }
}

// A copy of the rate block of `bytes` that begins at place `at`.
#[inline(always)]
fn copied<S: LaneState>(bytes: &[u8], at: usize) -> RateBlock
    requires { at + S.RATE ≤ length bytes.now }
    ensures { (k : ℕ) → k < S.RATE → slice_index result k ≡ slice_index bytes.now (at + k) }
{
    let mut block = ZEROS;
    copy_part(&mut block, 0, bytes, at, S::RATE);
    block
}

// A copy of the rate block of `source` that begins at place `at`, or if there is no source, of the buffer's.
#[inline(always)]
fn copied_given<S: LaneState>(source: Option<&[u8]>, buffer: &[u8], at: usize) -> RateBlock
    requires within { at + S.RATE ≤ length buffer.now }
    requires lengths { IfSome source (λ s. length s.now ≡ length buffer.now) }
    ensures { (k : ℕ) → k < S.RATE
        → slice_index result k ≡ slice_index (given source.entry buffer.now) (at + k) }
{
    match source {
        Some(source) => copied::<S>(source, at),
        None => copied::<S>(buffer, at),
    }
}

// Xors the rate block of a buffer that begins at place `at` with the lanes' keystream. Here each byte is stated, and in
// `LaneState` each lane's block: once for both families.
#[inline(always)]
fn xor_block<S: LaneState>(state: S, buffer: &mut [u8], at: usize)
    requires { at + S.RATE ≤ length buffer.old }
    ensures written { (k : ℕ) → k < S.RATE
        → slice_index buffer.new (at + k)
        ≡ bit_xor (slice_index buffer.old (at + k)) (keystream_byte S.VARIANT (S.lane state) k) }
    ensures below { IsSameBefore at buffer.old buffer.new }
    ensures above { IsSameFrom (at + S.RATE) buffer.old buffer.new }
{
    state.xor_keystream(buffer, at);
}

// Xors `count` bytes of a buffer, beginning at place `at`, with the keystream after `total` bytes, within one rate
// block.
#[inline(never)]
fn xor_part<S: LaneState>(state: &S, total: u64, buffer: &mut [u8], at: usize, count: usize)
    requires within { at + count ≤ length buffer.old }
    requires one_block { total % S.RATE + count ≤ S.RATE }
    ensures written { (k : ℕ) → k < count
        → slice_index buffer.new (at + k)
        ≡ bit_xor (slice_index buffer.old (at + k))
        (keystream_byte S.VARIANT (S.lane state.now) (total % S.RATE + k)) }
    ensures below { IsSameBefore at buffer.old buffer.new }
    ensures above { IsSameFrom (at + count) buffer.old buffer.new }
{
    let place = (total % S::RATE as u64) as usize;
    let mut part = ZEROS;
    copy_part(&mut part, place, buffer, at, count);
    xor_block(*state, &mut part, 0);
    copy_part(buffer, at, &part, place, count);
}

/// Updates the lanes by a rate block. Inlined after a loop over rate blocks, it would take registers from that loop.
#[inline(never)]
pub fn absorb_block<S: LaneState>(state: &mut S, block: &RateBlock)
    requires { S.updates state.old + 1 < 2 ^ 64 }
    ensures lanes { (j : ℕ) → j < S.VARIANT.lanes
        → S.lane state.new j
        ≡ update S.VARIANT.family (S.lane state.old j) (share_at S.VARIANT j block.now 0) }
    ensures updates { S.updates state.new ≡ S.updates state.old + 1 }
{
    state.absorb(block, 0);
}

/// Takes `count` more bytes of one rate block, beginning at place `at` of `bytes`, into the open block. If they fill
/// it, the lanes are updated by it.
#[inline(never)]
pub fn absorb_part<S: LaneState>(
    state: &mut S,
    block: &mut RateBlock,
    total: u64,
    bytes: &[u8],
    at: usize,
    count: usize,
)
    requires within { at + count ≤ length bytes.now }
    requires one_block { total % S.RATE + count ≤ S.RATE }
    requires countable { S.updates state.old + count < 2 ^ 64 }
    ensures taken { (ad_bytes : ℕ) → Takes S.VARIANT
        (held_by S.VARIANT (S.lane state.old) (S.updates state.old) block.old ad_bytes total)
        (held_by S.VARIANT (S.lane state.new) (S.updates state.new) block.new ad_bytes
        (total + count))
        (bytes_at bytes.now at count) }
    ensures few { S.updates state.new ≤ S.updates state.old + count }
{
    let place = (total % S::RATE as u64) as usize;
    copy_part(&mut *block, place, bytes, at, count);
    if place + count == S::RATE {
        state.absorb(&*block, 0);
    }
}

/// Processes `count` more bytes of one rate block, beginning at place `at` of a buffer: they are xored with the
/// keystream, and the open block and the lanes take in the bytes that `pass` selects.
pub fn pass_part<S: LaneState>(
    state: &mut S,
    block: &mut RateBlock,
    total: u64,
    pass: Pass,
    buffer: &mut [u8],
    at: usize,
    count: usize,
)
    requires within { at + count ≤ length buffer.old }
    requires one_block { total % S.RATE + count ≤ S.RATE }
    requires countable { S.updates state.old + count < 2 ^ 64 }
    ensures passed { (ad_bytes : ℕ) → IsPassed S.VARIANT
        (held_by S.VARIANT (S.lane state.old) (S.updates state.old) block.old ad_bytes total)
        (held_by S.VARIANT (S.lane state.new) (S.updates state.new) block.new ad_bytes
        (total + count))
        pass (bytes_at buffer.old at count) (bytes_at buffer.new at count) }
    ensures below { IsSameBefore at buffer.old buffer.new }
    ensures above { IsSameFrom (at + count) buffer.old buffer.new }
    ensures few { S.updates state.new ≤ S.updates state.old + count }
{
    if count == 0 {
        return;
    }
    match pass {
        Pass::Seal => {
            let mut plain = ZEROS;
            copy_part(&mut plain, 0, buffer, at, count);
            xor_part(state, total, buffer, at, count);
            absorb_part(state, block, total, &plain, 0, count);
        }
        Pass::Open => {
            xor_part(state, total, buffer, at, count);
            absorb_part(state, block, total, buffer, at, count);
        }
        Pass::Keystream => {
            xor_part(state, total, buffer, at, count);
            absorb_part(state, block, total, &ZEROS, 0, count);
        }
    }
}

// The bytes that the lanes take in: `block`, which is `passed` after the xor, as `pass` selects.
#[inline(always)]
fn selected(pass: Pass, block: &RateBlock, passed: &RateBlock) -> RateBlock
    ensures { result ≡ absorbed pass block.now passed.now }
{
    match pass {
        Pass::Seal => *block,
        Pass::Open => *passed,
        Pass::Keystream => ZEROS,
    }
}

// Writes a block, xored with the keystream of `before`, to the rate block of a buffer that begins at place `at`, and
// returns what was written.
#[inline(always)]
fn write_xored<S: LaneState>(
    before: S,
    block: &RateBlock,
    buffer: &mut [u8],
    at: usize,
) -> RateBlock
    requires { at + S.RATE ≤ length buffer.old }
    ensures written { (k : ℕ) → k < S.RATE
        → slice_index buffer.new (at + k)
        ≡ bit_xor (slice_index block.now k) (keystream_byte S.VARIANT (S.lane before) k) }
    ensures result { (k : ℕ) → k < S.RATE → slice_index result k ≡ slice_index buffer.new (at + k) }
    ensures below { IsSameBefore at buffer.old buffer.new }
    ensures above { IsSameFrom (at + S.RATE) buffer.old buffer.new }
{
    let mut passed = *block;
    xor_block(before, &mut passed, 0);
    copy_part(buffer, at, &passed, 0, S::RATE);
    passed
}

// Updates the lanes by one rate block of a buffer. It is copied from `source` if there is one, and xored with the
// keystream of the lanes before the update. The lanes take in the bytes that `pass` selects.
//
// Only the copy of the block is read. So LLVM need not know that a source lies apart from the buffer, and keeps the
// block in registers. The result is written before the update, so that the old rows, which give the keystream, need no
// registers during it. Exception: a block of 16 bytes is sealed after the update, since otherwise x86-64-v2 has too few
// registers for the constants of the round.
#[inline(always)]
fn pass_block<S: LaneState>(
    state: &mut S,
    pass: Pass,
    source: Option<&[u8]>,
    buffer: &mut [u8],
    at: usize,
)
    requires within { at + S.RATE ≤ length buffer.old }
    requires lengths { IfSome source (λ s. length s.now ≡ length buffer.old) }
    requires countable { S.updates state.old + 1 < 2 ^ 64 }
    ensures written { (k : ℕ) → k < S.RATE
        → slice_index buffer.new (at + k)
        ≡ bit_xor (slice_index (given source.entry buffer.old) (at + k))
        (keystream_byte S.VARIANT (S.lane state.old) k) }
    ensures below { IsSameBefore at buffer.old buffer.new }
    ensures above { IsSameFrom (at + S.RATE) buffer.old buffer.new }
    ensures lanes { (j : ℕ) → j < S.VARIANT.lanes
        → S.lane state.new j
        ≡ update S.VARIANT.family (S.lane state.old j)
        (share_at S.VARIANT j (absorbed pass (given source.entry buffer.old) buffer.new) at) }
    ensures updates { S.updates state.new ≡ S.updates state.old + 1 }
{
    let before = *state;
    let block = copied_given::<S>(source, buffer, at);
    match pass {
        Pass::Seal if S::RATE == 16 => {
            state.absorb(&block, 0);
            write_xored(before, &block, buffer, at);
        }
        _ => {
            let passed = write_xored(before, &block, buffer, at);
            state.absorb(&selected(pass, &block, &passed), 0);
        }
    }
}

/// The lanes after `count` whole rate blocks of `bytes`, beginning at place `at`, if no rate block is open.
#[inline(always)]
pub fn absorb_whole<S: LaneState>(state: S, bytes: &[u8], at: usize, count: usize) -> S
    requires within { at + count * S.RATE ≤ length bytes.now }
    requires countable { S.updates state + count < 2 ^ 64 }
    ensures taken { (block : List ℕ) (ad_bytes total : ℕ) → IsUnopened total count S.RATE
        → Takes S.VARIANT
        (held_by S.VARIANT (S.lane state) (S.updates state) block ad_bytes total)
        (held_by S.VARIANT (S.lane result) (S.updates result) block ad_bytes
        (total + count * S.RATE))
        (bytes_at bytes.now at (count * S.RATE)) }
    ensures updates { S.updates result ≡ S.updates state + count }
{
    let rate = S::RATE;
    let mut state = state;
    for i in 0..count {
        state.absorb(bytes, at + i * rate);
    }
    state
}

/// The lanes after `count` whole rate blocks of a buffer, beginning at place `at`, if no rate block is open. Each is
/// copied from `source` if there is one, and xored with the keystream. The lanes take in the bytes that `pass` selects.
/// A block is copied right before its rounds, so that the processor can read the next ones during them.
#[inline(always)]
pub fn pass_whole<S: LaneState>(
    state: S,
    pass: Pass,
    source: Option<&[u8]>,
    buffer: &mut [u8],
    at: usize,
    count: usize,
) -> S
    requires within { at + count * S.RATE ≤ length buffer.old }
    requires lengths { IfSome source (λ s. length s.now ≡ length buffer.old) }
    requires countable { S.updates state + count < 2 ^ 64 }
    ensures passed { (block : List ℕ) (ad_bytes total : ℕ) → IsUnopened total count S.RATE
        → IsPassed S.VARIANT
        (held_by S.VARIANT (S.lane state) (S.updates state) block ad_bytes total)
        (held_by S.VARIANT (S.lane result) (S.updates result) block ad_bytes
        (total + count * S.RATE))
        pass (bytes_at (given source.entry buffer.old) at (count * S.RATE))
        (bytes_at buffer.new at (count * S.RATE)) }
    ensures below { IsSameBefore at buffer.old buffer.new }
    ensures above { IsSameFrom (at + count * S.RATE) buffer.old buffer.new }
    ensures updates { S.updates result ≡ S.updates state + count }
{
    let rate = S::RATE;
    let mut state = state;
    for i in 0..count {
        pass_block(&mut state, pass, source, buffer, at + i * rate);
    }
    state
}
