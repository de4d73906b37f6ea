//! The journal of a commit: one that is made of writes is whole, and is taken apart into the same writes.

ghost use Rattle.std.specs.Prelude.{◌≡◌, ◌+◌, ◌<◌, ◌≤◌, ◌∷◌, [], IfOk, IsOk, List, OnOk, length, ℕ};
ghost use Rattle.aegis_base.specs.Variant.{key_length};
ghost use Rattle.aegis_pages.specs.Commits.{journal_key};
ghost use Rattle.aegis_storage.specs.Disk.{Writes, part_at};
ghost use Rattle.aegis_c_calls.specs.PageCalls.{HoldsWrites, followed_by};
ghost use Rattle.aegis_c_calls.specs.Private.{IsJournaled, IsOwnCommit, IsWhole};

use aegis_base::LaneState;
use aegis_c_calls::journal::{HEAD_BYTES, START_BYTES, begin, check, entry, last, next};
use aegis_c_calls::refusal::Refusal;
use aegis_c_calls::state::State;

/// Begins a journal, and takes in its first write.
pub fn first_journaled<S: LaneState, const N: usize>(
    st: &mut State,
    page_bytes: u32,
    id: &[u8; 24],
    nonce: &[u8; 16],
    k: &[u8],
    place: u64,
    bytes: &[u8],
    start: &mut [u8; START_BYTES],
    head: &mut [u8; HEAD_BYTES],
) -> Result<(), Refusal>
    requires { N ≡ key_length S.VARIANT.family }
    ensures { OnOk result ((rest : Writes) → IsJournaled (journal_key S.VARIANT k.now)
        ((place, bytes.now) ∷ rest) rest st.new
        (followed_by (followed_by start.new head.new) bytes.now)) }
{
    begin::<S, N>(st, page_bytes, id, nonce, k, start)?;
    entry(st, place, bytes, head)?;
    Ok(())
}

/// Takes in the last write of a journal, and ends it.
pub fn last_journaled(
    st: &mut State,
    place: u64,
    bytes: &[u8],
    head: &mut [u8; HEAD_BYTES],
    mac: &mut [u8; 32],
) -> Result<(), Refusal>
    ensures { OnOk result ((key : List ℕ) (all : Writes) (before : List ℕ)
        → IsJournaled key all ((place, bytes.now) ∷ []) st.old before
        → IsWhole key all
        (followed_by (followed_by (followed_by before head.new) bytes.now) mac.new)) }
{
    entry(st, place, bytes, head)?;
    last(st, mac)?;
    Ok(())
}

/// Makes a journal of two writes. What the calls wrote, joined with the bytes of the writes, is the journal.
pub fn two_writes_journaled<S: LaneState, const N: usize>(
    st: &mut State,
    page_bytes: u32,
    id: &[u8; 24],
    nonce: &[u8; 16],
    k: &[u8],
    places: (u64, u64),
    first: &[u8],
    second: &[u8],
    start: &mut [u8; START_BYTES],
    first_head: &mut [u8; HEAD_BYTES],
    second_head: &mut [u8; HEAD_BYTES],
    mac: &mut [u8; 32],
) -> Result<(), Refusal>
    requires { N ≡ key_length S.VARIANT.family }
    ensures { OnOk result (IsWhole (journal_key S.VARIANT k.now)
        ((places.0, first.now) ∷ (places.1, second.now) ∷ [])
        (followed_by (followed_by (followed_by (followed_by (followed_by start.new
        first_head.new) first.now) second_head.new) second.now) mac.new)) }
{
    first_journaled::<S, N>(
        st, page_bytes, id, nonce, k, places.0, first, start, first_head,
    )?;
    last_journaled(st, places.1, second, second_head, mac)?;
    Ok(())
}

/// Takes the first write out of the writes of a journal. It is the one that was written there, and so is the rest.
pub fn first_found(writes: &[u8]) -> Result<(u64, &[u8], &[u8]), Refusal>
    ensures first { IfOk result (λ found. (write : ℕ × List ℕ) (after : Writes)
        → HoldsWrites (write ∷ after) writes.now → (found.0, found.1.now) ≡ write) }
    ensures rest { IfOk result (λ found. (write : ℕ × List ℕ) (after : Writes)
        → HoldsWrites (write ∷ after) writes.now → HoldsWrites after found.2.now) }
{
    let mut place = 0;
    let mut len = 0;
    next(writes, &mut place, &mut len)?;
    let (_head, rest) = writes.split_at(HEAD_BYTES);
    let (bytes, after) = rest.split_at(len);
    Ok((place, bytes, after))
}

/// Returns how many bytes of writes a journal has. A whole one is accepted if its commit began or ended with the header
/// with which the file begins, and those are its writes.
pub fn length_found<S: LaneState, const N: usize>(
    file: &[u8],
    k: &[u8; N],
    journal: &[u8],
) -> Result<usize, Refusal>
    requires { N ≡ key_length S.VARIANT.family }
    ensures accepted { (writes : Writes)
        → IsWhole (journal_key S.VARIANT k.now) writes journal.now
        → IsOwnCommit S.VARIANT file.now writes → IsOk result }
    ensures within { IfOk result (λ len. 0 < len → 528 + len ≤ length journal.now) }
    ensures found { IfOk result (λ len. (writes : Writes)
        → IsWhole (journal_key S.VARIANT k.now) writes journal.now
        → HoldsWrites writes (part_at journal.now 528 len)) }
{
    let mut len = 0;
    check::<S, N>(file, k, journal, &mut len)?;
    Ok(len)
}

/// Finds the writes of a journal.
pub fn writes_found<'a, S: LaneState, const N: usize>(
    file: &[u8],
    k: &[u8; N],
    journal: &'a [u8],
) -> Result<&'a [u8], Refusal>
    requires { N ≡ key_length S.VARIANT.family }
    ensures { IfOk result (λ found. (writes : Writes)
        → IsWhole (journal_key S.VARIANT k.now) writes journal.now
        → HoldsWrites writes found.now) }
{
    let len = length_found::<S, N>(file, k, journal)?;
    if len == 0 {
        return Ok(&journal[..0]);
    }
    let (_start, rest) = journal.split_at(START_BYTES);
    let (writes, _mac) = rest.split_at(len);
    Ok(writes)
}

/// Finds the two writes of a journal of two.
pub fn two_writes_found<'a, S: LaneState, const N: usize>(
    file: &[u8],
    k: &[u8; N],
    journal: &'a [u8],
) -> Result<((u64, &'a [u8]), (u64, &'a [u8])), Refusal>
    requires { N ≡ key_length S.VARIANT.family }
    ensures first { IfOk result (λ found. (first second : ℕ × List ℕ)
        → IsWhole (journal_key S.VARIANT k.now) (first ∷ second ∷ []) journal.now
        → (found.0.0, found.0.1.now) ≡ first) }
    ensures second { IfOk result (λ found. (first second : ℕ × List ℕ)
        → IsWhole (journal_key S.VARIANT k.now) (first ∷ second ∷ []) journal.now
        → (found.1.0, found.1.1.now) ≡ second) }
{
    let writes = writes_found::<S, N>(file, k, journal)?;
    let (place, bytes, rest) = first_found(writes)?;
    let (second_place, second_bytes, _rest) = first_found(rest)?;
    Ok(((place, bytes), (second_place, second_bytes)))
}
