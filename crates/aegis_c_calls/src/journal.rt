//! The calls on the journal of a random-access file, which C writes and reads. A journal is written a write at a
//! time: a state, of the role [`JOURNAL`], has its MAC so far. Its bytes are those of `aegis_storage`, so what is
//! proved of crashes there is of them. `N` is the length of the variant's keys, in bytes.

ghost use Rattle.std.specs.Prelude.{◌≡◌, ◌≢◌, ◌+◌, ◌≤◌, ◌∷◌, [], ℕ, ℤ, IfErr, IsOk, List, OnOk, Some, length};
ghost use Rattle.aegis_base.specs.Variant.{Aegis128L, key_length};
ghost use Rattle.aegis_engine.specs.SavedContexts.{HasTaken};
ghost use Rattle.aegis_c_calls.specs.Private.{IsJournaled, IsOwnCommit, IsWhole, code_of};
ghost use Rattle.aegis_c_calls.specs.Codes.{entry_code, journal_code, number_of, success};
ghost use Rattle.aegis_storage.specs.Disk.{Writes, part_at};
ghost use Rattle.aegis_pages.specs.Commits.{journal_key};
ghost use Rattle.aegis_c_calls.specs.PageCalls.{HoldsWrites, IsHeaderIn, JournalBegin, JournalCheck, JournalEntry, JournalFinal, JournalNext, followed_by, header_block_of};

use crate::keys::key_alone;
use crate::page::check::check_header;
use crate::refusal::Refusal;
use crate::state::{ENDED, State, check_state};
use crate::variant::AEGIS128L;
use aegis_128::State128X1;
use aegis_base::{LaneState, MAX_AEAD_BYTES};
use aegis_pages::{
    FileHeader, FileLayout, HEADER_BLOCK_BYTES, is_accepted, journal_key, open_header_block,
};
use aegis_storage::bytes::array_of;
use aegis_storage::{MAX_JOURNAL_BYTES, MAX_STORAGE_BYTES, first_write, journaled_content};

/// A journal that is written.
pub const JOURNAL: u32 = 5;

/// How many bytes a journal has in front of its writes: those that name the file, and a nonce.
pub const START_BYTES: usize = 528;

/// How many bytes a write has in front of its own: its place and its length.
pub const HEAD_BYTES: usize = 16;

// How many bytes a journal has more than its MAC has taken in and the bytes of the next write.
const ADDED_BYTES: u64 = 568;

// Refuses a state that is no journal, or has a number past the limit.
fn check_journal(st: &State) -> Result<(), Refusal>
    ensures associated_data { OnOk result (st.now.context.ad_bytes ≡ 0) }
    ensures input { OnOk result (st.now.context.message_bytes ≤ MAX_AEAD_BYTES) }
    ensures right { OnOk result ((rest : ℤ) → journal_code st.now rest ≡ rest) }
    ensures wrong { IfErr result (λ refusal. (rest : ℤ)
        → journal_code st.now rest ≡ number_of refusal) }
    ensures refusal { IfErr result (λ refusal. number_of refusal ≡ number_of Refusal.WrongState) }
{
    if st.context.ad_bytes != 0 {
        return Err(Refusal::WrongState);
    }
    check_state(st, JOURNAL, JOURNAL)?;
    Ok(())
}

// The same for a state and the next write, which is refused too if it would pass the last place of a storage, or if the
// journal would be too long.
fn check_entry(st: &State, place: u64, bytes: usize) -> Result<(), Refusal>
    ensures associated_data { OnOk result (st.now.context.ad_bytes ≡ 0) }
    ensures input { OnOk result
        (st.now.context.message_bytes + (bytes + ADDED_BYTES) ≤ MAX_JOURNAL_BYTES) }
    ensures within { OnOk result (place + bytes ≤ MAX_STORAGE_BYTES) }
    ensures right { OnOk result (entry_code st.now place bytes ≡ success) }
    ensures wrong { IfErr result (λ refusal. entry_code st.now place bytes ≡ number_of refusal) }
    ensures not_done { IfErr result (λ refusal. number_of refusal ≢ success) }
{
    check_journal(st)?;
    let bytes = bytes as u64;
    if bytes > MAX_STORAGE_BYTES || place > MAX_STORAGE_BYTES - bytes {
        return Err(Refusal::FileTooLong);
    }
    if st.context.message_bytes > MAX_JOURNAL_BYTES as u64 - ADDED_BYTES {
        return Err(Refusal::FileTooLong);
    }
    if bytes > MAX_JOURNAL_BYTES as u64 - ADDED_BYTES - st.context.message_bytes {
        return Err(Refusal::FileTooLong);
    }
    Ok(())
}

// Takes the next bytes into the MAC. The counts are stored once more, as they are known.
fn absorb(st: &mut State, input: &[u8])
    requires associated_data { st.old.context.ad_bytes ≡ 0 }
    requires within { st.old.context.message_bytes + length input.now ≤ MAX_AEAD_BYTES }
    ensures taken { HasTaken Aegis128L st.old.context st.new.context input.now }
    ensures associated_data { st.new.context.ad_bytes ≡ 0 }
    ensures counted { st.new.context.message_bytes
        ≡ st.old.context.message_bytes + length input.now }
    ensures role { st.new.role ≡ st.old.role }
{
    let message_bytes = st.context.message_bytes + input.len() as u64;
    st.context.absorb::<State128X1>(input);
    st.context.ad_bytes = 0;
    st.context.message_bytes = message_bytes;
}

/// Begins the journal of a commit to a file at `st`, and writes its first bytes to `start`. Under one key a nonce must
/// be used for one journal only.
#[inline(never)]
pub fn begin<S: LaneState, const N: usize>(
    st: &mut State,
    page_bytes: u32,
    id: &[u8; 24],
    nonce: &[u8; 16],
    k: &[u8],
    start: &mut [u8; START_BYTES],
) -> Result<(), Refusal>
    requires { N ≡ key_length S.VARIANT.family }
    ensures call { JournalBegin (Some S.VARIANT) k.now id.now nonce.now page_bytes st.old st.new
        start.old start.new (code_of result) }
    ensures begun { OnOk result ((all : Writes)
        → IsJournaled (journal_key S.VARIANT k.now) all all st.new start.new) }
{
    let key = key_alone::<N>(k)?;
    check_header(page_bytes, 0)?;
    let layout = FileLayout::<S, N>::new(key, page_bytes, id);
    *start = array_of(&[&layout.journal_beginning(), nonce]);
    let journal_key = journal_key::<S, N>(key);
    st.context.begin::<State128X1>(&journal_key, nonce, &[]);
    st.context.absorb::<State128X1>(&[0; 8]);
    st.variant = AEGIS128L;
    st.role = JOURNAL;
    Ok(())
}

/// Takes in the next write, and writes what it has in front of its bytes in the journal to `head`.
#[inline(never)]
pub fn entry(
    st: &mut State,
    place: u64,
    bytes: &[u8],
    head: &mut [u8; HEAD_BYTES],
) -> Result<(), Refusal>
    ensures call { JournalEntry place bytes.now st.old st.new head.old head.new (code_of result) }
    ensures taken { OnOk result ((key : List ℕ) (all rest : Writes) (before : List ℕ)
        → IsJournaled key all ((place, bytes.now) ∷ rest) st.old before
        → IsJournaled key all rest st.new (followed_by (followed_by before head.new) bytes.now)) }
{
    check_entry(st, place, bytes.len())?;
    *head = array_of(&[&place.to_le_bytes(), &(bytes.len() as u64).to_le_bytes()]);
    absorb(st, head);
    absorb(st, bytes);
    Ok(())
}

/// Writes the MAC with which the journal ends to `mac`, and ends the state.
#[inline(never)]
pub fn last(st: &mut State, mac: &mut [u8; 32]) -> Result<(), Refusal>
    ensures call { JournalFinal st.old st.new mac.old mac.new (code_of result) }
    ensures whole { OnOk result ((key : List ℕ) (all : Writes) (before : List ℕ)
        → IsJournaled key all [] st.old before
        → IsWhole key all (followed_by before mac.new)) }
{
    check_journal(st)?;
    *mac = st.context.mac::<State128X1, 32>();
    *st = ENDED;
    Ok(())
}

// Returns the block of the header of a file that begins with these bytes, or `None` if they are fewer.
fn header_block(file: &[u8]) -> Option<[u8; HEADER_BLOCK_BYTES]>
    ensures { result ≡ header_block_of file.now }
{
    if file.len() < HEADER_BLOCK_BYTES {
        return None;
    }
    let mut header_block = [0; HEADER_BLOCK_BYTES];
    header_block.copy_from_slice(&file[..HEADER_BLOCK_BYTES]);
    Some(header_block)
}

// Returns the header of a file that begins with these bytes, or `None` if it has none under the key.
fn header_in<S: LaneState, const N: usize>(key: &[u8; N], file: &[u8]) -> Option<FileHeader>
    requires { N ≡ key_length S.VARIANT.family }
    ensures { IsHeaderIn S.VARIANT key.now file.now result }
{
    let mut header_block = header_block(file)?;
    open_header_block::<S, N>(key, &mut header_block)
}

/// Decides what is to be made of a journal: it is refused, or so many bytes of writes from [`START_BYTES`] on are to be
/// made again, or none, and then it is to be emptied. `file` is what its file begins with, at least the block of the
/// header, or the whole file if that is shorter.
#[inline(never)]
pub fn check<S: LaneState, const N: usize>(
    file: &[u8],
    k: &[u8],
    journal: &[u8],
    writes: &mut usize,
) -> Result<(), Refusal>
    requires { N ≡ key_length S.VARIANT.family }
    ensures call { JournalCheck (Some S.VARIANT) k.now file.now journal.now writes.old writes.new
        (code_of result) }
    ensures accepted { (all : Writes) → IsWhole (journal_key S.VARIANT k.now) all journal.now
        → IsOwnCommit S.VARIANT file.now all → length k.now ≡ N → IsOk result }
    ensures found { OnOk result ((all : Writes)
        → IsWhole (journal_key S.VARIANT k.now) all journal.now
        → HoldsWrites all (part_at journal.now 528 writes.new)) }
{
    let key = key_alone::<N>(k)?;
    let header = header_in::<S, N>(key, file);
    let journal_key = journal_key::<S, N>(key);
    let content = journaled_content(&journal_key, &[], journal);
    if !is_accepted::<S, N>(key, header_block(file), header, content, journal) {
        return match header {
            Some(_) => Err(Refusal::WrongJournal),
            None => Err(Refusal::InvalidTag),
        };
    }
    let Some(content) = content else {
        *writes = 0;
        return Ok(());
    };
    *writes = content.len();
    Ok(())
}

/// Finds the first of the writes: its place, and how many bytes it has. They come after [`HEAD_BYTES`], and after them
/// the next write.
#[inline(never)]
pub fn next(writes: &[u8], place: &mut u64, len: &mut usize) -> Result<(), Refusal>
    ensures { JournalNext writes.now place.old place.new len.old len.new (code_of result) }
{
    let Some((found, bytes, _rest)) = first_write(writes) else {
        return Err(Refusal::NoWrite);
    };
    *place = found;
    *len = bytes.len();
    Ok(())
}
