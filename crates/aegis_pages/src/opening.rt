//! Opening a file: whether its journal is its own, and what recovery makes of both.

ghost use Rattle.std.specs.Prelude.{◌≡◌, ◌≢◌, ◌+◌, ◌≤◌, ◌↔◌, [], Err, IfErr, IfNone, IfOk, IfSome, IsOk, IsTrue, List, None, OnOk, Option, Some, length, option_map, take, ℕ};
ghost use Rattle.aegis_base.specs.Variant.{key_length};
ghost use Rattle.aegis_storage.specs.Disk.{Writes};
ghost use Rattle.aegis_storage.specs.Journal.{AreWithinStorage, entries};
ghost use Rattle.aegis_pages.specs.Commits.{AreWritesOf, BeginsWith, EndsWith, Fits, IsJournalAccepted, IsLeftAlone, IsLeftByCommit, IsOfAnother, IsOfCommit, IsOpenRefusal, MakesNoOther, RecoversContentsUnlessOtherJournal, RestsAtContents, journal_key};
ghost use Rattle.aegis_pages.specs.Layouts.{IsPageSize, HasHeader};

use crate::error::PagesError;
use crate::header::{FileHeader, read_header, read_header_block};
use crate::layout::{
    FileLayout, HEADER_BLOCK_BYTES, HEADER_PLAINTEXT_BYTES, JOURNAL_MAGIC, MAX_CONTENTS_BYTES,
    PLAINTEXT_HEADER_BYTES, TAG_BYTES,
};
use aegis::aegis128l::Key;
use aegis_base::LaneState;
use aegis_engine::mac_at_once;
use aegis_storage::{BEGINNING_BYTES, Storage, first_write, journaled_content, read_all, recover};
use std::alloc::Allocator;
use std::io;
use std::io::ErrorKind;

/// Returns the key of the journals of files under a key.
pub fn journal_key<L: LaneState, const KEY_BYTES: usize>(key: &[u8; KEY_BYTES]) -> Key
    requires { KEY_BYTES ≡ key_length L.VARIANT.family }
    ensures { result ≡ journal_key L.VARIANT key.now }
{
    mac_at_once::<L, 16>(key, &[255; KEY_BYTES], &JOURNAL_MAGIC)
}

// Returns whether a write makes a file begin with these bytes.
fn begins_with(place: u64, bytes: &[u8], head: &[u8]) -> bool
    ensures { IsTrue result ↔ (place ≡ 0) × (take (length head.now) bytes.now ≡ head.now) }
{
    if place != 0 || bytes.len() < head.len() {
        return false;
    }
    bytes[..head.len()] == head[..]
}

// Returns whether the first write in the content of a journal makes a file begin with these bytes.
fn is_begun_by(head: &[u8], content: &[u8]) -> bool
    ensures { (writes : Writes) → AreWithinStorage writes → content.now ≡ entries writes
        → IsTrue result ↔ BeginsWith head.now writes }
{
    match first_write(content) {
        Some((place, bytes, _rest)) => begins_with(place, bytes, head),
        None => false,
    }
}

// Returns whether the last write does.
fn is_ended_by(head: &[u8], content: &[u8]) -> bool
    ensures { (writes : Writes) → AreWithinStorage writes → content.now ≡ entries writes
        → IsTrue result ↔ EndsWith head.now writes }
{
    let mut rest = content;
    let mut begins = false;
    'writes: while !rest.is_empty() {
        let Some((place, bytes, after)) = first_write(rest) else {
            return false;
        };
        begins = begins_with(place, bytes, head);
        rest = after;
    }
    begins
}

// Returns whether a file that begins with this header is that of before a commit, whose first write is of the header
// of before, or that of after it, whose last write is of the next header. The writes are those in the content of a
// journal.
fn is_of_commit(head: &[u8], content: &[u8]) -> bool
    ensures { (writes : Writes) → AreWithinStorage writes → content.now ≡ entries writes
        → IsTrue result ↔ IsOfCommit head.now writes }
{
    is_begun_by(head, content) || is_ended_by(head, content)
}

// Returns whether a journal has more than a beginning, and does not begin with that of this file: it is that of another
// one, or no journal. One that has no more is of use to nobody.
fn is_of_another(beginning: &[u8; BEGINNING_BYTES], journal: &[u8]) -> bool
    ensures { IsTrue result ↔ IsOfAnother beginning.now journal.now }
{
    journal.len() > BEGINNING_BYTES && !begins_with(0, journal, beginning)
}

/// Returns whether a journal may be made again, or emptied. `header_block` is that of its file, if the file has as many
/// bytes, and `header` is the header in it, if it has one. `content` is that of the journal, if it is a whole one.
///
/// A whole journal may be made again if its commit began or ended with the file's header, byte for byte, or if the file
/// has no header. One that is not whole may be emptied if the file has a header and the journal is not that of another
/// file.
pub fn is_accepted<L: LaneState, const KEY_BYTES: usize>(
    key: &[u8; KEY_BYTES],
    header_block: Option<[u8; HEADER_BLOCK_BYTES]>,
    header: Option<FileHeader>,
    content: Option<&[u8]>,
    journal: &[u8],
) -> bool
    requires key_bytes { KEY_BYTES ≡ key_length L.VARIANT.family }
    requires size { IfSome header (λ header. IsPageSize header.page_bytes) }
    ensures { (writes : Option Writes) → AreWritesOf writes (option_map (λ c. c.now) content.entry)
        → IsTrue result
        ↔ IsJournalAccepted L.VARIANT key.now header_block header writes journal.now }
{
    let Some(header) = header else {
        return content.is_some();
    };
    let Some(content) = content else {
        let beginning = FileLayout::<L, KEY_BYTES>::new(
            key,
            header.page_bytes,
            &header.id,
        ).journal_beginning();
        return !is_of_another(&beginning, journal);
    };
    match header_block {
        Some(header_block) => {
            let head = PLAINTEXT_HEADER_BYTES + (HEADER_PLAINTEXT_BYTES + (KEY_BYTES + TAG_BYTES));
            is_of_commit(&header_block[..head], content)
        }
        None => false,
    }
}

// Returns the error for a journal that is not accepted, by the header of its file.
fn left_alone(header: Option<FileHeader>) -> PagesError
    ensures alone { IsLeftAlone result }
    ensures some { IfSome header (λ _. result ≡ PagesError.Journal) }
    ensures none { IfNone header (result ≡ PagesError.Header) }
{
    match header {
        Some(_) => PagesError::Journal,
        None => PagesError::Header,
    }
}

/// Completes a commit that a crash or an error cut short, or leaves out all of it, and returns the file's header. To be
/// called on a file that is opened.
///
/// A journal that is whole under this key, and whose commit began or ended with the file's header, byte for byte, is
/// made again and emptied; so it is also if the file has no header. A torn one is emptied if the file has a header.
/// Otherwise nothing is changed: the error is [`PagesError::Journal`] for a whole journal of another commit, or one
/// that does not begin with the beginning of this file's, and [`PagesError::Header`] if the file has no header and the
/// journal is not whole. A commit of a file whose pages all open, and a crash, lead to neither, without a forged header
/// or another whole journal.
///
/// The others are [`PagesError::Read`], [`PagesError::Write`] and [`PagesError::OutOfMemory`]. What a commit and a
/// crash left, another call can still recover.
pub fn recover_file<
    S: Storage,
    J: Storage,
    L: LaneState,
    const KEY_BYTES: usize,
    A: Allocator + Copy,
>(
    alloc: A,
    storage: &mut S,
    journal: &mut J,
    key: &[u8; KEY_BYTES],
) -> Result<FileHeader, PagesError>
    requires { KEY_BYTES ≡ key_length L.VARIANT.family }
    ensures header { IfOk result (λ header.
        HasHeader L.VARIANT key.now header (S.bytes storage.new)) }
    ensures kept { OnOk result (J.bytes journal.old ≡ Some []
        → IfSome (S.bytes storage.old) (λ xs. S.bytes storage.new ≡ Some xs)) }
    ensures recovers { (before now : List ℕ)
        → (batch : RecoversContentsUnlessOtherJournal L.VARIANT key.now before now
        (S.disk storage.old) (J.disk journal.old))
        → IfSome (S.bytes storage.old) (λ file.
        IfSome (J.bytes journal.old) (MakesNoOther batch file))
        → RecoversContentsUnlessOtherJournal L.VARIANT key.now before now
        (S.disk storage.new) (J.disk journal.new) }
    ensures rests { OnOk result ((before now : List ℕ)
        → (batch : RecoversContentsUnlessOtherJournal L.VARIANT key.now before now
        (S.disk storage.old) (J.disk journal.old))
        → IfSome (S.bytes storage.old) (λ file.
        IfSome (J.bytes journal.old) (MakesNoOther batch file))
        → RestsAtContents L.VARIANT key.now before now (S.disk storage.new) (J.disk journal.new)) }
    ensures fits { OnOk result (IfSome (S.bytes storage.old) (λ file.
        IfSome (J.bytes journal.old) (Fits L.VARIANT key.now file))) }
    ensures accepts { IsLeftByCommit L.VARIANT key.now (S.bytes storage.old) (J.bytes journal.old)
        (S.disk storage.old) (J.disk journal.old)
        → (result ≢ Err PagesError.Journal) × (result ≢ Err PagesError.Header) }
    ensures alone { IfErr result (λ error. IsLeftAlone error
        → (storage.new ≡ storage.old) × (journal.new ≡ journal.old)) }
    ensures refused { IfErr result (IsOpenRefusal L.VARIANT key.now (S.bytes storage.old)
        (J.bytes journal.old)) }
{
    let content = match read_all(alloc, journal) {
        Ok(content) => content,
        Err(error) => return Err(PagesError::Read(error)),
    };
    let header_block = read_header_block(storage)?;
    let header = read_header::<S, L, KEY_BYTES>(storage, key)?;
    let journal_key = journal_key::<L, KEY_BYTES>(key);
    let writes = journaled_content(&journal_key, &[], &content);
    if !is_accepted::<L, KEY_BYTES>(key, header_block, header, writes, &content) {
        return Err(left_alone(header));
    }
    match recover(alloc, storage, journal, &journal_key, &[]) {
        Ok(()) => {}
        Err(error) => return Err(PagesError::Write(error)),
    }
    match read_header::<S, L, KEY_BYTES>(storage, key)? {
        Some(header) => Ok(header),
        None => Err(PagesError::Read(io::Error::from(ErrorKind::InvalidData))),
    }
}
