//! Commits that are cut at each call, and journals that are not the file's.

use super::{
    Counter, ID, InVectors, KEY, TestPages, commit, copy, create, first, is_all, open, open_with,
    part_mut, read, small_file, write,
};
use aegis_256::State256X1;
use aegis_pages::{PagesError, recover_file};
use aegis_storage::BEGINNING_BYTES;
use std::alloc::Global;
use std::test::Fail;
use test_storage::disk::TestDisk;
use test_storage::tears::{left_of, left_with_beginning};

/// More calls than are made.
pub const ALL_CALLS: u64 = 1000;

// More calls than a commit makes.
const CALLS: u64 = 14;

// Ways in which a crash may leave up to six changes: each digit is that of one, in base 4.
const PARTS: [u32; 6] = [0, 0xfff, 0x555, 0xaaa, 0x39c, 0x1b1];

const ORDERS: usize = 2;

// How many calls opening makes of the storage, and of the journal.
const OPENING_CALLS: (u64, u64) = (7, 7);

// How many calls of the storage a commit makes before it writes.
const READING_CALLS: u64 = 2;

/// Sealed pages over disks.
type OnDisks = TestPages<TestDisk, TestDisk>;

// Which contents a file has: bytes of 5, as before the commit, or of 6, as after it.
fn contents_of(pages: &mut InVectors) -> Result<Option<u8>, PagesError> {
    let mut out = [9; 1300];
    let count = read(pages, 0, &mut out)?;
    if count == 1000 && is_all(first(&out, 1000), 5) {
        Ok(Some(5))
    } else if count == 1300 && is_all(&out, 6) {
        Ok(Some(6))
    } else {
        Ok(None)
    }
}

// Writes other contents over those of the small file, on disks that fail after these numbers of calls.
fn written(alloc: Global, storage_calls: u64, journal_calls: u64) -> Result<OnDisks, Fail> {
    let storage_calls = storage_calls.wrapping_add(OPENING_CALLS.0);
    let journal_calls = journal_calls.wrapping_add(OPENING_CALLS.1);
    let storage = TestDisk::new(alloc, small_file(alloc)?, storage_calls);
    let journal = TestDisk::new(alloc, Vec::new(alloc), journal_calls);
    let mut pages = open_with(alloc, storage, journal, Counter(1 << 21), &KEY)?;
    write(&mut pages, 0, &[6; 1300])?;
    Ok(pages)
}

/// Commits the other contents. Returns the disks, and whether the commit succeeded.
pub fn cut(
    alloc: Global,
    storage_calls: u64,
    journal_calls: u64,
) -> Result<(TestDisk, TestDisk, bool), Fail> {
    let mut pages = written(alloc, storage_calls, journal_calls)?;
    let is_done = commit(&mut pages).is_ok();
    let (storage, journal) = pages.into_storages();
    Ok((storage, journal, is_done))
}

// Whether the file opens to one of the contents, or to the one after the commit if it is done, and again after it was
// closed; and with an empty journal then.
fn opens(
    alloc: Global,
    file: Vec<u8>,
    journal: Vec<u8>,
    is_done: bool,
) -> Result<bool, PagesError> {
    let mut pages = open_with(alloc, file, journal, Counter(1 << 22), &KEY)?;
    let first = contents_of(&mut pages)?;
    let (file, journal) = pages.into_storages();
    let again = contents_of(&mut open(alloc, file, &KEY)?)?;
    let is_contents = first == Some(6) || (!is_done && first == Some(5));
    Ok(journal.is_empty() && first == again && is_contents)
}

// The disks after an opening of what a crash left that is cut.
fn reopened(
    alloc: Global,
    file: &[u8],
    journal: &[u8],
    calls: u64,
) -> Result<(TestDisk, TestDisk), Fail> {
    let mut storage = TestDisk::new(alloc, file.to_vec(alloc)?, calls);
    let mut journal = TestDisk::new(alloc, journal.to_vec(alloc)?, calls);
    let _ = recover_file::<_, _, State256X1, 32, Global>(alloc, &mut storage, &mut journal, &KEY);
    Ok((storage, journal))
}

// Whether the file opens to contents after an opening that is cut at each call.
fn opens_after_cuts(
    alloc: Global,
    file: &[u8],
    journal: &[u8],
    journal_parts: u32,
    order: usize,
    is_done: bool,
) -> Result<bool, Fail> {
    for calls in 0..12u64 {
        let (torn, torn_journal) = reopened(alloc, file, journal, calls)?;
        let file = left_of(&torn, 0x39c, order)?;
        let journal = left_of(&torn_journal, journal_parts, order)?;
        if !opens(alloc, file, journal, is_done)? {
            return Ok(false);
        }
    }
    Ok(true)
}

// Whether whatever a crash leaves after a commit that was cut opens to contents, also after an opening that was cut.
fn all_open(alloc: Global, storage_calls: u64, journal_calls: u64) -> Result<bool, Fail> {
    let (storage, journal, is_done) = cut(alloc, storage_calls, journal_calls)?;
    for order in 0..ORDERS {
        for parts in PARTS {
            for journal_parts in [0, 1, 2, 3] {
                let file = left_of(&storage, parts, order)?;
                let journal = left_of(&journal, journal_parts, order)?;
                if parts % 7 == 0
                    && !opens_after_cuts(alloc, &file, &journal, parts % 4, order, is_done)?
                {
                    return Ok(false);
                }
                if !opens(alloc, file, journal, is_done)? {
                    return Ok(false);
                }
            }
        }
    }
    Ok(true)
}

#[test]
fn a_commit_that_is_cut_at_each_call(rt: HostRuntime) -> Result<(), Fail> {
    let alloc = rt.alloc();
    for calls in 0..CALLS {
        assert!(rt;
            all_open(alloc, calls, ALL_CALLS)?,
            "storage, {calls} calls"
        );
        assert!(rt;
            all_open(alloc, ALL_CALLS, calls)?,
            "journal, {calls} calls"
        );
    }
    Ok(())
}

// The beginning of the journals of a file whose ID has this byte throughout: what names the file, and zeros.
fn beginning_of(id: u8) -> [u8; BEGINNING_BYTES] {
    let mut beginning = [0; BEGINNING_BYTES];
    beginning[..9].copy_from_slice(b"AGJ1\x21\x00\x01\x00\x00");
    beginning[9..33].fill(id);
    beginning
}

// What a torn beginning may be: its first `own` bytes are the file's, and the others are `other`, or those of another
// file.
fn torn_beginning(own: usize, other: Option<u8>) -> [u8; BEGINNING_BYTES] {
    let mut beginning = match other {
        Some(byte) => [byte; BEGINNING_BYTES],
        None => beginning_of(1),
    };
    let own = own.min(BEGINNING_BYTES);
    beginning[..own].copy_from_slice(&beginning_of(ID[0])[..own]);
    beginning
}

// Whether the file opens to contents, whatever a crash leaves of the beginning of the journal after a commit that was
// cut.
fn any_beginning_opens(alloc: Global, journal_calls: u64) -> Result<bool, Fail> {
    let (storage, journal, is_done) = cut(alloc, ALL_CALLS, journal_calls)?;
    if journal.pending.is_empty() {
        return Ok(true);
    }
    for own in [0, 4, 33, BEGINNING_BYTES] {
        for other in [None, Some(0), Some(0xee)] {
            for len in [1, 33, 511, 512, 513, 5000] {
                let torn = left_with_beginning(&journal, len, &torn_beginning(own, other))?;
                if !opens(alloc, left_of(&storage, 0, 0)?, torn, is_done)? {
                    return Ok(false);
                }
            }
        }
    }
    Ok(true)
}

// A journal that is torn within its first bytes, also to what looks like that of another file.
#[test]
fn a_torn_beginning(rt: HostRuntime) -> Result<(), Fail> {
    for calls in 0..CALLS {
        assert!(rt; any_beginning_opens(rt.alloc(), calls)?, "{calls} calls");
    }
    Ok(())
}

// After a commit that failed each call returns an error that says so.
#[test]
fn a_broken_file(rt: HostRuntime) -> Result<(), Fail> {
    let mut pages = written(rt.alloc(), READING_CALLS, ALL_CALLS)?;
    assert!(rt; matches!(commit(&mut pages), Err(PagesError::Write(_))));
    let mut out = [9; 10];
    assert!(rt; matches!(read(&mut pages, 0, &mut out), Err(PagesError::Broken)));
    assert!(rt; matches!(write(&mut pages, 0, &out), Err(PagesError::Broken)));
    assert!(rt; matches!(commit(&mut pages), Err(PagesError::Broken)));
    assert!(rt; is_broken(&mut pages));
    Ok(())
}

// Whether the length cannot be set, nor the commitment read.
fn is_broken(pages: &mut OnDisks) -> bool {
    matches!(pages.set_len(3), Err(PagesError::Broken))
        && matches!(pages.commitment(), Err(PagesError::Broken))
}

// A file and the whole journal of its next commit, which was not applied.
fn committing(alloc: Global) -> Result<(Vec<u8>, Vec<u8>), Fail> {
    let (storage, journal, _) = cut(alloc, READING_CALLS, ALL_CALLS)?;
    Ok((left_of(&storage, 0, 0)?, left_of(&journal, 0xfff, 0)?))
}

// Recovers a file, and returns the length of its contents.
fn recovered(
    alloc: Global,
    file: &mut Vec<u8>,
    journal: &mut Vec<u8>,
    key: &[u8; 32],
) -> Result<u64, PagesError> {
    Ok(recover_file::<_, _, State256X1, 32, Global>(alloc, file, journal, key)?.len)
}

// Whether a file is recovered, with contents of this length, and leaves the journal empty.
fn recovers(alloc: Global, file: &[u8], journal: &[u8], len: u64) -> Result<bool, Fail> {
    let mut file = file.to_vec(alloc)?;
    let mut journal = journal.to_vec(alloc)?;
    let found = recovered(alloc, &mut file, &mut journal, &KEY)?;
    Ok(journal.is_empty() && found == len)
}

// Why a file is not recovered, if the journal is left as it is.
fn refusal(
    alloc: Global,
    file: &[u8],
    journal: &[u8],
    key: &[u8; 32],
) -> Result<Option<PagesError>, Fail> {
    let mut file = file.to_vec(alloc)?;
    let mut left = journal.to_vec(alloc)?;
    match recovered(alloc, &mut file, &mut left, key) {
        Err(error) if left.as_slice() == journal => Ok(Some(error)),
        _ => Ok(None),
    }
}

// A journal that may be of use to someone is left as it is: under a wrong key, and of another file, unless it has no
// more than a beginning.
#[test]
fn journals_of_others(rt: HostRuntime) -> Result<(), Fail> {
    let alloc = rt.alloc();
    let (file, journal) = committing(alloc)?;
    assert!(rt; recovers(alloc, &file, &journal, 1300)?);
    let refused = refusal(alloc, &file, &journal, &[8; 32])?;
    assert!(rt; matches!(refused, Some(PagesError::Header)));
    let (empty, no_journal): (Vec<u8>, Vec<u8>) = (Vec::new(alloc), Vec::new(alloc));
    let (other, _) = create(alloc, empty, no_journal, &[1; 24], 256)?.into_storages();
    for torn in [journal.as_slice(), first(&journal, 600)] {
        let refused = refusal(alloc, &other, torn, &KEY)?;
        assert!(rt; matches!(refused, Some(PagesError::Journal)));
    }
    assert!(rt; recovers(alloc, &other, first(&journal, BEGINNING_BYTES), 0)?);
    Ok(())
}

// A journal of an older state of the file is left as it is, and one that is torn is not.
#[test]
fn journals_of_other_states(rt: HostRuntime) -> Result<(), Fail> {
    let alloc = rt.alloc();
    let (file, journal) = committing(alloc)?;
    assert!(rt; recovers(alloc, &file, first(&journal, 600), 1000)?);
    let mut pages = open(alloc, file, &KEY)?;
    pages.set_len(900)?;
    commit(&mut pages)?;
    commit(&mut pages)?;
    let (newer, _) = pages.into_storages();
    let refused = refusal(alloc, &newer, &journal, &KEY)?;
    assert!(rt; matches!(refused, Some(PagesError::Journal)));
    Ok(())
}

// A whole journal gives a file its header back, and one that is torn is left as it is.
#[test]
fn journals_of_a_file_with_no_header(rt: HostRuntime) -> Result<(), Fail> {
    let alloc = rt.alloc();
    let (mut file, journal) = committing(alloc)?;
    part_mut(&mut file, 0, 512).fill(0);
    assert!(rt; recovers(alloc, &file, &journal, 1300)?);
    let refused = refusal(alloc, &file, first(&journal, 200), &KEY)?;
    assert!(rt; matches!(refused, Some(PagesError::Header)));
    Ok(())
}

// A commit over a journal that is not empty is refused.
#[test]
fn a_journal_that_is_not_empty(rt: HostRuntime) -> Result<(), Fail> {
    let (file, journal) = committing(rt.alloc())?;
    let created = create(rt.alloc(), file, journal, &ID, 256);
    assert!(rt; matches!(created, Err(PagesError::Journal)));
    Ok(())
}
