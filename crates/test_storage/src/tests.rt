//! A commit and a recovery that are cut at each call, and what a crash leaves of them.

use crate::disk::TestDisk;
use crate::tears::left_of;
use aegis_storage::{PendingWrite, Storage, commit, recover};
use std::alloc::Global;
use std::io;
use std::test::Fail;

const KEY: [u8; 16] = [7; 16];

const FRONT: [u8; 512] = [5; 512];

const NONCE: [u8; 16] = [9; 16];

const CONTEXT: [u8; 4] = *b"test";

// More calls than are made.
const ALL_CALLS: u64 = 1000;

// A write of equal bytes: its place, how many they are, and the byte.
type Fill = (u32, u16, u8);

// Batches of up to five writes: over all bytes, past the end, after a gap, over one another, and of several sectors.
const BATCHES: [&[Fill]; 6] = [
    &[],
    &[(0, 1300, 1)],
    &[(40, 20, 1), (60, 20, 2)],
    &[(90, 30, 1), (150, 10, 2), (0, 5, 3)],
    &[(0, 100, 1), (50, 1100, 2), (20, 60, 3), (1000, 9, 4)],
    &[
        (10, 10, 1),
        (15, 10, 2),
        (2000, 700, 3),
        (12, 1, 4),
        (0, 2100, 5),
    ],
];

// The writes of a batch.
fn writes_of(alloc: Global, batch: &[Fill]) -> io::Result<Vec<PendingWrite<Global>>> {
    let mut writes = Vec::new(alloc);
    for (place, size, byte) in batch {
        let bytes = vec![in alloc; *byte; usize::from(*size)]?;
        writes.push(PendingWrite::new(alloc, u64::from(*place), &bytes)?)?;
    }
    Ok(writes)
}

// The bytes before a batch.
fn before(alloc: Global) -> io::Result<Vec<u8>> {
    Ok(vec![in alloc; 0x11; 100]?)
}

// The bytes after a batch.
fn after(alloc: Global, writes: &[PendingWrite<Global>]) -> io::Result<Vec<u8>> {
    let mut bytes = before(alloc)?;
    for write in writes {
        bytes.write_at(write.place, &write.bytes)?;
    }
    Ok(bytes)
}

// How many combinations of four parts there are, by the number of changes.
const COMBINATIONS: [u32; 7] = [1, 4, 16, 64, 256, 1024, 4096];

const ORDERS: usize = 3;

// What recovery may give.
#[derive(Drop)]
struct Wanted {
    before: Vec<u8>,
    after: Vec<u8>,
    is_done: bool,
}

impl Wanted {
    fn has(&self, bytes: &[u8]) -> bool {
        bytes == self.after.as_slice() || (!self.is_done && bytes == self.before.as_slice())
    }
}

fn combinations(disk: &TestDisk) -> u32 {
    match COMBINATIONS.get(disk.pending.len()) {
        Some(count) => *count,
        None => 0,
    }
}

fn recovered(storage: &mut TestDisk, journal: &mut TestDisk) -> io::Result<()> {
    recover(storage.alloc, storage, journal, &KEY, &CONTEXT)
}

// Whether recovery, with no crash, gives what is wanted and an empty journal.
fn recovers(
    alloc: Global,
    storage: Vec<u8>,
    journal: Vec<u8>,
    wanted: &Wanted,
) -> io::Result<bool> {
    let mut storage = TestDisk::new(alloc, storage, ALL_CALLS);
    let mut journal = TestDisk::new(alloc, journal, ALL_CALLS);
    recovered(&mut storage, &mut journal)?;
    Ok(
        wanted.has(&storage.synced)
            && storage.pending.is_empty()
            && journal.synced.is_empty()
            && journal.pending.is_empty(),
    )
}

// Whether recovery gives what is wanted after a recovery that was cut: some ways in which a crash may leave its
// changes.
fn recovers_again(storage: &TestDisk, journal: &TestDisk, wanted: &Wanted) -> io::Result<bool> {
    for parts in [0, 0xaaa, 0x3cc] {
        for journal_parts in [0, 3] {
            let left = left_of(storage, parts, 1)?;
            let journal_left = left_of(journal, journal_parts, 0)?;
            if !recovers(storage.alloc, left, journal_left, wanted)? {
                return Ok(false);
            }
        }
    }
    Ok(true)
}

// Whether recovery that is cut at each call leaves what a second one recovers.
fn recovers_when_cut(
    alloc: Global,
    storage: &[u8],
    journal: &[u8],
    wanted: &Wanted,
) -> io::Result<bool> {
    for calls in 0..8u64 {
        for (storage_calls, journal_calls) in [(calls, ALL_CALLS), (ALL_CALLS, calls)] {
            let mut torn = TestDisk::new(alloc, storage.to_vec(alloc)?, storage_calls);
            let mut torn_journal = TestDisk::new(alloc, journal.to_vec(alloc)?, journal_calls);
            let _ = recovered(&mut torn, &mut torn_journal);
            if !recovers_again(&torn, &torn_journal, wanted)? {
                return Ok(false);
            }
        }
    }
    Ok(true)
}

// Whether a journal has no more than a beginning, or begins with the one of the tests.
fn keeps_beginning(journal: &[u8]) -> bool {
    journal.len() <= FRONT.len() || journal.starts_with(&FRONT)
}

// Whether the journal keeps its beginning and recovery gives what is wanted, however a crash leaves the pending changes
// of both.
fn recovers_from_all(storage: &TestDisk, journal: &TestDisk, wanted: &Wanted) -> io::Result<bool> {
    let alloc = storage.alloc;
    for order in 0..ORDERS {
        for parts in 0..combinations(storage) {
            for journal_parts in 0..combinations(journal) {
                let left = left_of(storage, parts, order)?;
                let journal_left = left_of(journal, journal_parts, order)?;
                if !keeps_beginning(&journal_left) {
                    return Ok(false);
                }
                if parts % 3 == 0 && !recovers_when_cut(alloc, &left, &journal_left, wanted)? {
                    return Ok(false);
                }
                if !recovers(alloc, left, journal_left, wanted)? {
                    return Ok(false);
                }
            }
        }
    }
    Ok(true)
}

// Commits a batch on disks that fail after these numbers of calls. Returns whether the commit succeeded, and whether
// recovery gives what is wanted from all that a crash may leave.
fn committed(
    alloc: Global,
    batch: &[Fill],
    storage_calls: u64,
    journal_calls: u64,
) -> io::Result<(bool, bool)> {
    let writes = writes_of(alloc, batch)?;
    let mut storage = TestDisk::new(alloc, before(alloc)?, storage_calls);
    let mut journal = TestDisk::new(alloc, Vec::new(alloc), journal_calls);
    let result = commit(
        alloc,
        &mut storage,
        &mut journal,
        &KEY,
        &FRONT,
        &NONCE,
        &CONTEXT,
        &writes,
    );
    let wanted = Wanted {
        before: before(alloc)?,
        after: after(alloc, &writes)?,
        is_done: result.is_ok(),
    };
    let is_recovered = recovers_from_all(&storage, &journal, &wanted)?;
    Ok((result.is_ok(), is_recovered))
}

#[test]
fn a_commit_that_is_cut_at_each_call_is_whole_or_not_there(rt: HostRuntime) -> Result<(), Fail> {
    let alloc = rt.alloc();
    for batch in BATCHES {
        for calls in 0..8u64 {
            for (storage_calls, journal_calls) in [(calls, ALL_CALLS), (ALL_CALLS, calls)] {
                let (_, is_recovered) = committed(alloc, batch, storage_calls, journal_calls)?;
                assert!(rt; is_recovered, "{} writes, {calls} calls", batch.len());
            }
        }
    }
    Ok(())
}

#[test]
fn a_commit_succeeds(rt: HostRuntime) -> Result<(), Fail> {
    for batch in BATCHES {
        let (is_done, is_recovered) = committed(rt.alloc(), batch, ALL_CALLS, ALL_CALLS)?;
        assert!(rt; is_done && is_recovered, "{} writes", batch.len());
    }
    Ok(())
}
