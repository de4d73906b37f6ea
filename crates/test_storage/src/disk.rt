//! A disk that keeps what was written apart until it is synced, and whose calls fail from some call on.

ghost use Rattle.std.specs.Prelude.{◌≡◌, ◌∷◌, [], IfOk, OnErr, OnOk, Some, false, true};
ghost use Rattle.aegis_storage.specs.Disk.{applied};
ghost use Rattle.test_storage.specs.Pending.{IsLost, IsSettled, all_there, readable_bytes, changes_of, disk_of};

use crate::pending::{NewSize, PendingChange};
use aegis_storage::{PendingWrite, Storage};
use std::alloc::Global;
use std::cell::Cell;
use std::io;
use std::io::ErrorKind;

/// A disk: the synced bytes, the changes since, the first of them first, and whether a call has failed. Then the
/// changes may be lost, and every later call fails.
#[derive(Drop)]
pub struct TestDisk {
    pub alloc: Global,
    pub synced: Vec<u8>,
    pub pending: Vec<PendingChange>,
    pub failed: bool,
    /// How many calls still succeed.
    pub calls: Cell<u64>,
}

/// Makes one change.
pub fn change(bytes: &mut Vec<u8>, change: &PendingChange) -> io::Result<()>
    ensures { OnOk result
        (bytes.new.items ≡ applied (changes_of (change.now ∷ [])) bytes.old.items) }
{
    match change {
        PendingChange::Write(write) => bytes.write_at(write.place, &write.bytes),
        PendingChange::Size(size) => bytes.set_size(size.size),
    }
}

impl TestDisk {
    /// A disk with these bytes, all of them synced. The call after the first `calls` calls fails, and those after it.
    pub fn new(alloc: Global, synced: Vec<u8>, calls: u64) -> TestDisk
        ensures synced { result.synced ≡ synced }
        ensures pending { result.pending.items ≡ [] }
        ensures failed { result.failed ≡ false }
    {
        TestDisk {
            alloc,
            synced,
            pending: Vec::new(alloc),
            failed: false,
            calls: Cell::new(calls),
        }
    }

    /// Returns everything that was written.
    pub fn current(&self) -> io::Result<Vec<u8>>
        ensures { IfOk result (λ bytes. bytes.items ≡ readable_bytes self.now) }
    {
        let mut bytes = self.synced.to_vec(self.alloc)?;
        for pending in &self.pending {
            change(&mut bytes, pending)?;
        }
        Ok(bytes)
    }

    // Counts a call. Returns an error if it fails.
    fn count(&self) -> io::Result<()> {
        let calls = self.calls.get();
        self.calls.set(calls.saturating_sub(1));
        if calls == 0 {
            return Err(io::Error::from(ErrorKind::Other));
        }
        Ok(())
    }

    // Begins a call that changes the disk. Until it ends it has failed.
    fn begin(&mut self) -> io::Result<()>
        ensures synced { self.new.synced ≡ self.old.synced }
        ensures pending { self.new.pending ≡ self.old.pending }
        ensures failed { self.new.failed ≡ true }
        ensures first { OnOk result (self.old.failed ≡ false) }
    {
        let failed = self.failed;
        self.failed = true;
        if failed {
            return Err(io::Error::from(ErrorKind::Other));
        }
        Ok(())
    }

    // Syncs everything that was written.
    fn settle(&mut self) -> io::Result<()>
        ensures settled { OnOk result (IsSettled self.old self.new) }
        ensures lost { OnErr result (IsLost self.old self.new) }
    {
        self.begin()?;
        self.count()?;
        let synced = self.current()?;
        self.synced = synced;
        self.pending.clear();
        self.failed = false;
        Ok(())
    }
}

impl Storage for TestDisk {
    ghost bytes = { λ disk. Some (readable_bytes disk) };

    ghost disk = { λ disk. Some (disk_of disk) };

    ghost possible = { λ disk. all_there disk };

    fn size(&self) -> io::Result<u64> {
        self.count()?;
        Ok(self.current()?.len() as u64)
    }

    fn read_at(&self, at: u64, out: &mut [u8]) -> io::Result<()> {
        self.count()?;
        Storage::read_at(&self.current()?, at, out)
    }

    fn write_at(&mut self, at: u64, part: &[u8]) -> io::Result<()> {
        self.begin()?;
        let write = PendingWrite::new(self.alloc, at, part)?;
        self.pending.push(PendingChange::Write(write))?;
        self.count()?;
        self.failed = false;
        Ok(())
    }

    fn set_size(&mut self, size: u64) -> io::Result<()> {
        self.begin()?;
        self.count()?;
        self.pending.push(PendingChange::Size(NewSize { size }))?;
        self.failed = false;
        Ok(())
    }

    fn replace(&mut self, _all: &[u8]) -> io::Result<()> {
        self.settle()
    }

    fn sync(&mut self) -> io::Result<()> {
        self.settle()
    }
}
