//! A file on two disks that keep what was written apart until it is synced: whatever a crash leaves of disks that were
//! given back, their contents are found in it.

ghost use Rattle.std.specs.Prelude.{◌≡◌, [], IfOk, List, OnOk, Some, length, ℕ};
ghost use Rattle.aegis_base.specs.Variant.{Aegis256};
ghost use Rattle.aegis_storage.specs.Disk.{Crashed};
ghost use Rattle.aegis_pages.specs.OpenFile.{AreCommitted, HasCommitted, HasContents};
ghost use Rattle.test_storage.specs.Pending.{disk_of};

use crate::pages::kept_in_memory::{MemoryPages, found};
use crate::pages::reopened_file::saved;
use aegis_pages::laws::{committed_after_a_crash, whole_is_written};
use aegis_pages::{Nonces, PagesError, SealedPages};
use std::alloc::{Allocator, Global};
use test_storage::disk::TestDisk;

/// Gives a new file contents, commits it, and gives the disks back. They hold the contents, with or without a crash.
pub fn kept<N: Nonces + Drop>(
    pages: SealedPages<TestDisk, TestDisk, N, Global>,
    key: &[u8; 32],
    contents: &[u8],
) -> Result<(TestDisk, TestDisk), PagesError>
    requires variant { pages.layout.variant ≡ Aegis256 }
    requires key { pages.layout.key ≡ key.now }
    requires empty { HasContents pages [] }
    requires committed { HasCommitted pages [] }
    ensures { IfOk result (λ kept. AreCommitted Aegis256 key.now
        (Some (disk_of kept.0)) (Some (disk_of kept.1)) contents.now) }
{
    whole_is_written();
    let mut pages = pages;
    pages.write_at(0, contents)?;
    let disks = saved(pages, key)?;
    Ok(disks)
}

/// Opens the vectors that a crash has left of such disks, and reads the contents.
pub fn found_after_a_crash<N: Nonces + Drop, A: Allocator + Copy>(
    alloc: A,
    disks: &(TestDisk, TestDisk),
    left: (Vec<u8, A>, Vec<u8, A>),
    nonces: N,
    key: &[u8; 32],
    out: &mut [u8],
) -> Result<MemoryPages<N, A>, PagesError>
    requires storage { Crashed (disk_of disks.now.0) left.0.items }
    requires journal { Crashed (disk_of disks.now.1) left.1.items }
    ensures { OnOk result ((contents : List ℕ) → length contents ≡ length out.old
        → AreCommitted Aegis256 key.now
        (Some (disk_of disks.now.0)) (Some (disk_of disks.now.1)) contents → out.new ≡ contents) }
{
    committed_after_a_crash();
    let pages = found(alloc, left, nonces, key, out)?;
    Ok(pages)
}
