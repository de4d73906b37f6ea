//! A table of rows of 64 bytes in a random-access file.

ghost use Rattle.std.specs.Prelude.{◌≡◌, ◌+◌, ◌*◌, ◌<◌, ◌≤◌, IfOk, IfSome, List, OnErr, OnOk, length, ℕ};
ghost use Rattle.aegis_storage.specs.Disk.{overwritten, part_at};
ghost use Rattle.aegis_base.specs.Variant.{Aegis256};
ghost use Rattle.aegis_pages.specs.Commits.{MakesNoOther, RecoversContentsUnlessOtherJournal, RecoversOneUnlessOtherJournal};
ghost use Rattle.aegis_pages.specs.OpenFile.{HasCommitted, HasContents, IsStoredAs, OpensAtOne};

use aegis_pages::laws::{others_are_kept, stored_is_committed};
use aegis_pages::{Nonces, PagesError, SealedPages};
use aegis_storage::Storage;
use std::alloc::Allocator;

/// The length of a row.
pub const ROW_BYTES: u64 = 64;

/// How many rows a table may have.
pub const MAX_ROWS: u64 = 1_000_000;

/// Writes row `k`.
pub fn write_row<S: Storage + Drop, J: Storage + Drop, N: Nonces + Drop, A: Allocator + Copy>(
    pages: &mut SealedPages<S, J, N, A>,
    k: u64,
    row: &[u8; 64],
) -> Result<(), PagesError>
    requires { k < MAX_ROWS }
    ensures stored { IsStoredAs pages.old pages.new }
    ensures len { OnOk result (pages.old.len ≤ pages.new.len) }
    ensures written { OnOk result ((table : List ℕ) → HasContents pages.old table
        → HasContents pages.new (overwritten table (ROW_BYTES * k) row.now)) }
{
    pages.write_at(ROW_BYTES * k, row)
}

/// Writes row `k`, and reads row `j`.
pub fn written_and_read_row<
    S: Storage + Drop,
    J: Storage + Drop,
    N: Nonces + Drop,
    A: Allocator + Copy,
>(
    pages: &mut SealedPages<S, J, N, A>,
    k: u64,
    row: &[u8; 64],
    j: u64,
    out: &mut [u8; 64],
) -> Result<(), PagesError>
    requires k { k < MAX_ROWS }
    requires j { j < MAX_ROWS }
    requires within { ROW_BYTES * j + ROW_BYTES ≤ pages.old.len }
    ensures same { OnOk result ((table : List ℕ) → HasContents pages.old table → j ≡ k
        → out.new ≡ row.now) }
    ensures read { OnOk result ((table : List ℕ) → HasContents pages.old table
        → out.new ≡ part_at (overwritten table (ROW_BYTES * k) row.now) (ROW_BYTES * j) ROW_BYTES) }
    ensures before { OnOk result ((table : List ℕ) → HasContents pages.old table → j < k
        → ROW_BYTES * j + ROW_BYTES ≤ length table
        → out.new ≡ part_at table (ROW_BYTES * j) ROW_BYTES) }
    ensures after { OnOk result ((table : List ℕ) → HasContents pages.old table → k < j
        → ROW_BYTES * j + ROW_BYTES ≤ length table
        → out.new ≡ part_at table (ROW_BYTES * j) ROW_BYTES) }
{
    others_are_kept();
    write_row(pages, k, row)?;
    pages.read_at(ROW_BYTES * j, out)?;
    Ok(())
}

/// Writes row `k`. If it cannot be written, all changes since the last commit are forgotten: the table is that of the
/// last commit, and ready for more rows.
pub fn write_row_or_forget<
    S: Storage + Drop,
    J: Storage + Drop,
    N: Nonces + Drop,
    A: Allocator + Copy,
>(pages: &mut SealedPages<S, J, N, A>, k: u64, row: &[u8; 64]) -> Result<(), PagesError>
    requires { k < MAX_ROWS }
    ensures forgotten { OnErr result ((before now : List ℕ) → HasCommitted pages.old before
        → HasContents pages.old now
        → HasContents pages.new before × HasCommitted pages.new before) }
{
    stored_is_committed();
    match write_row(pages, k, row) {
        Ok(()) => Ok(()),
        Err(error) => {
            pages.discard();
            Err(error)
        }
    }
}

/// Commits the rows that were written. Whatever it returns, a crash leaves a storage and a journal from which
/// [`open_table`] opens the table as it was at the last commit or as it is now, unless it leaves another whole journal.
pub fn commit_rows<S: Storage + Drop, J: Storage + Drop, N: Nonces + Drop, A: Allocator + Copy>(
    pages: &mut SealedPages<S, J, N, A>,
) -> Result<(), PagesError>
    ensures crash { (before now : List ℕ) → HasCommitted pages.old before
        → HasContents pages.old now → RecoversOneUnlessOtherJournal pages.new before now }
    ensures next { OnOk result ((before now : List ℕ) → HasCommitted pages.old before
        → HasContents pages.old now → HasCommitted pages.new now) }
{
    pages.commit()
}

/// Opens the table after a crash, unless that has left another whole journal. It is that of the last commit, or of the
/// one that was cut short, and ready for more.
pub fn open_table<S: Storage + Drop, J: Storage + Drop, N: Nonces + Drop, A: Allocator + Copy>(
    alloc: A,
    storage: S,
    journal: J,
    nonces: N,
    key: &[u8; 32],
) -> Result<SealedPages<S, J, N, A>, PagesError>
    ensures { IfOk result (λ pages. (before now : List ℕ)
        → (batch : RecoversContentsUnlessOtherJournal Aegis256 key.now before now
        (S.disk storage) (J.disk journal))
        → IfSome (S.bytes storage) (λ file. IfSome (J.bytes journal) (MakesNoOther batch file))
        → OpensAtOne pages before now) }
{
    SealedPages::open(alloc, storage, journal, nonces, key)
}
