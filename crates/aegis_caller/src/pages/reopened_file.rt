//! A random-access file that is opened again: after a commit that returned `Ok`, and whatever a commit and a crash
//! left.

ghost use Rattle.std.specs.Prelude.{◌≡◌, ◌≢◌, Err, IfOk, IsSome, List, ℕ};
ghost use Rattle.aegis_base.specs.Variant.{Aegis256};
ghost use Rattle.aegis_pages.specs.Commits.{IsLeftByCommit};
ghost use Rattle.aegis_pages.specs.OpenFile.{AreCommitted, HasCommitted, HasContents};

use aegis_pages::{Nonces, PagesError, SealedPages};
use aegis_storage::Storage;
use std::alloc::Allocator;

/// Opens what a commit and a crash left. The error is never that the journal is another file's, nor that the key is
/// another one, unless they left a forgery.
pub fn reopened<S: Storage + Drop, J: Storage + Drop, N: Nonces + Drop, A: Allocator + Copy>(
    alloc: A,
    storage: S,
    journal: J,
    nonces: N,
    key: &[u8; 32],
) -> Result<SealedPages<S, J, N, A>, PagesError>
    ensures { IsLeftByCommit Aegis256 key.now (S.bytes storage) (J.bytes journal)
        (S.disk storage) (J.disk journal)
        → (result ≢ Err PagesError.Journal) × (result ≢ Err PagesError.Header) }
{
    SealedPages::open(alloc, storage, journal, nonces, key)
}

/// Opens a file, or returns `None` if a person has to find out whose journal or which key this is. After a commit and a
/// crash it is never `None`, unless that leaves another whole journal or a forged header.
pub fn reopened_or_asked<
    S: Storage + Drop,
    J: Storage + Drop,
    N: Nonces + Drop,
    A: Allocator + Copy,
>(
    alloc: A,
    storage: S,
    journal: J,
    nonces: N,
    key: &[u8; 32],
) -> Result<Option<SealedPages<S, J, N, A>>, PagesError>
    ensures { IsLeftByCommit Aegis256 key.now (S.bytes storage) (J.bytes journal)
        (S.disk storage) (J.disk journal) → IfOk result IsSome }
{
    match reopened(alloc, storage, journal, nonces, key) {
        Ok(pages) => Ok(Some(pages)),
        Err(PagesError::Journal) => Ok(None),
        Err(PagesError::Header) => Ok(None),
        Err(error) => Err(error),
    }
}

/// Commits the changes, and gives the storages up. They are those of a file that has these contents.
pub fn saved<S: Storage + Drop, J: Storage + Drop, N: Nonces + Drop, A: Allocator + Copy>(
    pages: SealedPages<S, J, N, A>,
    key: &[u8; 32],
) -> Result<(S, J), PagesError>
    requires variant { pages.layout.variant ≡ Aegis256 }
    requires key { pages.layout.key ≡ key.now }
    ensures { IfOk result (λ storages. (before now : List ℕ) → HasCommitted pages before
        → HasContents pages now
        → AreCommitted Aegis256 key.now (S.disk storages.0) (J.disk storages.1) now) }
{
    let mut pages = pages;
    pages.commit()?;
    Ok(pages.into_storages())
}

/// Opens what [`saved`] has given up. The file has the contents that were saved, and the next commit begins there.
pub fn restored<S: Storage + Drop, J: Storage + Drop, N: Nonces + Drop, A: Allocator + Copy>(
    alloc: A,
    storages: (S, J),
    nonces: N,
    key: &[u8; 32],
) -> Result<SealedPages<S, J, N, A>, PagesError>
    ensures { IfOk result (λ pages. (contents : List ℕ)
        → AreCommitted Aegis256 key.now (S.disk storages.0) (J.disk storages.1) contents
        → HasContents pages contents × HasCommitted pages contents) }
{
    let (storage, journal) = storages;
    SealedPages::open(alloc, storage, journal, nonces, key)
}

/// Commits the changes, and opens the file again: it has the same contents, for certain.
pub fn saved_and_restored<
    S: Storage + Drop,
    J: Storage + Drop,
    N: Nonces + Drop,
    A: Allocator + Copy,
>(
    alloc: A,
    pages: SealedPages<S, J, N, A>,
    nonces: N,
    key: &[u8; 32],
) -> Result<SealedPages<S, J, N, A>, PagesError>
    requires variant { pages.layout.variant ≡ Aegis256 }
    requires key { pages.layout.key ≡ key.now }
    ensures { IfOk result (λ opened. (before now : List ℕ) → HasCommitted pages before
        → HasContents pages now → HasContents opened now × HasCommitted opened now) }
{
    let storages = saved(pages, key)?;
    let opened = restored(alloc, storages, nonces, key)?;
    Ok(opened)
}
