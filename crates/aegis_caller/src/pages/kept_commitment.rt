//! A random-access file whose commitment is kept elsewhere.

ghost use Rattle.std.specs.Prelude.{IfOk, IfSome};
ghost use Rattle.aegis_base.specs.Variant.{Aegis256};
ghost use Rattle.aegis_pages.specs.Commits.{HasOneCommitment};

use aegis_pages::laws::opened_has_its_commitment;
use aegis_pages::{Nonces, PagesError, SealedPages};
use aegis_storage::Storage;
use std::alloc::Allocator;

/// Opens a file if its commitment is `kept`, and no other file: it is then no older one, and has no older page, unless
/// two MACs are equal by chance.
pub fn open_unchanged<S: Storage + Drop, J: Storage + Drop, N: Nonces + Drop, A: Allocator + Copy>(
    alloc: A,
    storage: S,
    journal: J,
    nonces: N,
    key: &[u8; 32],
    kept: &[u8; 32],
) -> Result<SealedPages<S, J, N, A>, PagesError>
    ensures { IfOk result (λ pages. IfSome pages.bytes
        (HasOneCommitment Aegis256 key.now kept.now)) }
{
    opened_has_its_commitment();
    let pages = SealedPages::open(alloc, storage, journal, nonces, key)?;
    pages.verify(kept)?;
    Ok(pages)
}
