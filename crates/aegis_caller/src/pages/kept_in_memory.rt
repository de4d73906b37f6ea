//! A file in two vectors, a storage and its journal: contents are written, committed, given back, and found again.

ghost use Rattle.std.specs.Prelude.{◌≡◌, [], IfOk, List, OnOk, Some, length, ℕ};
ghost use Rattle.aegis_base.specs.Variant.{Aegis256};
ghost use Rattle.aegis_storage.specs.Disk.{certain};
ghost use Rattle.aegis_pages.specs.OpenFile.{AreCommitted, HasCommitted, HasContents, IsStoredAs};

use crate::pages::reopened_file::saved;
use aegis_pages::laws::{contents_has_its_length, whole_is_written};
use aegis_pages::{DEFAULT_PAGE_BYTES, Nonces, PagesError, SealedPages};
use std::alloc::Allocator;

/// A file in memory.
pub type MemoryPages<N, A> = SealedPages<Vec<u8, A>, Vec<u8, A>, N, A>;

/// Makes an empty file.
pub fn created<N: Nonces + Drop, A: Allocator + Copy>(
    alloc: A,
    nonces: N,
    key: &[u8; 32],
    id: &[u8; 24],
) -> Result<MemoryPages<N, A>, PagesError>
    ensures variant { IfOk result (λ pages. pages.layout.variant ≡ Aegis256) }
    ensures key { IfOk result (λ pages. pages.layout.key ≡ key.now) }
    ensures contents { IfOk result (λ pages. HasContents pages []) }
    ensures committed { IfOk result (λ pages. HasCommitted pages []) }
{
    let storage = Vec::new(alloc);
    let journal = Vec::new(alloc);
    SealedPages::create(alloc, storage, journal, nonces, key, id, DEFAULT_PAGE_BYTES)
}

/// Gives an empty file contents, in memory.
pub fn written<N: Nonces + Drop, A: Allocator + Copy>(
    pages: &mut MemoryPages<N, A>,
    contents: &[u8],
) -> Result<(), PagesError>
    ensures stored { IsStoredAs pages.old pages.new }
    ensures written { OnOk result (HasContents pages.old [] → HasContents pages.new contents.now) }
{
    whole_is_written();
    pages.write_at(0, contents)
}

/// Gives a new file contents, commits it, and gives the vectors back. They hold the contents for certain.
pub fn kept<N: Nonces + Drop, A: Allocator + Copy>(
    pages: MemoryPages<N, A>,
    key: &[u8; 32],
    contents: &[u8],
) -> Result<(Vec<u8, A>, Vec<u8, A>), PagesError>
    requires variant { pages.layout.variant ≡ Aegis256 }
    requires key { pages.layout.key ≡ key.now }
    requires empty { HasContents pages [] }
    requires committed { HasCommitted pages [] }
    ensures { IfOk result (λ kept. AreCommitted Aegis256 key.now
        (Some (certain kept.0.items)) (Some (certain kept.1.items)) contents.now) }
{
    let mut pages = pages;
    written(&mut pages, contents)?;
    let vectors = saved(pages, key)?;
    Ok(vectors)
}

/// Opens the file again, and reads its contents.
#[tactic(auto, using(std::proofs::lemmas::List::take_all))]
pub fn found<N: Nonces + Drop, A: Allocator + Copy>(
    alloc: A,
    kept: (Vec<u8, A>, Vec<u8, A>),
    nonces: N,
    key: &[u8; 32],
    out: &mut [u8],
) -> Result<MemoryPages<N, A>, PagesError>
    ensures { OnOk result ((contents : List ℕ) → length contents ≡ length out.old
        → AreCommitted Aegis256 key.now
        (Some (certain kept.0.items)) (Some (certain kept.1.items)) contents → out.new ≡ contents) }
{
    contents_has_its_length();
    let (storage, journal) = kept;
    let mut pages = SealedPages::open(alloc, storage, journal, nonces, key)?;
    pages.read_at(0, out)?;
    Ok(pages)
}

/// Keeps contents in two vectors, and reads it from them again: what is read is what was kept.
pub fn kept_and_found<N: Nonces + Drop, A: Allocator + Copy>(
    alloc: A,
    nonces: (N, N),
    key: &[u8; 32],
    id: &[u8; 24],
    contents: &[u8],
    out: &mut [u8],
) -> Result<MemoryPages<N, A>, PagesError>
    requires { length contents.now ≡ length out.old }
    ensures { OnOk result (out.new ≡ contents.now) }
{
    let (first, second) = nonces;
    let pages = created(alloc, first, key, id)?;
    let vectors = kept(pages, key, contents)?;
    found(alloc, vectors, second, key, out)
}
