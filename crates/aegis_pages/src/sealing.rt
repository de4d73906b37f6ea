//! The writes of a commit: each changed page, sealed, and the header.

ghost use Rattle.std.specs.Prelude.{◌≡◌, ◌≤◌, ◌++◌, IfErr, IfOk, List, OnOk, length, take, ℕ};
ghost use Rattle.aegis_storage.specs.Disk.{Writes, after_writes, writes_of};
ghost use Rattle.aegis_pages.specs.OpenFile.{ArePages, IsSealed, contents_at};
ghost use Rattle.aegis_pages.specs.Private.{plaintexts_in, FitPages, HaveOnePlaintext, Seals};
ghost use Rattle.aegis_pages.specs.Commits.{IsOfCommit, IsSealError, head_bytes, head_of};
ghost use Rattle.aegis_pages.specs.Layouts.{IsHeaderBlock};

use crate::changes::{ChangedPages, PageContents};
use crate::draws::Nonces;
use crate::error::PagesError;
use crate::header::seal_header;
use crate::layout::{FileLayout, HEADER_BLOCK_BYTES, MAX_CONTENTS_BYTES};
use crate::page::sealed_page;
use aegis_base::LaneState;
use aegis_storage::PendingWrite;
use std::alloc::Allocator;
use std::collections::BTreeMap;

/// Returns the write of a header. Returns [`PagesError::Nonce`] or [`PagesError::OutOfMemory`].
pub fn sealed_header<N: Nonces, L: LaneState, const KEY_BYTES: usize, A: Allocator>(
    alloc: A,
    nonces: &mut N,
    layout: &FileLayout<L, KEY_BYTES>,
    counter: u64,
    len: u64,
) -> Result<PendingWrite<A>, PagesError>
    requires { len ≤ MAX_CONTENTS_BYTES }
    ensures place { IfOk result (λ write. write.place ≡ 0) }
    ensures size { IfOk result (λ write. length write.bytes.items ≡ 512) }
    ensures header { IfOk result (λ write. IsHeaderBlock layout.now counter len write.bytes.items) }
    ensures refused { IfErr result (IsSealError N.errors) }
{
    let mut nonce = [0; KEY_BYTES];
    match nonces.draw(&mut nonce) {
        Ok(()) => {}
        Err(error) => return Err(PagesError::Nonce(error)),
    }
    let header_block = seal_header(layout, &nonce, counter, len);
    match PendingWrite::new(alloc, 0, &header_block) {
        Ok(write) => Ok(write),
        Err(_) => Err(PagesError::OutOfMemory),
    }
}

/// Adds the writes of pages with these contents. Returns [`PagesError::Nonce`] or [`PagesError::OutOfMemory`].
pub fn seal_pages<N: Nonces, L: LaneState, const KEY_BYTES: usize, A: Allocator + Copy>(
    alloc: A,
    nonces: &mut N,
    layout: &FileLayout<L, KEY_BYTES>,
    plaintexts: &BTreeMap<u64, PageContents<A>, A>,
    writes: &mut Vec<PendingWrite<A>, A>,
) -> Result<(), PagesError>
    requires { FitPages layout.now.page_bytes (plaintexts_in plaintexts.now) }
    ensures seals { OnOk result ((more : Writes)
        × (writes_of writes.new.items ≡ writes_of writes.old.items ++ more)
        × Seals layout.now (plaintexts_in plaintexts.now) more) }
    ensures one { OnOk result (HaveOnePlaintext (plaintexts_in plaintexts.now)) }
    ensures refused { IfErr result (IsSealError N.errors) }
{
    for (number, contents) in plaintexts {
        let write = sealed_page(alloc, nonces, layout, *number, &contents.bytes)?;
        let Ok(()) = writes.push(write) else {
            return Err(PagesError::OutOfMemory);
        };
    }
    Ok(())
}

/// Returns the writes of a commit: that of the header block that the file begins with, which changes nothing but tells
/// of which file the journal is, those of the changed pages, and that of the next header. Returns [`PagesError::Nonce`]
/// or [`PagesError::OutOfMemory`].
pub fn sealed_commit<N: Nonces, L: LaneState, const KEY_BYTES: usize, A: Allocator + Copy>(
    alloc: A,
    nonces: &mut N,
    layout: &FileLayout<L, KEY_BYTES>,
    changes: &ChangedPages<A>,
    header_block: &[u8; HEADER_BLOCK_BYTES],
    counter: u64,
    len: u64,
) -> Result<Vec<PendingWrite<A>, A>, PagesError>
    requires size { changes.now.size ≡ layout.now.page_bytes }
    requires within { len ≤ MAX_CONTENTS_BYTES }
    ensures sealed { IfOk result (λ writes. (contents file : List ℕ) → length contents ≡ len
        → ArePages layout.now (contents_at changes.now.entries) contents file
        → IsSealed layout.now counter contents (after_writes (writes_of writes.items) file)) }
    ensures old_head { IfOk result (λ writes.
        IsOfCommit (take (head_bytes layout.now.variant) header_block.now)
        (writes_of writes.items)) }
    ensures new_head { IfOk result (λ writes. (file : List ℕ)
        → IsOfCommit (head_of layout.now.variant (after_writes (writes_of writes.items) file))
        (writes_of writes.items)) }
    ensures refused { IfErr result (IsSealError N.errors) }
{
    let Ok(first) = PendingWrite::new(alloc, 0, header_block) else {
        return Err(PagesError::OutOfMemory);
    };
    let mut writes = Vec::new(alloc);
    let Ok(()) = writes.push(first) else {
        return Err(PagesError::OutOfMemory);
    };
    seal_pages(alloc, nonces, layout, &changes.plaintexts, &mut writes)?;
    let header = sealed_header(alloc, nonces, layout, counter, len)?;
    let Ok(()) = writes.push(header) else {
        return Err(PagesError::OutOfMemory);
    };
    Ok(writes)
}
