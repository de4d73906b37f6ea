//! Reading and writing the bytes of contents across pages.

ghost use Rattle.std.specs.Prelude.{◌≡◌, ◌+◌, ◌*◌, ◌-◌, ◌<◌, ◌≤◌, ◌⊎◌, ◌^◌, min, false, IfErr, IfSome, List, OnOk, length, slice_index, ℕ};
ghost use Rattle.aegis_storage.specs.Disk.{overwritten};
ghost use Rattle.aegis_pages.specs.OpenFile.{ArePages, IsByte, IsPage, KeepsOthers, Shows, contents_at};
ghost use Rattle.aegis_pages.specs.Commits.{IsReadRefusal, IsWriteRefusal};
ghost use Rattle.aegis_pages.specs.Private.{IsShowRefusal, WritesContents};
ghost use Rattle.aegis_pages.specs.Layouts.{sealed_bytes, inner};

use crate::changes::ChangedPages;
use crate::error::PagesError;
use crate::layout::{FileLayout, MAX_CONTENTS_BYTES};
use crate::page::read_page;
use aegis_base::LaneState;
use aegis_storage::Storage;
use aegis_storage::bytes::{clear_from, put};
use std::alloc::Allocator;

/// Puts the contents of a page into its sealed page: the contents that it was changed to, or else that of the file's
/// page. Returns [`PagesError::Read`] or [`PagesError::Damaged`].
pub fn show_page<S: Storage, L: LaneState, const KEY_BYTES: usize, A: Allocator + Copy>(
    storage: &S,
    changes: &ChangedPages<A>,
    layout: &FileLayout<L, KEY_BYTES>,
    number: u64,
    page: &mut [u8],
) -> Result<(), PagesError>
    requires room { length page.old ≡ sealed_bytes layout.now layout.now.page_bytes }
    requires size { changes.now.size ≡ layout.now.page_bytes }
    requires within { number * layout.now.page_bytes ≤ MAX_CONTENTS_BYTES }
    ensures shown { OnOk result (IfSome (S.bytes storage.now) (λ file.
        Shows layout.now (contents_at changes.now.entries number) file number
        (inner layout.now page.new))) }
    ensures only { OnOk result (IfSome (S.bytes storage.now) (λ file. (m : List ℕ)
        → Shows layout.now (contents_at changes.now.entries number) file number m
        → inner layout.now page.new ≡ m)) }
    ensures refused { IfErr result
        (IsShowRefusal layout.now (contents_at changes.now.entries) number (S.bytes storage.now)) }
{
    let nonce_bytes = layout.nonce_bytes();
    let end = nonce_bytes + layout.page_bytes() as usize;
    if changes.copy_to(number, &mut page[nonce_bytes..end]) {
        return Ok(());
    }
    read_page(storage, layout, number, page)
}

/// Reads the bytes of the contents from `at` on until `out` is full.
pub fn read_range<S: Storage, L: LaneState, const KEY_BYTES: usize, A: Allocator + Copy>(
    storage: &S,
    changes: &ChangedPages<A>,
    layout: &FileLayout<L, KEY_BYTES>,
    page: &mut [u8],
    at: u64,
    out: &mut [u8],
) -> Result<(), PagesError>
    requires room { length page.old ≡ sealed_bytes layout.now layout.now.page_bytes }
    requires size { changes.now.size ≡ layout.now.page_bytes }
    requires within { at + length out.old ≤ MAX_CONTENTS_BYTES }
    ensures opened { OnOk result (IfSome (S.bytes storage.now) (λ file. (i : ℕ)
        → i < length out.new
        → IsByte layout.now (contents_at changes.now.entries) file (at + i)
        (slice_index out.new i))) }
    ensures read { OnOk result (IfSome (S.bytes storage.now) (λ file. (contents : List ℕ)
        → ArePages layout.now (contents_at changes.now.entries) contents file
        → at + length out.new ≤ length contents → (i : ℕ) → i < length out.new
        → slice_index out.new i ≡ slice_index contents (at + i))) }
    ensures refused { IfErr result (IsReadRefusal false layout.now (contents_at changes.now.entries)
        (at + length out.old) (S.bytes storage.now)) }
{
    let page_bytes = layout.page_bytes() as u64;
    let nonce_bytes = layout.nonce_bytes();
    let mut done = 0;
    while done < out.len() {
        let place = at + done as u64;
        let from = (place % page_bytes) as usize;
        let count = (page_bytes as usize - from).min(out.len() - done);
        show_page(storage, changes, layout, place / page_bytes, page)?;
        let start = nonce_bytes + from;
        put(out, done, &page[start..start + count]);
        done += count;
    }
    Ok(())
}

/// Makes the contents of a page that begins at `start` what they are after `part` was written from `at` on: keeps the
/// first `live` bytes, clears the others, and lays over them what of `part` falls into the page.
pub fn lay(contents: &mut [u8], live: usize, start: u64, at: u64, part: &[u8])
    requires live { live ≤ length contents.old }
    requires start { start + length contents.old < 2 ^ 63 }
    requires end { at + length part.now < 2 ^ 63 }
    ensures laid { (i : ℕ) → i < length contents.old → at ≤ start + i
        → start + i < at + length part.now
        → slice_index contents.new i ≡ slice_index part.now ((start + i) - at) }
    ensures kept { (i : ℕ) → i < live
        → (start + i < at) ⊎ (at + length part.now ≤ start + i)
        → slice_index contents.new i ≡ slice_index contents.old i }
    ensures cleared { (i : ℕ) → i < length contents.old → live ≤ i
        → (start + i < at) ⊎ (at + length part.now ≤ start + i)
        → slice_index contents.new i ≡ 0 }
{
    clear_from(contents, live);
    let from = at.max(start);
    let to = (at + part.len() as u64).min(start + contents.len() as u64);
    if from < to {
        let piece = &part[(from - at) as usize..(to - at) as usize];
        put(contents, (from - start) as usize, piece);
    }
}

/// Returns how many bytes of the page that begins at `start` are kept when the bytes from `at` up to `end` are written
/// over contents of `len` bytes, or 0 if none are, or all that the page has are written over.
pub fn live_bytes(page_bytes: u64, len: u64, start: u64, at: u64, end: u64) -> u64
    requires { start + page_bytes < 2 ^ 63 }
    ensures within { result ≤ page_bytes }
    ensures live { 0 < result → start + result ≤ len }
    ensures rest { (i : ℕ) → result ≤ i → i < page_bytes
        → (start + i < at) ⊎ (end ≤ start + i) → len ≤ start + i }
{
    if start >= len {
        return 0;
    }
    let stop = len.min(start + page_bytes);
    if at <= start {
        if stop <= end {
            return 0;
        }
    }
    stop - start
}

/// Puts into the sealed page its contents as they are after `part` was written over the contents from `at` on. The
/// contents had `len` bytes before. The page is read only if some of its bytes are kept.
pub fn compose<S: Storage, L: LaneState, const KEY_BYTES: usize, A: Allocator + Copy>(
    storage: &S,
    changes: &ChangedPages<A>,
    layout: &FileLayout<L, KEY_BYTES>,
    len: u64,
    number: u64,
    page: &mut [u8],
    at: u64,
    part: &[u8],
) -> Result<(), PagesError>
    requires room { length page.old ≡ sealed_bytes layout.now layout.now.page_bytes }
    requires size { changes.now.size ≡ layout.now.page_bytes }
    requires number { number * layout.now.page_bytes ≤ MAX_CONTENTS_BYTES }
    requires len { len ≤ MAX_CONTENTS_BYTES }
    requires end { at + length part.now ≤ MAX_CONTENTS_BYTES }
    ensures composed { OnOk result (IfSome (S.bytes storage.now) (λ file. (contents : List ℕ)
        → length contents ≡ len → (number * layout.now.page_bytes < len
        → IsPage layout.now (contents_at changes.now.entries number) file number contents) → (i : ℕ)
        → i < layout.now.page_bytes → slice_index (inner layout.now page.new) i
        ≡ slice_index (overwritten contents at part.now) (number * layout.now.page_bytes + i))) }
    ensures live { IfErr result (λ _. number * layout.now.page_bytes < len) }
    ensures refused { IfErr result
        (IsShowRefusal layout.now (contents_at changes.now.entries) number (S.bytes storage.now)) }
{
    let page_bytes = layout.page_bytes() as u64;
    let start = number * page_bytes;
    let live = live_bytes(page_bytes, len, start, at, at + part.len() as u64);
    if live > 0 {
        show_page(storage, changes, layout, number, page)?;
    }
    let nonce_bytes = layout.nonce_bytes();
    let contents = &mut page[nonce_bytes..nonce_bytes + page_bytes as usize];
    lay(contents, live as usize, start, at, part);
    Ok(())
}

/// Writes `part` over the bytes of the contents from `at` on, in the pages that have some of these bytes or of a gap
/// before them. The contents have `len` bytes before.
pub fn change_range<S: Storage, L: LaneState, const KEY_BYTES: usize, A: Allocator + Copy>(
    alloc: A,
    storage: &S,
    changes: &mut ChangedPages<A>,
    layout: &FileLayout<L, KEY_BYTES>,
    len: u64,
    page: &mut [u8],
    at: u64,
    part: &[u8],
) -> Result<(), PagesError>
    requires room { length page.old ≡ sealed_bytes layout.now layout.now.page_bytes }
    requires size { changes.old.size ≡ layout.now.page_bytes }
    requires len { len ≤ MAX_CONTENTS_BYTES }
    requires end { at + length part.now ≤ MAX_CONTENTS_BYTES }
    ensures size { changes.new.size ≡ changes.old.size }
    ensures written { OnOk result (IfSome (S.bytes storage.now)
        (WritesContents layout.now len at part.now
        (contents_at changes.old.entries) (contents_at changes.new.entries))) }
    ensures others { KeepsOthers layout.now.page_bytes (min at len) (at + length part.now)
        (contents_at changes.old.entries) (contents_at changes.new.entries) }
    ensures refused { IfErr result (IsWriteRefusal false layout.now
        (contents_at changes.old.entries) len (at + length part.now) (S.bytes storage.now)) }
{
    let page_bytes = layout.page_bytes() as u64;
    let nonce_bytes = layout.nonce_bytes();
    let end = at + part.len() as u64;
    let first = at.min(len) / page_bytes;
    let last = (end + (page_bytes - 1)) / page_bytes;
    for number in first..last {
        compose(storage, changes, layout, len, number, page, at, part)?;
        let contents = &page[nonce_bytes..nonce_bytes + page_bytes as usize];
        let Ok(()) = changes.set(alloc, number, contents) else {
            return Err(PagesError::OutOfMemory);
        };
    }
    Ok(())
}
