//! Sealed pages, at their places in a file.
//!
//! A sealed page is a nonce, a ciphertext and a tag.

ghost use Rattle.std.specs.Prelude.{◌≡◌, ◌+◌, ◌*◌, ◌-◌, ◌≤◌, ◌⊎◌, ◌^◌, IfErr, IfOk, IfSome, List, OnOk, false, length, replicate, take, true, ℕ};
ghost use Rattle.aegis_base.specs.Message.{erased_byte};
ghost use Rattle.aegis_pages.specs.Layouts.{OpensAt, sealed_bytes, inner, nonce_bytes, page_at, page_place};
ghost use Rattle.aegis_pages.specs.Commits.{IsStorageReadError, IsSealError};

use crate::draws::Nonces;
use crate::error::PagesError;
use crate::layout::{FileLayout, MAX_CONTENTS_BYTES, TAG_BYTES};
use aegis_base::LaneState;
use aegis_engine::ERASED;
use aegis_storage::bytes::put;
use aegis_storage::{PendingWrite, Storage};
use std::alloc::Allocator;

/// Seals a page in place: its contents stand where the ciphertext is to be.
pub fn seal_page_at<L: LaneState, const KEY_BYTES: usize>(
    layout: &FileLayout<L, KEY_BYTES>,
    number: u64,
    nonce: &[u8; KEY_BYTES],
    sealed: &mut [u8],
)
    requires long { sealed_bytes layout.now 0 ≤ length sealed.old }
    requires within { length sealed.old ≤ 2 ^ 32 }
    ensures opens { OpensAt layout.now number sealed.new (inner layout.now sealed.old) }
    ensures nonce { take (nonce_bytes layout.now) sealed.new ≡ nonce.now }
{
    let nonce_bytes = layout.nonce_bytes();
    let contents_bytes = sealed.len() - (nonce_bytes + TAG_BYTES);
    let (head, rest) = sealed.split_at_mut(nonce_bytes);
    let (contents, end) = rest.split_at_mut(contents_bytes);
    head.copy_from_slice(nonce);
    let ad = layout.associated_data(number);
    let tag = layout.cipher(nonce).encrypt_in_place(contents, &ad);
    end.copy_from_slice(&tag);
}

// Opens a sealed page in place. Of one that does not open, only the contents are erased.
fn open_contents<L: LaneState, const KEY_BYTES: usize>(
    layout: &FileLayout<L, KEY_BYTES>,
    number: u64,
    sealed: &mut [u8],
) -> bool
    requires long { sealed_bytes layout.now 0 ≤ length sealed.old }
    requires within { length sealed.old ≤ 2 ^ 32 }
    ensures opened { result ≡ true
        → OpensAt layout.now number sealed.old (inner layout.now sealed.new) }
    ensures only { (m : List ℕ) → OpensAt layout.now number sealed.old m
        → (result ≡ true) × (inner layout.now sealed.new ≡ m) }
{
    let nonce_bytes = layout.nonce_bytes();
    let contents_bytes = sealed.len() - (nonce_bytes + TAG_BYTES);
    let (head, rest) = sealed.split_at_mut(nonce_bytes);
    let (contents, end) = rest.split_at_mut(contents_bytes);
    let mut nonce = [0; KEY_BYTES];
    nonce.copy_from_slice(head);
    let mut tag = [0; TAG_BYTES];
    tag.copy_from_slice(end);
    let ad = layout.associated_data(number);
    let opened = layout.cipher(&nonce).decrypt_in_place(contents, &tag, &ad);
    opened.is_ok()
}

/// Opens a sealed page in place: its contents then stand where the ciphertext was. Returns `false` if no contents are
/// sealed to it at this number. Every byte of it is then [`ERASED`].
pub fn open_page_at<L: LaneState, const KEY_BYTES: usize>(
    layout: &FileLayout<L, KEY_BYTES>,
    number: u64,
    sealed: &mut [u8],
) -> bool
    requires long { sealed_bytes layout.now 0 ≤ length sealed.old }
    requires within { length sealed.old ≤ 2 ^ 32 }
    ensures opened { result ≡ true
        → OpensAt layout.now number sealed.old (inner layout.now sealed.new) }
    ensures only { (m : List ℕ) → OpensAt layout.now number sealed.old m
        → (result ≡ true) × (inner layout.now sealed.new ≡ m) }
    ensures erased { result ≡ false → sealed.new ≡ replicate (length sealed.old) erased_byte }
{
    if open_contents(layout, number, sealed) {
        return true;
    }
    sealed.fill(ERASED);
    false
}

/// Reads a page and opens it: its contents then stand in the sealed page. Returns [`PagesError::Read`] or
/// [`PagesError::Damaged`].
pub fn read_page<S: Storage, L: LaneState, const KEY_BYTES: usize>(
    storage: &S,
    layout: &FileLayout<L, KEY_BYTES>,
    number: u64,
    page: &mut [u8],
) -> Result<(), PagesError>
    requires room { length page.old ≡ sealed_bytes layout.now layout.now.page_bytes }
    requires within { number * layout.now.page_bytes ≤ MAX_CONTENTS_BYTES }
    ensures opened { OnOk result (IfSome (S.bytes storage.now)
        (λ file. OpensAt layout.now number (page_at layout.now file number)
        (inner layout.now page.new))) }
    ensures whole { OnOk result (IfSome (S.bytes storage.now) (λ file.
        length (page_at layout.now file number) ≡ sealed_bytes layout.now layout.now.page_bytes)) }
    ensures only { OnOk result (IfSome (S.bytes storage.now) (λ file. (m : List ℕ)
        → OpensAt layout.now number (page_at layout.now file number) m
        → inner layout.now page.new ≡ m)) }
    ensures refused { IfErr result (λ e. IsStorageReadError e ⊎ ((e ≡ PagesError.Damaged number)
        × IfSome (S.bytes storage.now) (λ file. (m : List ℕ)
        → OpensAt layout.now number (page_at layout.now file number) m → ⊥))) }
{
    let place = layout.page_place(number);
    match storage.read_at(place, page) {
        Ok(()) => {}
        Err(error) => return Err(PagesError::Read(error)),
    }
    if open_page_at(layout, number, page) {
        Ok(())
    } else {
        Err(PagesError::Damaged(number))
    }
}

/// Seals contents into a sealed page.
#[tactic(auto, using(crate::proofs::ComposeFacts::inner_written))]
pub fn seal_contents<L: LaneState, const KEY_BYTES: usize>(
    layout: &FileLayout<L, KEY_BYTES>,
    number: u64,
    nonce: &[u8; KEY_BYTES],
    contents: &[u8],
    sealed: &mut [u8],
)
    requires contents { length contents.now ≡ layout.now.page_bytes }
    requires room { length sealed.old ≡ sealed_bytes layout.now layout.now.page_bytes }
    requires within { length sealed.old ≤ 2 ^ 32 }
    ensures { OpensAt layout.now number sealed.new contents.now }
{
    put(sealed, layout.nonce_bytes(), contents);
    seal_page_at(layout, number, nonce, sealed);
}

/// Returns the write of a page: the page, sealed from its contents, at its place. Returns [`PagesError::Nonce`]
/// or [`PagesError::OutOfMemory`].
pub fn sealed_page<N: Nonces, L: LaneState, const KEY_BYTES: usize, A: Allocator + Copy>(
    alloc: A,
    nonces: &mut N,
    layout: &FileLayout<L, KEY_BYTES>,
    number: u64,
    contents: &[u8],
) -> Result<PendingWrite<A>, PagesError>
    requires long { length contents.now ≡ layout.now.page_bytes }
    requires within { number * layout.now.page_bytes ≤ MAX_CONTENTS_BYTES }
    ensures place { IfOk result (λ write. write.place ≡ page_place layout.now number) }
    ensures opens { IfOk result (λ write.
        OpensAt layout.now number write.bytes.items contents.now) }
    ensures size { IfOk result (λ write.
        length write.bytes.items ≡ sealed_bytes layout.now layout.now.page_bytes) }
    ensures refused { IfErr result (IsSealError N.errors) }
{
    let place = layout.page_place(number);
    let mut nonce = [0; KEY_BYTES];
    match nonces.draw(&mut nonce) {
        Ok(()) => {}
        Err(error) => return Err(PagesError::Nonce(error)),
    }
    let nonce_bytes = layout.nonce_bytes();
    let Ok(mut bytes) = vec![in alloc; 0; contents.len() + (nonce_bytes + TAG_BYTES)] else {
        return Err(PagesError::OutOfMemory);
    };
    seal_contents(layout, number, &nonce, contents, &mut bytes);
    Ok(PendingWrite { place, bytes })
}
