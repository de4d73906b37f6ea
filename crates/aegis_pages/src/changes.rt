//! Pages that were changed and not committed.

ghost use Rattle.std.specs.Prelude.{◌≡◌, ◌≢◌, ◌*◌, ◌≤◌, ◌^◌, IfOk, None, OnOk, Some, false, length, true, ℕ};
ghost use Rattle.aegis_pages.specs.OpenFile.{contents_at};

use crate::layout::MAX_CONTENTS_BYTES;
use std::alloc::{AllocError, Allocator};
use std::collections::BTreeMap;
use std::marker::Model;

/// The contents of a page, which are overwritten when they are dropped.
pub struct PageContents<A: Allocator> {
    pub bytes: Vec<u8, A>,
}

impl<A: Allocator> Drop for PageContents<A> {
    fn drop(self) {
        let PageContents { mut bytes } = self;
        bytes.fill(0);
    }
}

/// Returns `size` zeros.
pub fn empty_contents<A: Allocator>(alloc: A, size: usize) -> Result<PageContents<A>, AllocError>
    requires { size ≤ 2 ^ 32 }
    ensures { IfOk result (λ page. length page.bytes.items ≡ size) }
{
    Ok(PageContents {
        bytes: vec![in alloc; 0; size]?,
    })
}

/// The contents of pages, by the numbers of the pages. Each has `size` bytes.
#[derive(Drop)]
pub struct ChangedPages<A: Allocator> {
    pub size: usize,
    pub plaintexts: BTreeMap<u64, PageContents<A>, A>,
}

impl<A: Allocator> Model for ChangedPages<A> {
    ghost use Rattle.aegis_pages.specs.Private.{ChangedPlaintexts, plaintexts_in, FitPages};

    ghost Value = { ChangedPlaintexts };

    ghost view = { λ c. record { size = c.size; entries = plaintexts_in c.plaintexts } };

    ghost invariant = { λ c. FitPages c.size (plaintexts_in c.plaintexts) };
}

impl<A: Allocator + Copy> ChangedPages<A> {
    /// No pages.
    pub fn new(alloc: A, size: usize) -> Self
        ensures size { result.size ≡ size }
        ensures none { (k : ℕ) → contents_at result.entries k ≡ None }
    {
        ChangedPages {
            size,
            plaintexts: BTreeMap::new(alloc),
        }
    }

    /// Copies the contents of a page to `out`, and returns whether there is one.
    #[tactic(auto, using(crate::proofs::ChangedFacts::copied_laws))]
    pub fn copy_to(&self, number: u64, out: &mut [u8]) -> bool
        requires { length out.old ≡ self.now.size }
        ensures copied { result ≡ true → contents_at self.now.entries number ≡ Some out.new }
        ensures absent { result ≡ false → contents_at self.now.entries number ≡ None }
    {
        match self.plaintexts.get(&number) {
            Some(contents) => {
                out.copy_from_slice(&contents.bytes);
                true
            }
            None => false,
        }
    }

    /// Keeps a copy of `contents` for a page.
    #[tactic(auto, using(crate::proofs::ChangedFacts::found_in, crate::proofs::ChangedFacts::fit_inserted))]
    pub fn set(&mut self, alloc: A, number: u64, contents: &[u8]) -> Result<(), AllocError>
        requires size { length contents.now ≡ self.old.size }
        requires within { number * self.old.size ≤ MAX_CONTENTS_BYTES }
        ensures size { self.new.size ≡ self.old.size }
        ensures here { OnOk result (contents_at self.new.entries number ≡ Some contents.now) }
        ensures others { (k : ℕ) → k ≢ number
            → contents_at self.new.entries k ≡ contents_at self.old.entries k }
    {
        let bytes = contents.to_vec(alloc)?;
        self.plaintexts.insert(number, PageContents { bytes })?;
        Ok(())
    }

    /// Forgets all pages.
    pub fn clear(&mut self)
        ensures size { self.new.size ≡ self.old.size }
        ensures none { (k : ℕ) → contents_at self.new.entries k ≡ None }
    {
        self.plaintexts.clear();
    }
}
