//! contents that are read and written at any place, and committed.

ghost use Rattle.std.specs.Prelude.{◌≡◌, ◌≢◌, ◌+◌, ◌-◌, ◌<◌, ◌≤◌, ◌^◌, ◌↔◌, ◌⊎◌, [], Err, IfErr, IfOk, IfSome, IsTrue, List, None, OnErr, OnOk, Some, if◌then◌else◌, false, is_ok, length, max, min, replicate, true, ℕ};
ghost use Rattle.aegis_base.specs.Variant.{Variant, key_length};
ghost use Rattle.aegis_storage.specs.Disk.{Disk, certain, overwritten, part_at, resized};
ghost use Rattle.aegis_pages.specs.OpenFile.{AreCommitted, HasCommitted, HasContents, IsFileOf, IsKnown, IsStoredAs, IsUnchanged, KeepsOthers, OpenFile, OpensAtOne, Reads, contents_at};
ghost use Rattle.aegis_pages.specs.Commits.{Breaks, Fits, IsBeginError, IsBeginRefusal, IsCommitRefusal, IsCommitmentRefusal, IsCreateRefusal, IsLeftByCommit, IsOpenRefusal, IsReadRefusal, IsVerifyRefusal, IsWriteRefusal, MakesNoOther, RecoversContentsUnlessOtherJournal, RecoversOneUnlessOtherJournal, commitment};
ghost use Rattle.aegis_pages.specs.Private.{IsCertain};
ghost use Rattle.aegis_pages.specs.Layouts.{IsHeader, IsPageSize};

use crate::changes::{ChangedPages, PageContents, empty_contents};
use crate::commitment::{file_commitment, verify_commitment};
use crate::draws::Nonces;
use crate::error::PagesError;
use crate::header::read_header_block;
use crate::layout::{FileLayout, MAX_CONTENTS_BYTES, TAG_BYTES, is_page_size};
use crate::opening::{journal_key, recover_file};
use crate::range::{change_range, read_range};
use crate::sealing::{sealed_commit, sealed_header};
use aegis_base::{LaneState, SavedLanes};
use aegis_storage::{NONCE_BYTES, Storage, commit};
use std::alloc::Allocator;
use std::io;
use std::io::ErrorKind;
use std::marker::Model;

/// Contents in sealed pages, over a storage and its journal.
///
/// Changes are kept in memory until they are committed: then all of them are there after a crash, or none. Each page
/// and header that a commit writes takes one nonce, and so does its journal. The contracts name the contents where the
/// storage's bytes are known: they and the changes are then the file of contents (`HasContents`).
#[derive(Drop)]
pub struct Pages<L: LaneState, const KEY_BYTES: usize, S: Storage, J: Storage, N, A: Allocator> {
    alloc: A,
    storage: S,
    journal: J,
    nonces: N,
    layout: FileLayout<L, KEY_BYTES>,
    counter: u64,
    stored: u64,
    len: u64,
    changes: ChangedPages<A>,
    page: PageContents<A>,
    is_broken: bool,
}

impl<L: LaneState, const KEY_BYTES: usize, S: Storage, J: Storage, N, A: Allocator> Model
    for Pages<L, KEY_BYTES, S, J, N, A> {
    ghost use Rattle.std.specs.Prelude.{◌≡◌, ◌≤◌, length};
    ghost use Rattle.aegis_aes.specs.Lanes.{IsLaneCount};
    ghost use Rattle.aegis_pages.specs.declared.layout.TheConstants.{MAX_CONTENTS_BYTES};
    ghost use Rattle.aegis_pages.specs.Layouts.{sealed_bytes};
    ghost use Rattle.aegis_pages.specs.OpenFile.{OpenFile};

    ghost Value = { OpenFile };

    ghost view = { λ p. record {
      layout = p.layout;
      counter = p.counter;
      stored = p.stored;
      len = p.len;
      changes = p.changes.entries;
      bytes = S.bytes p.storage;
      disk = S.disk p.storage;
      journal = J.disk p.journal;
      broken = p.is_broken;
    } };

    ghost invariant = { λ p. (length p.page.bytes.items ≡ sealed_bytes p.layout p.layout.page_bytes)
        × (p.changes.size ≡ p.layout.page_bytes)
        × (p.len ≤ MAX_CONTENTS_BYTES)
        × (p.stored ≤ MAX_CONTENTS_BYTES)
        × IsLaneCount p.layout.variant.lanes };
}

// The counter of the next header.
fn next_counter(counter: u64) -> Result<u64, PagesError>
    ensures counter { IfOk result (λ n. n ≡ counter + 1) }
    ensures refused { IfErr result (λ e. (e ≡ PagesError.TooLong) × (counter ≡ 2 ^ 64 - 1)) }
{
    if counter == u64::MAX {
        return Err(PagesError::TooLong);
    }
    Ok(counter + 1)
}

// Makes a storage a file with a header alone, and syncs it.
fn begin_file<S: Storage, N: Nonces, L: LaneState, const KEY_BYTES: usize, A: Allocator>(
    alloc: A,
    storage: &mut S,
    nonces: &mut N,
    layout: &FileLayout<L, KEY_BYTES>,
) -> Result<(), PagesError>
    ensures known { OnOk result (IfSome (S.bytes storage.old) (λ _. IsKnown
        (λ file. IsHeader layout.now 0 0 file) (S.bytes storage.new))) }
    ensures certain { OnOk result ((disk : Disk) → S.disk storage.old ≡ Some disk
        → IsCertain (λ file. IsHeader layout.now 0 0 file) (S.disk storage.new)) }
    ensures refused { IfErr result (IsBeginError N.errors) }
{
    let header = sealed_header(alloc, nonces, layout, 0, 0)?;
    match storage.set_size(0) {
        Ok(()) => {}
        Err(error) => return Err(PagesError::Write(error)),
    }
    match storage.write_at(0, &header.bytes) {
        Ok(()) => {}
        Err(error) => return Err(PagesError::Write(error)),
    }
    match storage.sync() {
        Ok(()) => Ok(()),
        Err(error) => Err(PagesError::Write(error)),
    }
}

// Returns an error if a journal is not empty. Then empties it and syncs it: after a sync that failed, the disk may have
// bytes that cannot be read.
fn begin_journal<J: Storage>(journal: &mut J) -> Result<(), PagesError>
    ensures certain { OnOk result ((disk : Disk) → J.disk journal.old ≡ Some disk
        → J.disk journal.new ≡ Some (certain [])) }
    ensures empty { OnOk result (IfSome (J.bytes journal.old) (λ js. length js ≡ 0)) }
    ensures refused { IfErr result (IsBeginRefusal (λ _. ⊥) (J.bytes journal.old)) }
{
    match journal.size() {
        Ok(size) => {
            if size != 0 {
                return Err(PagesError::Journal);
            }
        }
        Err(error) => return Err(PagesError::Read(error)),
    }
    match journal.set_size(0) {
        Ok(()) => {}
        Err(error) => return Err(PagesError::Write(error)),
    }
    match journal.sync() {
        Ok(()) => Ok(()),
        Err(error) => Err(PagesError::Write(error)),
    }
}

impl<
    L: SavedLanes,
    const KEY_BYTES: usize,
    S: Storage + Drop,
    J: Storage + Drop,
    N: Nonces + Drop,
    A: Allocator + Copy,
> Pages<L, KEY_BYTES, S, J, N, A> {
    /// Makes the storage a file of empty contents, under a key, an id of the file's own and a page size in bytes. What
    /// it held before is lost. The journal must be empty.
    ///
    /// Returns [`PagesError::PageSize`], [`PagesError::OutOfMemory`], [`PagesError::Journal`] if the journal is not
    /// empty, [`PagesError::Read`] if it has no size, or [`PagesError::Nonce`] before the storage is changed, and
    /// [`PagesError::Write`] after it may have been. No clause says when: the storage is passed by value.
    /// If a crash interrupts it, create the file again.
    pub fn create(
        alloc: A,
        mut storage: S,
        mut journal: J,
        mut nonces: N,
        key: &[u8; KEY_BYTES],
        id: &[u8; 24],
        page_bytes: u32,
    ) -> Result<Self, PagesError>
        requires { KEY_BYTES ≡ key_length L.VARIANT.family }
        ensures layout { IfOk result (λ pages. pages.layout ≡ record {
          variant = L.VARIANT;
          key = key.now;
          page_bytes = page_bytes;
          id = id.now;
        }) }
        ensures empty { IfOk result (λ pages. pages.len ≡ 0) }
        ensures created { IfOk result (λ pages.
            IfSome (S.bytes storage) (λ _. HasContents pages [])) }
        ensures certain { IfOk result (λ pages. IfSome (S.disk storage)
            (λ _. IfSome (J.disk journal) (λ _. HasCommitted pages []))) }
        ensures size { OnOk result (IsPageSize page_bytes) }
        ensures occupied { OnOk result (IfSome (J.bytes journal) (λ js. length js ≡ 0)) }
        ensures refused { IfErr result (IsCreateRefusal N.errors page_bytes (J.bytes journal)) }
    {
        if !is_page_size(page_bytes) {
            return Err(PagesError::PageSize);
        }
        let Ok(page) = empty_contents(alloc, page_bytes as usize + (KEY_BYTES + TAG_BYTES)) else {
            return Err(PagesError::OutOfMemory);
        };
        let layout = FileLayout::new(key, page_bytes, id);
        begin_journal(&mut journal)?;
        begin_file(alloc, &mut storage, &mut nonces, &layout)?;
        Ok(Pages {
            alloc,
            storage,
            journal,
            nonces,
            layout,
            counter: 0,
            stored: 0,
            len: 0,
            changes: ChangedPages::new(alloc, page_bytes as usize),
            page,
            is_broken: false,
        })
    }

    /// Opens the file that the storage holds, and completes a commit that was cut short, or leaves out all of it, as
    /// [`crate::recover_file`] does, whose errors it returns. So it returns neither [`PagesError::Journal`] nor
    /// [`PagesError::Header`] after a commit of a file whose pages all open, and a crash that left no other whole
    /// journal and no forged header.
    pub fn open(
        alloc: A,
        mut storage: S,
        mut journal: J,
        nonces: N,
        key: &[u8; KEY_BYTES],
    ) -> Result<Self, PagesError>
        requires { KEY_BYTES ≡ key_length L.VARIANT.family }
        ensures under { IfOk result (λ pages. (pages.layout.variant ≡ L.VARIANT)
            × (pages.layout.key ≡ key.now)) }
        ensures header { IfOk result (λ pages. IfSome pages.bytes
            (IsHeader pages.layout pages.counter pages.stored)) }
        ensures contents { IfOk result (λ pages. J.bytes journal ≡ Some []
            → IfSome (S.bytes storage) (λ file. (contents : List ℕ)
            → IsFileOf L.VARIANT key.now contents file → HasContents pages contents)) }
        ensures recovered { IfOk result (λ pages. (before now : List ℕ)
            → (batch : RecoversContentsUnlessOtherJournal L.VARIANT key.now before now
            (S.disk storage) (J.disk journal))
            → IfSome (S.bytes storage) (λ file.
            IfSome (J.bytes journal) (MakesNoOther batch file))
            → OpensAtOne pages before now) }
        ensures committed { IfOk result (λ pages. (contents : List ℕ)
            → AreCommitted L.VARIANT key.now (S.disk storage) (J.disk journal) contents
            → HasContents pages contents × HasCommitted pages contents) }
        ensures accepts { IsLeftByCommit L.VARIANT key.now (S.bytes storage) (J.bytes journal)
            (S.disk storage) (J.disk journal)
            → (result ≢ Err PagesError.Journal) × (result ≢ Err PagesError.Header) }
        ensures fits { OnOk result (IfSome (S.bytes storage) (λ file.
            IfSome (J.bytes journal) (Fits L.VARIANT key.now file))) }
        ensures refused { IfErr result
            (IsOpenRefusal L.VARIANT key.now (S.bytes storage) (J.bytes journal)) }
    {
        let header = recover_file::<S, J, L, KEY_BYTES, A>(alloc, &mut storage, &mut journal, key)?;
        let layout = FileLayout::new(key, header.page_bytes, &header.id);
        let size = header.page_bytes as usize;
        let Ok(page) = empty_contents(alloc, size + (KEY_BYTES + TAG_BYTES)) else {
            return Err(PagesError::OutOfMemory);
        };
        Ok(Pages {
            alloc,
            storage,
            journal,
            nonces,
            layout,
            counter: header.counter,
            stored: header.len,
            len: header.len,
            changes: ChangedPages::new(alloc, size),
            page,
            is_broken: false,
        })
    }

    /// Returns how many bytes the contents have.
    pub fn len(&self) -> u64
        ensures { result ≡ self.now.len }
    {
        self.len
    }

    /// Returns whether the contents have no byte.
    pub fn is_empty(&self) -> bool
        ensures { IsTrue result ↔ (self.now.len ≡ 0) }
    {
        self.len == 0
    }

    /// Reads the bytes of the contents from `at` on until `out` is full or the contents end, and returns how many were
    /// read. Each is a byte of a page that was changed, or that opens under the key at its number in this file.
    ///
    /// Returns [`PagesError::Damaged`] with the number of a page that does not open, [`PagesError::Read`], or
    /// [`PagesError::Broken`]. Every byte of `out` is then zero.
    pub fn read_at(&mut self, at: u64, out: &mut [u8]) -> Result<usize, PagesError>
        ensures unchanged { IsUnchanged self.old self.new }
        ensures read { IfOk result (Reads self.old at (length out.old) out.new) }
        ensures whole { OnOk result ((contents : List ℕ) → HasContents self.old contents
            → at + length out.old ≤ self.old.len
            → out.new ≡ part_at contents at (length out.old)) }
        ensures written { OnOk result ((contents part : List ℕ) → length part ≡ length out.old
            → HasContents self.old (overwritten contents at part) → out.new ≡ part) }
        ensures erased { OnErr result (out.new ≡ replicate (length out.old) 0) }
        ensures broken { self.old.broken ≡ true → result ≡ Err PagesError.Broken }
        ensures refused { IfErr result (IsReadRefusal self.old.broken self.old.layout
            (contents_at self.old.changes) self.old.len self.old.bytes) }
    {
        if self.is_broken {
            out.fill(0);
            return Err(PagesError::Broken);
        }
        if at >= self.len {
            return Ok(0);
        }
        let count = (self.len - at).min(out.len() as u64) as usize;
        let read = read_range(
            &self.storage,
            &self.changes,
            &self.layout,
            &mut self.page.bytes,
            at,
            &mut out[..count],
        );
        if let Err(error) = read {
            out.fill(0);
            return Err(error);
        }
        Ok(count)
    }

    /// Writes all of `part` over the bytes of the contents from `at` on, in memory. What lies past the end is added,
    /// and a gap is filled with zeros, also if `part` is empty. A page of which some bytes are kept is read first.
    ///
    /// Returns [`PagesError::Broken`] or [`PagesError::TooLong`] before anything is changed, and otherwise
    /// [`PagesError::Read`], [`PagesError::Damaged`] or [`PagesError::OutOfMemory`]. The length is then as it was, and
    /// so are the pages that have no byte of the part or of a gap before it. No contract says what the others are: each
    /// is as before, or as it was to be.
    pub fn write_at(&mut self, at: u64, part: &[u8]) -> Result<(), PagesError>
        ensures stored { IsStoredAs self.old self.new }
        ensures len { self.new.len ≡ (if is_ok result
            then max self.old.len (at + length part.now) else self.old.len) }
        ensures written { OnOk result ((contents : List ℕ) → HasContents self.old contents
            → HasContents self.new (overwritten contents at part.now)) }
        ensures others { KeepsOthers self.old.layout.page_bytes (min at self.old.len)
            (at + length part.now) (contents_at self.old.changes) (contents_at self.new.changes) }
        ensures broken { self.old.broken ≡ true → result ≡ Err PagesError.Broken }
        ensures too_long { self.old.broken ≡ false → MAX_CONTENTS_BYTES < at + length part.now
            → result ≡ Err PagesError.TooLong }
        ensures refused { IfErr result (IsWriteRefusal self.old.broken self.old.layout
            (contents_at self.old.changes) self.old.len (at + length part.now) self.old.bytes) }
    {
        if self.is_broken {
            return Err(PagesError::Broken);
        }
        if at > MAX_CONTENTS_BYTES || part.len() as u64 > MAX_CONTENTS_BYTES - at {
            return Err(PagesError::TooLong);
        }
        change_range(
            self.alloc,
            &self.storage,
            &mut self.changes,
            &self.layout,
            self.len,
            &mut self.page.bytes,
            at,
            part,
        )?;
        self.len = self.len.max(at + part.len() as u64);
        Ok(())
    }

    /// Truncates the contents to `len` bytes, or fills them up to `len` with zeros, in memory. The errors, and what
    /// they leave, are those of `write_at`. A commit leaves the bytes past a new end in the storage, sealed.
    pub fn set_len(&mut self, len: u64) -> Result<(), PagesError>
        ensures stored { IsStoredAs self.old self.new }
        ensures len { self.new.len ≡ (if is_ok result then len else self.old.len) }
        ensures resized { OnOk result ((contents : List ℕ) → HasContents self.old contents
            → HasContents self.new (resized contents len)) }
        ensures others { KeepsOthers self.old.layout.page_bytes (min len self.old.len) len
            (contents_at self.old.changes) (contents_at self.new.changes) }
        ensures broken { self.old.broken ≡ true → result ≡ Err PagesError.Broken }
        ensures too_long { self.old.broken ≡ false → MAX_CONTENTS_BYTES < len
            → result ≡ Err PagesError.TooLong }
        ensures refused { IfErr result (IsWriteRefusal self.old.broken self.old.layout
            (contents_at self.old.changes) self.old.len len self.old.bytes) }
    {
        if len >= self.len {
            return self.write_at(len, &[]);
        }
        if self.is_broken {
            return Err(PagesError::Broken);
        }
        self.len = len;
        Ok(())
    }

    /// Writes all changes since the last commit, so that all of them are there after a crash, or none; with `Ok` they
    /// are certain to be. By [`aegis_storage::commit`]: the changed pages and the next header are sealed into the
    /// journal, then written to their places, and then the journal is emptied, each with a sync.
    ///
    /// Returns [`PagesError::Broken`], [`PagesError::TooLong`], [`PagesError::Read`], [`PagesError::Nonce`] or
    /// [`PagesError::OutOfMemory`] before anything is written: the file is as it was. After [`PagesError::Write`], also
    /// if only memory for the journal ran out, the file is broken: reads, changes and commits of a broken one return
    /// [`PagesError::Broken`]. Open it again, which gives the contents before the changes or those after them.
    pub fn commit(&mut self) -> Result<(), PagesError>
        ensures kept { (self.new.layout ≡ self.old.layout) × (self.new.len ≡ self.old.len) }
        ensures counted { OnOk result (self.new.counter ≡ self.old.counter + 1) }
        ensures committed { OnOk result ((contents : List ℕ) → HasContents self.old contents
            → HasContents self.new contents) }
        ensures crash { (before now : List ℕ) → HasCommitted self.old before
            → HasContents self.old now → RecoversOneUnlessOtherJournal self.new before now }
        ensures certain { OnOk result ((before now : List ℕ) → HasCommitted self.old before
            → HasContents self.old now → HasCommitted self.new now) }
        ensures broken { self.old.broken ≡ true → result ≡ Err PagesError.Broken }
        ensures breaks { IfErr result (Breaks self.old self.new) }
        ensures refused { IfErr result
            (IsCommitRefusal N.errors self.old.broken self.old.counter) }
    {
        if self.is_broken {
            return Err(PagesError::Broken);
        }
        let counter = next_counter(self.counter)?;
        let Some(header_block) = read_header_block(&self.storage)? else {
            return Err(PagesError::Read(io::Error::from(ErrorKind::UnexpectedEof)));
        };
        let writes = sealed_commit(
            self.alloc,
            &mut self.nonces,
            &self.layout,
            &self.changes,
            &header_block,
            counter,
            self.len,
        )?;
        let mut nonce = [0; NONCE_BYTES];
        match self.nonces.draw(&mut nonce) {
            Ok(()) => {}
            Err(error) => return Err(PagesError::Nonce(error)),
        }
        let key = journal_key::<L, KEY_BYTES>(self.layout.key());
        let committed = commit(
            self.alloc,
            &mut self.storage,
            &mut self.journal,
            &key,
            &self.layout.journal_beginning(),
            &nonce,
            &[],
            &writes,
        );
        match committed {
            Ok(()) => {
                self.counter = counter;
                self.stored = self.len;
                self.changes.clear();
                Ok(())
            }
            Err(error) => {
                self.is_broken = true;
                Err(PagesError::Write(error))
            }
        }
    }

    /// Forgets all changes since the last commit. The contents are those that were committed, also after a change that
    /// returned an error, and the next commit begins there.
    pub fn discard(&mut self)
        ensures stored { IsStoredAs self.old self.new }
        ensures len { self.new.len ≡ self.old.stored }
        ensures none { (k : ℕ) → contents_at self.new.changes k ≡ None }
        ensures contents { (file : OpenFile) (before now : List ℕ) → IsStoredAs file self.old
            → HasCommitted file before → HasContents file now → HasContents self.new before }
        ensures committed { (before : List ℕ) → HasCommitted self.old before
            → HasCommitted self.new before }
    {
        self.changes.clear();
        self.len = self.stored;
    }

    /// Gives the storage and the journal back. Changes that were not committed are lost.
    #[tactic(auto, unfolding(crate::specs::OpenFile::AreCommitted))]
    pub fn into_storages(self) -> (S, J)
        ensures bytes { S.bytes result.0 ≡ self.bytes }
        ensures disk { S.disk result.0 ≡ self.disk }
        ensures journal { J.disk result.1 ≡ self.journal }
        ensures committed { (variant : Variant) (key contents : List ℕ)
            → self.layout.variant ≡ variant → self.layout.key ≡ key → HasCommitted self contents
            → AreCommitted variant key (S.disk result.0) (J.disk result.1) contents }
    {
        let Pages {
            alloc: _,
            storage,
            journal,
            nonces: _,
            layout: _,
            counter: _,
            stored: _,
            len: _,
            changes: _,
            page: _,
            is_broken: _,
        } = self;
        (storage, journal)
    }

    /// Returns the file's commitment: a MAC of 32 bytes over the counter and the length in the header, and the tag of
    /// each page of the contents, as they were at the last commit. It is taken under the file's key and the nonce of
    /// all bytes 255, which `N` must never draw. A file whose header or page is an older one has another commitment,
    /// unless two MACs are equal by chance.
    ///
    /// Returns [`PagesError::Read`] if the storage could not be read, or ends before the last page does, or
    /// [`PagesError::Broken`].
    pub fn commitment(&self) -> Result<[u8; 32], PagesError>
        ensures is { IfOk result (λ mac. IfSome self.now.bytes
            (λ file. mac ≡ commitment self.now.layout self.now.counter self.now.stored file)) }
        ensures broken { self.now.broken ≡ true → result ≡ Err PagesError.Broken }
        ensures refused { IfErr result (IsCommitmentRefusal self.now.broken) }
    {
        if self.is_broken {
            return Err(PagesError::Broken);
        }
        file_commitment(&self.storage, &self.layout, self.counter, self.stored)
    }

    /// Returns `Ok` if the file's commitment is `expected`, which a call of [`Pages::commitment`] returned. All bytes
    /// are compared, whether they are equal or not.
    ///
    /// Returns [`PagesError::Commitment`] if it is another, and the errors of `commitment`.
    pub fn verify(&self, expected: &[u8; 32]) -> Result<(), PagesError>
        ensures is { OnOk result (IfSome self.now.bytes (λ file. expected.now
            ≡ commitment self.now.layout self.now.counter self.now.stored file)) }
        ensures broken { self.now.broken ≡ true → result ≡ Err PagesError.Broken }
        ensures refused { IfErr result (IsVerifyRefusal self.now.broken self.now.layout
            self.now.counter self.now.stored self.now.bytes expected.now) }
    {
        if self.is_broken {
            return Err(PagesError::Broken);
        }
        verify_commitment(
            &self.storage,
            &self.layout,
            self.counter,
            self.stored,
            expected,
        )
    }
}
