//! Where the bytes of a file are kept.

ghost use Rattle.std.specs.Prelude.{◌≡◌, ◌+◌, ◌≤◌, ◌⊎◌, ◌∷◌, [], IfErr, IfOk, IfSome, List, None, OnErr, OnOk, Option, Some, length, ⊤, ℕ};
ghost use Rattle.std.proofs.Common.{refl};
ghost use Rattle.std.specs.declared.io.Error.{Error};
ghost use Rattle.std.specs.Io.KnownBytes.{Keeps};
ghost use Rattle.aegis_storage.specs.Disk.{Adds, Disk, IsPossible, IsSynced, MakesCertain, ResizesTo, Size, Spoils, TearsAt, Write, WritesAt, certain, part_at};
ghost use Rattle.aegis_storage.specs.Journal.{IsOutOfMemory, IsPastEnd};

use crate::bytes::put;
use std::alloc::Allocator;
use std::fs::File;
use std::io;
use std::io::ErrorKind;
use std::os::unix::fs::FileExt;

/// The last byte that a storage is asked for lies below this place, 2^63 - 1.
pub const MAX_STORAGE_BYTES: u64 = 9_223_372_036_854_775_807;

/// Bytes that are read and written at any place, as those of a file.
///
/// Its ghost member `bytes` is what it holds, where that is known: for a vector its items, and for a file `None`, since
/// others may write the file too. The contracts then say nothing but that each call is safe and returns.
///
/// Its ghost member `disk` is what a crash may leave of the bytes, where that is known: what was synced, and the
/// changes since. A crash is an event of this model: a vector is certain of its items in the model, as a disk that
/// writes at once would be, and is still lost when its process ends. For files `disk` is `None`.
///
/// Its ghost member `errors` has the errors that its calls may return, except `UnexpectedEof` of `read_at`, whose cause
/// is known. For a vector that is `OutOfMemory`; for a file they are any.
pub trait Storage {
    // All the bytes, where they are known.
    ghost bytes: { Self → Option (List ℕ) } = { λ _. None };

    // What a crash may leave of them, where that is known.
    ghost disk: { Self → Option Disk } = { λ _. None };

    // Which errors the calls may return.
    ghost errors: { Error → Type 0 } = { λ _. ⊤ };

    /// Returns the number of bytes.
    fn size(&self) -> io::Result<u64>
        ensures size { IfOk result (λ n. IfSome (bytes self.now) (λ xs. n ≡ length xs)) }
        ensures cause { IfErr result errors };

    /// Reads the bytes from `at` on until `out` is full. Returns an error if there are fewer, or if reading fails; the
    /// content of `out` is then any bytes.
    fn read_at(&self, at: u64, out: &mut [u8]) -> io::Result<()>
        requires { at + length out.old ≤ MAX_STORAGE_BYTES }
        ensures read { OnOk result (IfSome (bytes self.now)
            (λ xs. out.new ≡ part_at xs at (length out.old))) }
        ensures cause { IfErr result
            (λ e. errors e ⊎ IsPastEnd (bytes self.now) at (length out.old) e) };

    /// Writes all of `part` over the bytes from `at` on. What lies past the end is added, and a gap is filled with
    /// zeros. After an error the bytes from `at` on may be any, as many as `part` has at most, and the others are as
    /// they were. Until a sync, a crash may leave any parts of the write. After an error it may leave them for ever,
    /// and so it may any part of what was not synced yet.
    fn write_at(&mut self, at: u64, part: &[u8]) -> io::Result<()>
        requires { at + length part.now ≤ MAX_STORAGE_BYTES }
        ensures written { OnOk result (WritesAt (bytes self.old) (bytes self.new) at part.now) }
        ensures torn { OnErr result
            (TearsAt (bytes self.old) (bytes self.new) at (length part.now)) }
        ensures pending { OnOk result
            (Adds (disk self.old) (disk self.new) (Write at part.now ∷ [])) }
        ensures spoilt { OnErr result
            (Spoils (disk self.old) (disk self.new) (Write at part.now ∷ [])) }
        ensures cause { IfErr result errors };

    /// Cuts the bytes off at `size`, or fills them up to it with zeros. After an error they are as they were. Until a
    /// sync, a crash may leave the one size or the other, and after an error for ever.
    fn set_size(&mut self, size: u64) -> io::Result<()>
        requires { size ≤ MAX_STORAGE_BYTES }
        ensures resized { OnOk result (ResizesTo (bytes self.old) (bytes self.new) size) }
        ensures kept { OnErr result (Keeps (bytes self.old) (bytes self.new)) }
        ensures pending { OnOk result (Adds (disk self.old) (disk self.new) (Size size ∷ [])) }
        ensures spoilt { OnErr result (Spoils (disk self.old) (disk self.new) (Size size ∷ [])) }
        ensures cause { IfErr result errors };

    /// Replaces what the storage holds by a copy of it that is synced: for a file, the copy is written under another
    /// name, synced, and renamed over the old one, and then the folder is synced. So all of it is certain with `Ok`,
    /// also what an earlier sync that failed may have left out: Linux forgets it, and reports no error again. After an
    /// error or a crash the storage is the old one or the copy. `all` is what the storage holds.
    fn replace(&mut self, all: &[u8]) -> io::Result<()>
        requires all { IfSome (bytes self.old) (λ xs. all.now ≡ xs) }
        requires within { length all.now ≤ MAX_STORAGE_BYTES }
        ensures kept { Keeps (bytes self.old) (bytes self.new) }
        ensures certain { OnOk result
            (MakesCertain (bytes self.old) (disk self.old) (disk self.new)) }
        ensures spoilt { OnErr result (Spoils (disk self.old) (disk self.new) []) }
        ensures cause { IfErr result errors };

    /// Returns once a crash leaves what can be read, unless an earlier call failed and not all that may be lost was
    /// written again since, or replaced: then this may be lost too. For a file the system must ensure that; a vector's
    /// contract speaks of the model alone. After an error what was pending may be lost for ever, although it can be
    /// read.
    fn sync(&mut self) -> io::Result<()>
        ensures kept { Keeps (bytes self.old) (bytes self.new) }
        ensures synced { OnOk result (IsSynced (disk self.old) (disk self.new)) }
        ensures spoilt { OnErr result (Spoils (disk self.old) (disk self.new) []) }
        ensures cause { IfErr result errors };

    /// What can be read is one of the contents that a crash may leave.
    ghost possible: { (storage : Self) → IsPossible (bytes storage) (disk storage) };
}

impl<A: Allocator> Storage for Vec<u8, A> {
    ghost bytes = { λ v. Some v.items };

    ghost disk = { λ v. Some (certain v.items) };

    ghost errors = { IsOutOfMemory };

    ghost possible = { λ v. record { base = v.items; of_lost = refl; parts = []; of_pending = tt; are = refl } };

    fn size(&self) -> io::Result<u64> {
        Ok(self.as_slice().len() as u64)
    }

    fn read_at(&self, at: u64, out: &mut [u8]) -> io::Result<()> {
        let start = at as usize;
        let end = start + out.len();
        if end > self.as_slice().len() {
            return Err(io::Error::from(ErrorKind::UnexpectedEof));
        }
        out.copy_from_slice(&self.as_slice()[start..end]);
        Ok(())
    }

    #[tactic(auto, using(crate::proofs::Disks::made, crate::proofs::Disks::unmade, crate::proofs::Overwriting::grown))]
    fn write_at(&mut self, at: u64, part: &[u8]) -> io::Result<()> {
        let start = at as usize;
        let end = start + part.len();
        if end > self.as_slice().len() {
            self.resize(end, 0)?;
        }
        put(self, start, part);
        Ok(())
    }

    #[tactic(auto, using(crate::proofs::Disks::unmade, crate::proofs::Disks::made))]
    fn set_size(&mut self, size: u64) -> io::Result<()> {
        self.resize(size as usize, 0)?;
        Ok(())
    }

    fn replace(&mut self, _all: &[u8]) -> io::Result<()> {
        Ok(())
    }

    fn sync(&mut self) -> io::Result<()> {
        Ok(())
    }
}

/// A storage that keeps nothing: the journal of a caller that wants no safety from crashes. Its bytes are not known, so
/// no clause on a crash says anything then.
#[derive(Clone, Copy, Drop)]
pub struct NoJournal;

impl Storage for NoJournal {
    ghost possible = { λ _. tt };

    fn size(&self) -> io::Result<u64> {
        Ok(0)
    }

    fn read_at(&self, _at: u64, out: &mut [u8]) -> io::Result<()> {
        if out.is_empty() {
            return Ok(());
        }
        Err(io::Error::from(ErrorKind::UnexpectedEof))
    }

    fn write_at(&mut self, _at: u64, _part: &[u8]) -> io::Result<()> {
        Ok(())
    }

    fn set_size(&mut self, _size: u64) -> io::Result<()> {
        Ok(())
    }

    fn replace(&mut self, _all: &[u8]) -> io::Result<()> {
        Ok(())
    }

    fn sync(&mut self) -> io::Result<()> {
        Ok(())
    }
}

/// A file has no name of its own to be replaced under: it is no journal. One that is recovered by is a
/// [`crate::JournalFile`].
impl Storage for File {
    ghost possible = { λ _. tt };

    fn size(&self) -> io::Result<u64> {
        Ok(self.metadata()?.len())
    }

    fn read_at(&self, at: u64, out: &mut [u8]) -> io::Result<()> {
        self.read_exact_at(out, at)
    }

    fn write_at(&mut self, at: u64, part: &[u8]) -> io::Result<()> {
        self.write_all_at(part, at)
    }

    fn set_size(&mut self, size: u64) -> io::Result<()> {
        self.set_len(size)
    }

    /// Returns `Unsupported`: the file's name is not known here.
    fn replace(&mut self, _all: &[u8]) -> io::Result<()> {
        Err(io::Error::from(ErrorKind::Unsupported))
    }

    fn sync(&mut self) -> io::Result<()> {
        self.sync_all()
    }
}
