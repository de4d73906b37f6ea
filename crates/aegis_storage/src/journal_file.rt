//! A journal in a file.

use crate::store::Storage;
use std::fs::{File, OpenOptions};
use std::io::ErrorKind;
use std::os::unix::fs::{FileExt, OpenOptionsExt};
use std::{fs, io};

// Only its owner may read and write a file that is made.
const OWNER_ONLY: u32 = 0o600;

/// A journal in the file `path`, which is replaced by way of the file `copy_path` in the same folder, `folder`. The
/// three are paths of one file system.
///
/// The caller locks the storage that the journal is of, so that one process at a time has them. Nothing is proved of
/// what files hold: `bytes` and `disk` are not known.
#[derive(Drop)]
pub struct JournalFile<'a> {
    rt: &'a HostRuntime,
    path: &'a str,
    copy_path: &'a str,
    folder: &'a str,
    file: File,
}

impl<'a> JournalFile<'a> {
    /// Opens the journal, and makes an empty one if there is none, with its name synced.
    pub fn open(
        rt: &'a HostRuntime,
        path: &'a str,
        copy_path: &'a str,
        folder: &'a str,
    ) -> io::Result<JournalFile<'a>> {
        let file = OpenOptions::new()
            .read(true)
            .write(true)
            .create(true)
            .mode(OWNER_ONLY)
            .open(rt, path)?;
        File::open(rt, folder)?.sync_all()?;
        Ok(JournalFile {
            rt,
            path,
            copy_path,
            folder,
            file,
        })
    }

    // Makes the copy, and syncs it. What an earlier try left under its name is removed.
    fn synced_copy(&self, all: &[u8]) -> io::Result<File> {
        match fs::remove_file(self.rt, self.copy_path) {
            Ok(()) => {}
            Err(error) => {
                if error.kind() != ErrorKind::NotFound {
                    return Err(error);
                }
            }
        }
        let copy = OpenOptions::new()
            .read(true)
            .write(true)
            .create_new(true)
            .mode(OWNER_ONLY)
            .open(self.rt, self.copy_path)?;
        copy.write_all_at(all, 0)?;
        copy.sync_all()?;
        Ok(copy)
    }
}

impl Storage for JournalFile<'_> {
    ghost possible = { λ _. tt };

    fn size(&self) -> io::Result<u64> {
        Ok(self.file.metadata()?.len())
    }

    fn read_at(&self, at: u64, out: &mut [u8]) -> io::Result<()> {
        self.file.read_exact_at(out, at)
    }

    fn write_at(&mut self, at: u64, part: &[u8]) -> io::Result<()> {
        self.file.write_all_at(part, at)
    }

    fn set_size(&mut self, size: u64) -> io::Result<()> {
        self.file.set_len(size)
    }

    /// Returns an error before the rename with the old file in place, and after it with the copy.
    fn replace(&mut self, all: &[u8]) -> io::Result<()> {
        let copy = self.synced_copy(all)?;
        fs::rename(self.rt, self.copy_path, self.path)?;
        self.file = copy;
        File::open(self.rt, self.folder)?.sync_all()
    }

    fn sync(&mut self) -> io::Result<()> {
        self.file.sync_all()
    }
}
