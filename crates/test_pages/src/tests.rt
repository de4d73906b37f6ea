//! What the tests share.

mod crashes;
mod damage;
mod failures;
mod formats;
mod model;
mod variants;

use aegis_pages::{Nonces, PagesError, SealedPages};
use aegis_storage::Storage;
use std::alloc::Global;
use std::io;

/// The key of files under AEGIS-256 and its variants.
const KEY: [u8; 32] = [7; 32];

/// The key of files under AEGIS-128L and its variants.
const SHORT_KEY: [u8; 16] = [7; 16];

const ID: [u8; 24] = [9; 24];

/// Nonces that count up.
#[derive(Drop)]
struct Counter(u64);

/// Sealed pages of the tests.
type TestPages<S, J> = SealedPages<S, J, Counter, Global>;

/// Sealed pages in vectors.
type InVectors = TestPages<Vec<u8>, Vec<u8>>;

/// Creates a file with empty contents.
fn create<S: Storage + Drop, J: Storage + Drop>(
    alloc: Global,
    storage: S,
    journal: J,
    id: &[u8; 24],
    page_bytes: u32,
) -> Result<TestPages<S, J>, PagesError> {
    SealedPages::create(alloc, storage, journal, Counter(0), &KEY, id, page_bytes)
}

/// Opens a file with a journal.
fn open_with<S: Storage + Drop, J: Storage + Drop>(
    alloc: Global,
    storage: S,
    journal: J,
    nonces: Counter,
    key: &[u8; 32],
) -> Result<TestPages<S, J>, PagesError> {
    SealedPages::open(alloc, storage, journal, nonces, key)
}

/// Opens a file with an empty journal.
fn open(alloc: Global, file: Vec<u8>, key: &[u8; 32]) -> Result<InVectors, PagesError> {
    open_with(alloc, file, Vec::new(alloc), Counter(1 << 20), key)
}

/// Reads a part of the contents, and returns how many bytes it has.
fn read<S: Storage + Drop, J: Storage + Drop>(
    pages: &mut TestPages<S, J>,
    at: u64,
    out: &mut [u8],
) -> Result<usize, PagesError> {
    pages.read_at(at, out)
}

/// Writes a part of the contents.
fn write<S: Storage + Drop, J: Storage + Drop>(
    pages: &mut TestPages<S, J>,
    at: u64,
    part: &[u8],
) -> Result<(), PagesError> {
    pages.write_at(at, part)
}

/// Commits what was written.
fn commit<S: Storage + Drop, J: Storage + Drop>(
    pages: &mut TestPages<S, J>,
) -> Result<(), PagesError> {
    pages.commit()
}

impl Nonces for Counter {
    fn draw(&mut self, nonce: &mut [u8]) -> io::Result<()> {
        if nonce.len() >= 8 {
            nonce[..8].copy_from_slice(&self.0.to_le_bytes());
        }
        self.0 = self.0.wrapping_add(1);
        Ok(())
    }
}

/// The bytes from `from` up to `to`, or none if there are fewer.
fn part_mut(bytes: &mut [u8], from: usize, to: usize) -> &mut [u8] {
    if from <= to && to <= bytes.len() {
        &mut bytes[from..to]
    } else {
        &mut bytes[..0]
    }
}

/// The first `count` bytes, or all of them if there are fewer.
fn first(bytes: &[u8], count: usize) -> &[u8] {
    bytes.get(..count).unwrap_or(bytes)
}

/// Copies `from` over `to`, if both are equally long.
fn copy(to: &mut [u8], from: &[u8]) {
    if to.len() == from.len() {
        to.copy_from_slice(from);
    }
}

/// The file of 1,000 bytes of 5, in pages of 256 bytes.
fn small_file(alloc: Global) -> Result<Vec<u8>, PagesError> {
    let (file, journal): (Vec<u8>, Vec<u8>) = (Vec::new(alloc), Vec::new(alloc));
    let mut pages = create(alloc, file, journal, &ID, 256)?;
    write(&mut pages, 0, &[5; 1000])?;
    commit(&mut pages)?;
    Ok(pages.into_storages().0)
}

/// Whether all bytes are this one.
fn is_all(bytes: &[u8], byte: u8) -> bool {
    bytes.iter().all(|b| *b == byte)
}
