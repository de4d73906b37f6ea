//! Writes a number to several rows of an encrypted file at once, so that a crash leaves all of them or none.
//!
//! `example_batches FILE JOURNAL` opens the file, and prints the number that its rows hold, or fails if they hold
//! several. With `write` as a third argument it then writes the numbers after it, until it is stopped. With no
//! argument it writes one number in memory.
#![tactic(auto)]

use aegis_pages::{DEFAULT_PAGE_BYTES, Nonces, SealedPages};
use aegis_storage::{JournalFile, Storage};
use std::alloc::Global;
use std::fs::File;
use std::io::Read;
use std::path::Path;
use std::{env, io};

// A real program reads its key from where it is kept.
const KEY: [u8; 32] = [7; 32];

// Names the file.
const ID: [u8; 24] = *b"example of several rows.";

// Rows of 8 bytes lie so far apart that each is in a page of its own.
const ROWS: u64 = 5;

const ROW_DISTANCE: u64 = 10_000;

/// The system's random bytes.
#[derive(Drop)]
struct SystemRandom(File);

impl Nonces for SystemRandom {
    fn draw(&mut self, nonce: &mut [u8]) -> io::Result<()> {
        self.0.read_exact(nonce)
    }
}

fn system_random(rt: &HostRuntime) -> io::Result<SystemRandom> {
    Ok(SystemRandom(File::open(rt, "/dev/urandom")?))
}

// Makes a new file, whose rows hold 0.
fn create<S: Storage + Drop, J: Storage + Drop>(
    rt: &HostRuntime,
    file: S,
    journal: J,
) -> anyhow::Result<SealedPages<S, J, SystemRandom, Global>> {
    let nonces = system_random(rt)?;
    let mut pages = SealedPages::create(
        rt.alloc(),
        file,
        journal,
        nonces,
        &KEY,
        &ID,
        DEFAULT_PAGE_BYTES,
    )?;
    pages.set_len(ROWS * ROW_DISTANCE)?;
    pages.commit()?;
    Ok(pages)
}

// Reads the number that all rows hold.
fn read_rows<S: Storage + Drop, J: Storage + Drop>(
    pages: &mut SealedPages<S, J, SystemRandom, Global>,
) -> anyhow::Result<u64> {
    let mut first = [0; 8];
    pages.read_at(0, &mut first)?;
    for row in 1..ROWS {
        let mut bytes = [0; 8];
        pages.read_at(row * ROW_DISTANCE, &mut bytes)?;
        if bytes != first {
            return Err(anyhow::anyhow!("row {row} differs from row 0"));
        }
    }
    Ok(u64::from_le_bytes(first))
}

// Writes the number after that of the rows to all of them, and returns it.
fn write_next<S: Storage + Drop, J: Storage + Drop>(
    pages: &mut SealedPages<S, J, SystemRandom, Global>,
) -> anyhow::Result<u64> {
    let number = read_rows(pages)?.wrapping_add(1);
    for row in 0..ROWS {
        pages.write_at(row * ROW_DISTANCE, &number.to_le_bytes())?;
    }
    pages.commit()?;
    Ok(number)
}

// Opens a file for reading and writing, and makes it if there is none.
fn open_file(rt: &HostRuntime, path: &str) -> io::Result<File> {
    File::options()
        .read(true)
        .write(true)
        .create(true)
        .open(rt, path)
}

// The name of the folder that a file is in.
fn folder(file: &str) -> &str {
    match Path::new(file).parent() {
        Some(folder) if !folder.as_str().is_empty() => folder.as_str(),
        _ => ".",
    }
}

fn main(rt: HostRuntime) -> anyhow::Result<()> {
    let mut arguments = env::args(&rt)?;
    let (Some(path), Some(journal_path)) = (arguments.nth(1), arguments.nth(0)) else {
        let (file, journal): (Vec<u8>, Vec<u8>) = (Vec::new(rt.alloc()), Vec::new(rt.alloc()));
        let mut pages = create(&rt, file, journal)?;
        let number = write_next(&mut pages)?;
        println!(rt; "all rows hold {number}")?;
        return Ok(());
    };
    let file = open_file(&rt, &path)?;
    let copy_path = format!(in rt.alloc(); "{journal_path}.copy")?;
    let journal = JournalFile::open(&rt, &journal_path, &copy_path, folder(&journal_path))?;
    let mut pages = if file.size()? == 0 {
        create(&rt, file, journal)?
    } else {
        SealedPages::open(rt.alloc(), file, journal, system_random(&rt)?, &KEY)?
    };
    let number = read_rows(&mut pages)?;
    println!(rt; "all rows hold {number}")?;
    if arguments.next().is_some() {
        for _ in 0..u64::MAX {
            write_next(&mut pages)?;
        }
    }
    Ok(())
}
