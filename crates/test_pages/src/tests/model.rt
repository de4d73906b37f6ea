//! Random calls on a random-access file and on a vector that holds the same contents.

use super::{Counter, ID, KEY, copy, part_mut};
use aegis_pages::SealedPages;
use aegis_storage::Storage;
use std::alloc::Global;
use std::fs::File;
use std::io;
use std::process::Abort;
use std::test::Fail;

const PAGE_SIZES: [u32; 5] = [256, 257, 1000, 4096, 65_536];

// How many calls are made before a file is closed.
const CALLS: u32 = 20;

// The name of the file that is made and removed.
const FILE: &str = "test_pages.sealed";

/// Where the bytes of a file are kept.
#[derive(Drop)]
enum Place {
    Memory(Vec<u8>),
    Disk(File),
}

impl Storage for Place {
    ghost possible = { λ _. tt };

    fn size(&self) -> io::Result<u64> {
        match self {
            Place::Memory(bytes) => bytes.size(),
            Place::Disk(file) => file.size(),
        }
    }

    fn read_at(&self, at: u64, out: &mut [u8]) -> io::Result<()> {
        match self {
            Place::Memory(bytes) => Storage::read_at(bytes, at, out),
            Place::Disk(file) => Storage::read_at(file, at, out),
        }
    }

    fn write_at(&mut self, at: u64, part: &[u8]) -> io::Result<()> {
        match self {
            Place::Memory(bytes) => Storage::write_at(bytes, at, part),
            Place::Disk(file) => Storage::write_at(file, at, part),
        }
    }

    fn set_size(&mut self, size: u64) -> io::Result<()> {
        match self {
            Place::Memory(bytes) => bytes.set_size(size),
            Place::Disk(file) => file.set_size(size),
        }
    }

    fn replace(&mut self, all: &[u8]) -> io::Result<()> {
        match self {
            // A vector is certain of its bytes.
            Place::Memory(_bytes) => Ok(()),
            Place::Disk(file) => file.replace(all),
        }
    }

    fn sync(&mut self) -> io::Result<()> {
        match self {
            Place::Memory(bytes) => bytes.sync(),
            Place::Disk(file) => file.sync(),
        }
    }
}

/// Numbers that look random: xorshift64.
#[derive(Drop)]
struct Random(u64);

impl Random {
    fn next(&mut self) -> u64 {
        let mut x = self.0;
        x ^= x << 13;
        x ^= x >> 7;
        x ^= x << 17;
        self.0 = x;
        x.wrapping_mul(0x2545_F491_4F6C_DD1D) >> 11
    }

    // A number below `n`, or 0 if `n` is 0.
    fn below(&mut self, n: u64) -> u64 {
        if n == 0 { 0 } else { self.next() % n }
    }

    fn fill(&mut self, bytes: &mut [u8]) {
        for byte in bytes.iter_mut() {
            *byte = (self.next() & 0xff) as u8;
        }
    }
}

/// Sealed pages, the contents that they are to hold, and room for a part of them.
#[derive(Drop)]
struct Pair {
    pages: SealedPages<Place, Vec<u8>, Counter, Global>,
    contents: Vec<u8>,
    part: Vec<u8>,
    random: Random,
    // The contents stay shorter.
    most: u64,
}

impl Pair {
    // Opens a file that holds the contents.
    fn open(
        alloc: Global,
        place: Place,
        contents: Vec<u8>,
        random: Random,
        most: u64,
    ) -> Result<Self, Fail> {
        Ok(Pair {
            pages: SealedPages::open(alloc, place, Vec::new(alloc), Counter(random.0), &KEY)?,
            contents,
            part: vec![in alloc; 0; most as usize]?,
            random,
            most,
        })
    }

    // Closes the file. Returns what `open` takes.
    fn close(self) -> Result<(Place, Vec<u8>, Random), Fail> {
        let Pair {
            mut pages,
            contents,
            part: _,
            random,
            most: _,
        } = self;
        pages.commit()?;
        let (place, _) = pages.into_storages();
        Ok((place, contents, random))
    }

    // Reads at a random place. Returns whether what was read is the contents'.
    fn read(&mut self) -> Result<bool, Fail> {
        let at = self.random.below(self.most);
        let n = self.random.below(self.most.wrapping_sub(at)) as usize;
        let out = part_mut(&mut self.part, 0, n);
        let count = self.pages.read_at(at, out)?;
        let rest = self.contents.get(at as usize..).unwrap_or(&[]);
        let wanted = rest.get(..rest.len().min(n));
        Ok(out.get(..count) == wanted)
    }

    // Writes random bytes at a random place, to both.
    fn write(&mut self, most: u64) -> Result<(), Fail> {
        let at = self.random.below(self.most);
        let n = self.random.below(self.most.wrapping_sub(at).min(most)) as usize;
        let bytes = part_mut(&mut self.part, 0, n);
        self.random.fill(bytes);
        self.pages.write_at(at, bytes)?;
        let end = (at as usize).wrapping_add(n);
        if end > self.contents.len() {
            self.contents.resize(end, 0)?;
        }
        copy(part_mut(&mut self.contents, at as usize, end), bytes);
        Ok(())
    }

    // Sets a random length, of both.
    fn set_len(&mut self) -> Result<(), Fail> {
        let len = self.random.below(self.most);
        self.pages.set_len(len)?;
        self.contents.resize(len as usize, 0)?;
        Ok(())
    }
}

// Makes random calls on a file, and compares each answer with the contents'.
fn make_calls<R: Abort>(rt: &R, pair: &mut Pair) -> Result<(), Fail> {
    for _ in 0..CALLS {
        let kind = pair.random.below(20);
        if kind < 4 {
            pair.write(u64::MAX)?;
        } else if kind < 9 {
            pair.write(300)?;
        } else if kind < 10 {
            pair.set_len()?;
        } else if kind < 12 {
            pair.pages.commit()?;
        } else {
            assert!(rt; pair.read()?);
        }
        assert_eq!(rt; pair.pages.len(), pair.contents.len() as u64);
    }
    Ok(())
}

// Makes random calls on a new file, which is closed and opened between them.
fn check<R: Abort + AllocGlobal>(
    rt: &R,
    place: Place,
    page_bytes: u32,
    openings: u32,
) -> Result<(), Fail> {
    let alloc = rt.alloc();
    let journal: Vec<u8> = Vec::new(alloc);
    let pages = SealedPages::create(alloc, place, journal, Counter(0), &KEY, &ID, page_bytes)?;
    let (mut place, _) = pages.into_storages();
    let mut contents = Vec::new(alloc);
    let mut random = Random(u64::from(page_bytes));
    for _ in 0..openings {
        let most = u64::from(page_bytes) * 9 + 17;
        let mut pair = Pair::open(alloc, place, contents, random, most)?;
        make_calls(rt, &mut pair)?;
        (place, contents, random) = pair.close()?;
    }
    Ok(())
}

#[test]
fn calls_on_a_vector(rt: HostRuntime) -> Result<(), Fail> {
    for page_bytes in PAGE_SIZES {
        let place = Place::Memory(Vec::new(rt.alloc()));
        check(&rt, place, page_bytes, 40)?;
    }
    Ok(())
}

#[test]
fn calls_on_a_file_of_the_system(rt: HostRuntime) -> Result<(), Fail> {
    for page_bytes in PAGE_SIZES {
        let file = File::options()
            .read(true)
            .write(true)
            .create(true)
            .truncate(true)
            .open(&rt, FILE)?;
        check(&rt, Place::Disk(file), page_bytes, 10)?;
    }
    std::fs::remove_file(&rt, FILE)?;
    Ok(())
}
