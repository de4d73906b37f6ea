//! Damaged files.

use super::{Counter, KEY, copy, is_all, open, part_mut, read, small_file};
use aegis_pages::{PagesError, SealedPages256X2};
use std::alloc::Global;
use std::test::Fail;

// How many bytes the small file's pages begin after, and how many each has.
const BLOCK_BYTES: usize = 4096;

const PAGE_BYTES: usize = 32 + 256 + 32;

// How many bytes the header has.
const HEADER_BYTES: usize = 33 + 32 + 16 + 32;

// Whether the change of a byte is noticed. A file whose header was changed is none. A change of a page makes a read
// refuse it and erase the buffer. Other bytes are not looked at.
fn is_noticed(alloc: Global, changed: Vec<u8>, at: usize) -> Result<bool, PagesError> {
    let opened = open(alloc, changed, &KEY);
    if at < HEADER_BYTES {
        return Ok(matches!(opened, Err(PagesError::Header)));
    }
    let mut out = [9; 1000];
    let result = read(&mut opened?, 0, &mut out);
    if at < BLOCK_BYTES {
        return Ok(matches!(result, Ok(1000)) && is_all(&out, 5));
    }
    let number = ((at - BLOCK_BYTES) / PAGE_BYTES) as u64;
    Ok(matches!(result, Err(PagesError::Damaged(n)) if n == number) && is_all(&out, 0))
}

#[test]
fn each_byte_changed(rt: HostRuntime) -> Result<(), Fail> {
    let file = small_file(rt.alloc())?;
    assert_eq!(rt; file.len(), BLOCK_BYTES + 4 * PAGE_BYTES);
    for at in 0..file.len() {
        let mut changed = file.clone()?;
        changed[at] ^= 1;
        assert!(rt; is_noticed(rt.alloc(), changed, at)?, "at {at}");
    }
    Ok(())
}

#[test]
fn a_page_in_the_place_of_another(rt: HostRuntime) -> Result<(), Fail> {
    let alloc = rt.alloc();
    let mut file = small_file(alloc)?;
    let second = BLOCK_BYTES + PAGE_BYTES;
    let page = file.get(second..second + PAGE_BYTES).unwrap_or(&[]);
    let page = page.to_vec(alloc)?;
    copy(part_mut(&mut file, BLOCK_BYTES, second), &page);
    let mut pages = open(alloc, file, &KEY)?;
    let mut out = [9; 10];
    let result = read(&mut pages, 0, &mut out);
    assert!(rt; matches!(result, Err(PagesError::Damaged(0))));
    assert!(rt; matches!(read(&mut pages, 256, &mut out), Ok(10)));
    Ok(())
}

// Whether a file under this key has no header.
fn has_no_header(alloc: Global, file: Vec<u8>, key: &[u8; 32]) -> bool {
    matches!(open(alloc, file, key), Err(PagesError::Header))
}

#[test]
fn another_key_or_size(rt: HostRuntime) -> Result<(), Fail> {
    let file = small_file(rt.alloc())?;
    assert!(rt; has_no_header(rt.alloc(), file.clone()?, &[8; 32]));
    let mut short = file;
    short.truncate(511);
    assert!(rt; has_no_header(rt.alloc(), short, &KEY));
    Ok(())
}

#[test]
fn another_variant(rt: HostRuntime) -> Result<(), Fail> {
    let file = small_file(rt.alloc())?;
    let journal: Vec<u8> = Vec::new(rt.alloc());
    let opened = SealedPages256X2::open(rt.alloc(), file, journal, Counter(0), &KEY);
    assert!(rt; matches!(opened, Err(PagesError::Header)));
    Ok(())
}
