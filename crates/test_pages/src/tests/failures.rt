//! Memory that fails, and changes that are forgotten.

use super::{Counter, ID, KEY, is_all, open, read, small_file, write};
use aegis_pages::{PagesError, SealedPages};
use std::test::Fail;
use test_tools::memory::Rationed;

// A sealed page is asked for, and then each changed page.
#[test]
fn memory_is_refused(rt: HostRuntime) -> Result<(), Fail> {
    let alloc = rt.alloc();
    let none = Rationed::new(alloc, 0);
    let (file, journal): (Vec<u8>, Vec<u8>) = (Vec::new(alloc), Vec::new(alloc));
    let created = SealedPages::create(&none, file, journal, Counter(0), &KEY, &ID, 256);
    assert!(rt; matches!(created, Err(PagesError::OutOfMemory)));
    let journal: Vec<u8> = Vec::new(alloc);
    let opened = SealedPages::open(&none, small_file(alloc)?, journal, Counter(0), &KEY);
    assert!(rt; opened.is_err());
    Ok(())
}

#[test]
fn changes_are_discarded(rt: HostRuntime) -> Result<(), Fail> {
    let mut pages = open(rt.alloc(), small_file(rt.alloc())?, &KEY)?;
    write(&mut pages, 900, &[6; 500])?;
    assert_eq!(rt; pages.len(), 1400);
    pages.discard();
    assert_eq!(rt; pages.len(), 1000);
    let mut out = [9; 1000];
    assert_eq!(rt; read(&mut pages, 0, &mut out)?, 1000);
    assert!(rt; is_all(&out, 5));
    Ok(())
}
