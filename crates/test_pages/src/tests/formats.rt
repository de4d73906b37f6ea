//! The format's bytes.

use super::crashes::{ALL_CALLS, cut};
use super::{KEY, small_file};
use aegis::aegis256::Aegis256Mac;
use std::process::Abort;
use std::test::Fail;

// The MAC of the small file, under a nonce of zeros.
const MAC: [u8; 16] = [
    66, 95, 84, 100, 141, 176, 61, 104, 111, 84, 143, 156, 241, 205, 194, 185,
];

// Asserts the MAC of bytes.
fn check_mac<R: Abort>(rt: &R, bytes: &[u8], expected: [u8; 16]) {
    let mut mac = Aegis256Mac::<16>::new(&KEY);
    assert!(rt; bytes.len() as u64 <= mac.remaining());
    mac.update(bytes);
    assert_eq!(rt; mac.finalize(), expected);
}

// The Cargo package's module `raf` writes the same file by the same nonces: its tests compare with this MAC too.
#[test]
fn the_small_file(rt: HostRuntime) -> Result<(), Fail> {
    check_mac(&rt, &small_file(rt.alloc())?, MAC);
    Ok(())
}

// The MACs of the journal of a commit, and of the file after it.
const JOURNAL_MAC: [u8; 16] = [
    72, 151, 27, 172, 3, 29, 147, 252, 121, 112, 166, 196, 67, 129, 239, 30,
];

const CHANGED_MAC: [u8; 16] = [
    193, 200, 198, 72, 90, 10, 43, 29, 250, 173, 233, 197, 240, 242, 78, 241,
];

// How many calls of the journal succeed in the commit, which then fails to empty it.
const JOURNAL_CALLS: u64 = 5;

// The Cargo package writes the same journal by the same nonces, and then the same file: its tests compare with these
// MACs too.
#[test]
fn a_commit_of_the_small_file(rt: HostRuntime) -> Result<(), Fail> {
    let (file, journal, is_done) = cut(rt.alloc(), ALL_CALLS, JOURNAL_CALLS)?;
    assert!(rt; !is_done);
    check_mac(&rt, &journal.current()?, JOURNAL_MAC);
    check_mac(&rt, &file.current()?, CHANGED_MAC);
    Ok(())
}
