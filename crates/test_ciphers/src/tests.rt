//! The tests, and the comparison that they share.

mod each_function;
mod each_variant;
mod examples;
mod memory;
mod records;
mod texts;

use std::fmt::Debug;
use std::process::Abort;

// Asserts that bytes are the expected ones, and names the case otherwise.
fn assert_bytes<R: Abort, C: Debug>(rt: &R, bytes: &[u8], expected: &[u8], case: &C) {
    assert_eq!(rt; bytes, expected, "{case:?}");
}
