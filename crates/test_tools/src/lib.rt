//! What the tests share: keys, nonces and a keystream of any variant, an allocator that refuses requests, readers and
//! writers that fail, and a worked example.
#![tactic(auto)]

pub mod ends;
pub mod inputs;
pub mod memory;
