//! Slow functions for sealing and MACs, written from the definitions, one lane at a time, for comparison with
//! the library. They share nothing with it but the types that name a cipher.

mod lane;
mod mac;
mod round;
mod slow;

pub use lane::{TwoBlocks, halves};
pub use mac::slow_mac;
pub use round::SubstitutionTable;
pub use slow::slow_seal;
