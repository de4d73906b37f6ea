//! Tests of the ciphers and of record streams: one crate, so that each call of a variant is compiled only once.
#![tactic(auto)]

#[cfg(test)]
mod tests;
