//! Tests of random-access files: random calls beside a vector that holds the same contents, files of other
//! variants, damaged files, and storages and memory that fail.
#![tactic(auto)]

#[cfg(test)]
mod tests;
