//! Tests of sealed files: each fault of a file, and readers, writers and memory that fail.
#![tactic(auto)]

#[cfg(test)]
mod tests;
