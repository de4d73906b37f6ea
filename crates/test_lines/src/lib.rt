//! Tests of the line program: readers, writers and memory that fail, and long lines.
#![tactic(auto)]

#[cfg(test)]
mod tests;
