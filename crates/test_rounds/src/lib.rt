//! Tests of the round and of rows.
#![tactic(auto)]

#[cfg(test)]
mod tests;
