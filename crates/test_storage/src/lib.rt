//! Tests of storages that crash, over a disk that tears what was not synced.
#![tactic(auto)]

pub mod disk;
pub mod pending;
pub mod tears;
#[cfg(test)]
mod tests;
