//! Callers of the library, one of each kind of call and one at each variant, proved from its contracts alone: the crate
//! has no proof file. `docs/RATTLE.md` and the docs of `aegis` show some of them.
#![tactic(auto)]

pub mod c_library;
pub mod messages;
pub mod pages;
pub mod records;
pub mod sealed_file;
