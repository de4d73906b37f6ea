//! The proved part of the C library.
//!
//! An export is one call of `aegis_c_calls`, for the variant that its first parameter or its state names, and has the
//! contract of that call at that variant. `by_variant` alone matches the numbers of variants with their types.
//! `message` has the exports for a whole message or input, `state` those on a state, `record` those on a record stream,
//! `page` those on a page and a header of a random-access file, `journal` those on its journal, and `steps` those on
//! the order of a commit and of a recovery.
//!
//! C programs do not see these exports. They are local to the library, whose calls (`c/library`) are C over them: a
//! slice comes as a pointer and a length, and the pointer is never null, even if the length is 0.
#![tactic(auto)]

mod by_variant;
mod journal;
mod message;
mod page;
mod record;
mod state;
mod steps;
