//! The bodies of the calls of the C library.
//!
//! A call takes slices of any lengths, and returns why it is refused, if it is: a [`refusal::Refusal`]. `message` has
//! the calls on a whole message or input, and `state` those on a state that C owns, each written once for all variants.
//! `record` has those on record streams, `page` those on the pages and headers of random-access files, `journal` those
//! on their journals, and `steps` those on the order in which they are written. Their contracts are the records of
//! `specs/Calls.antt` and `specs/PageCalls.antt`, each of the name of its call, at the code that C gets. The exports of
//! `aegis_c` have them too, for the variant of a number of `variant`.
//!
//! No body is inlined into an export. That only chooses one of the six, and each keeps the registers and the frame that
//! it has alone. The four on a chunk are inlined into functions of `aegis_c` that return their codes.
#![tactic(auto)]

pub mod journal;
mod keys;
pub mod message;
pub mod page;
pub mod record;
pub mod refusal;
pub mod state;
pub mod steps;
pub mod variant;
