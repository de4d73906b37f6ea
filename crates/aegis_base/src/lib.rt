//! What the crates of AEGIS share: the definitions (in `specs/`), the errors and limits, the traits that each variant
//! implements, and the laws that follow from the definitions.
#![tactic(auto)]

mod chunks;
mod constants;
mod error;
pub mod laws;
mod saved;
mod state;
mod vectors;

pub use chunks::{chunks_len, counted, counted_within};
pub use constants::{C0, C1, bit_lengths};
pub use error::{Error, MAX_AEAD_BYTES, Tag};
pub use saved::{SavedLanes, SavedRows};
pub use state::LaneState;
pub use vectors::slices;
