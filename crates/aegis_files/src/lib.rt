//! Sealed files: a prefix of 24 bytes and a record stream under it, written and read one piece at a time.
//!
//! [`seal_stream`], [`open_stream`], [`open_range`] and [`rekey_stream`] read from any reader and write to any writer,
//! and hold one piece in memory. The caller chooses the key and the prefix. A prefix that was used before under the
//! same key is not detected.
//!
//! The contracts speak of readers and writers whose bytes are known, such as slices and vectors. For others, such as
//! files, they state nothing of the contents: the same code is tested there.
#![tactic(auto)]

mod error;
pub mod laws;
mod next;
mod open;
mod range;
mod reading;
mod rekey;
mod seal;
mod write;

pub use error::FileError;
pub use open::{BEGINNING_BYTES, FIRST, open_stream, read_prefix};
pub use range::{ContentsRange, OpenedRange, open_range};
pub use reading::fill;
pub use rekey::rekey_stream;
pub use seal::{PIECE_BYTES, seal_stream};
