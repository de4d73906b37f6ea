//! Streams of numbered records over AEGIS-256 with tags of 32 bytes.
//!
//! A record stream seals a list of messages under a key, a prefix and a context: [`seal_records`] makes it and
//! [`open_records`] returns the list. It is a header and a record for each message: a flag, 1 for the last record and
//! otherwise 0, the message's length in four bytes, least byte first, the ciphertext, and the tag. The nonce of a
//! record is the prefix and then the record's number in eight bytes; its associated data has the header, the number, in
//! version 2 how many bytes the messages before it have, the flag and the context.
//!
//! A list that is sealed and opened again:
//!
//! ```
//! pub fn sealed_and_opened_records<A: Allocator + Copy>(
//!     alloc: A,
//!     key: &[u8; 32],
//!     prefix: &[u8; 24],
//!     context: &[u8],
//!     messages: &[&[u8]],
//! ) -> Result<Vec<Vec<u8, A>, A>, RecordError>
//!     requires some { 0 < length messages.now }
//!     requires within { AreWithin Second (texts messages.now) }
//!     requires context_within { length context.now ≤ MAX_CONTEXT_BYTES }
//!     requires fits { records_length (texts messages.now) ≤ MAX_AEAD_BYTES }
//!     ensures { OpensTo (texts messages.now) result }
//! {
//!     let stream = seal_records(alloc, key, prefix, context, messages)?;
//!     open_records(alloc, key, prefix, context, &stream)
//! }
//! ```
//!
//! [`RecordSealer`] and [`RecordOpener`] seal and open a stream one record at a time;
//! [`RecordSealer::seal_next_in_place`] and [`RecordOpener::open_next_in_place`] do so in the buffer that holds the
//! record, and allocate nothing.
//!
//! Not covered: that a prefix is used once under its key, which the caller has to ensure.
mod error;
mod frame;
pub mod laws;
mod length;
mod migration;
mod open;
pub mod placed;
mod position;
mod record_cipher;
mod record_opener;
mod record_sealer;
mod seal;
mod version;

pub use error::RecordError;
pub use length::{RECORD_BYTES, RECORD_HEAD_BYTES, records_len};
pub use migration::migrate;
pub use open::open_records;
pub use position::RecordPosition;
pub use record_cipher::MAX_CONTEXT_BYTES;
pub use record_opener::{Opened, OpenedInPlace, RecordOpener};
pub use record_sealer::RecordSealer;
pub use seal::seal_records;
pub use version::{MAX_MESSAGE_BYTES, Version};
