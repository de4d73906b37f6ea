//! One record at a place that the caller counts, for a caller that keeps the state of a stream itself.
//!
//! Nothing here counts: two messages that are sealed at one place, under one key and one prefix, give each other away.
//! [`RecordSealer`](crate::record::RecordSealer) counts its records.

pub use crate::record::record_cipher::RecordCipher;
pub use crate::record::record_opener::open_record_in_place;
pub use crate::record::record_sealer::seal_record_in_place;
