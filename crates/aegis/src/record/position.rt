//! The position of a record in its stream.

use crate::record::version::Version;

/// The position of a record in its stream: what a reader must know to open it without the records before it.
///
/// The record starts at byte `4 + 37 * number + before` of the stream.
#[derive(Clone, Copy, Debug, PartialEq, Eq)]
pub struct RecordPosition {
    pub version: Version,
    /// The record's number, from 0.
    pub number: u64,
    /// How many bytes the messages before it have.
    pub before: u64,
}
