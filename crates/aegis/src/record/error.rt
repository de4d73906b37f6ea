//! Why a stream is refused.

ghost use Rattle.std.specs.Prelude.{◌≡◌};
ghost use Rattle.aegis.specs.declared.record.error.RecordError.TheVariants.{OutOfMemory};

use std::alloc::{AllocError, AllocFailed};
use thiserror::Error;

/// Why a record stream is refused: the first fault of its bytes, read from the start, or that memory ran out.
#[derive(Clone, Copy, Debug, PartialEq, Eq, Error)]
pub enum RecordError {
    /// The bytes begin with no known header.
    #[error("Bad header")]
    Header,
    /// The bytes end before a record, or inside one.
    #[error("Truncated")]
    Truncated,
    /// The first byte of a record is neither 0 nor 1.
    #[error("Bad flag")]
    Flag,
    /// The length of a record's message is more than the version allows.
    #[error("Record too long")]
    TooLong,
    /// No message is sealed to the record of this number, counted from 0.
    #[error("Damaged record {0}")]
    Damaged(u64),
    /// Bytes follow the last record.
    #[error("Trailing bytes")]
    Trailing,
    /// The allocator refused memory.
    #[error("Out of memory")]
    OutOfMemory,
}

impl From<AllocError> for RecordError {
    ghost from_gives = { λ _ e. e ≡ OutOfMemory };

    fn from(_error: AllocError) -> RecordError {
        RecordError::OutOfMemory
    }
}

impl<T: Drop> From<AllocFailed<T>> for RecordError {
    ghost from_gives = { λ _ e. e ≡ OutOfMemory };

    fn from(_error: AllocFailed<T>) -> RecordError {
        RecordError::OutOfMemory
    }
}
