//! The errors of sealing and opening.

use aegis::record::RecordError;
use std::alloc::{AllocError, AllocFailed};
use std::io;
use thiserror::Error;

/// The error of [`crate::seal_stream`], [`crate::open_stream`], [`crate::open_range`] or [`crate::rekey_stream`]. Their
/// documentation has what was written before an error.
#[derive(Debug, Drop, Error)]
pub enum FileError {
    /// The input could not be read.
    #[error("reading: {0}")]
    Read(io::Error),
    /// The output could not be written.
    #[error("writing: {0}")]
    Write(io::Error),
    /// The fault of the file, or that memory ran out.
    #[error("{0}")]
    Stream(RecordError),
    /// The record stream would have more than 2^61 - 1 bytes.
    #[error("the record stream is too long")]
    TooLong,
}

impl From<RecordError> for FileError {
    ghost use Rattle.std.specs.Prelude.{◌≡◌};
    ghost use Rattle.aegis_files.specs.declared.error.FileError.TheVariants.{Stream};

    ghost from_gives = { λ e made. made ≡ Stream e };

    fn from(error: RecordError) -> FileError {
        FileError::Stream(error)
    }
}

impl From<AllocError> for FileError {
    ghost use Rattle.std.specs.Prelude.{◌≡◌};
    ghost use Rattle.aegis_files.specs.declared.error.FileError.TheVariants.{Stream};
    ghost use Rattle.aegis.specs.declared.record.error.RecordError.TheVariants.{OutOfMemory};

    ghost from_gives = { λ _ made. made ≡ Stream OutOfMemory };

    fn from(_error: AllocError) -> FileError {
        FileError::Stream(RecordError::OutOfMemory)
    }
}

impl<T: Drop> From<AllocFailed<T>> for FileError {
    ghost use Rattle.std.specs.Prelude.{◌≡◌};
    ghost use Rattle.aegis_files.specs.declared.error.FileError.TheVariants.{Stream};
    ghost use Rattle.aegis.specs.declared.record.error.RecordError.TheVariants.{OutOfMemory};

    ghost from_gives = { λ _ made. made ≡ Stream OutOfMemory };

    fn from(_error: AllocFailed<T>) -> FileError {
        FileError::Stream(RecordError::OutOfMemory)
    }
}
