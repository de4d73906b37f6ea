//! The errors of random-access files.

use std::io;
use thiserror::Error;

/// The error of a function of [`crate::Pages`]. The function's documentation has the state that it leaves.
#[derive(Debug, Drop, Error)]
pub enum PagesError {
    /// The storage or the journal could not be read, or the storage ends before the page that is wanted.
    #[error("reading: {0}")]
    Read(io::Error),
    /// Writing failed, or memory for the journal ran out, or the journal was not empty or would be too long.
    #[error("writing: {0}")]
    Write(io::Error),
    /// No nonce could be generated.
    #[error("generating a nonce: {0}")]
    Nonce(io::Error),
    /// The storage has no header that was sealed with this variant and under the key.
    #[error("no header for this variant and key: the key is wrong, or the storage is damaged or another")]
    Header,
    /// The page of this number is not one that was sealed under the key for this place of this file.
    #[error("page {0} is damaged")]
    Damaged(u64),
    /// The contents would have more than [`crate::MAX_CONTENTS_BYTES`], or 2^64 - 1 commits were made.
    #[error("the contents are too long, or no more commits are possible")]
    TooLong,
    /// Memory ran out.
    #[error("out of memory")]
    OutOfMemory,
    /// The page size is not from [`crate::MIN_PAGE_BYTES`] to [`crate::MAX_PAGE_BYTES`].
    #[error("the page size must be 256 to 65,536 bytes")]
    PageSize,
    /// The file's commitment is not the expected one.
    #[error("the file differs from its commitment")]
    Commitment,
    /// The journal is that of another file, or of another state of this one.
    #[error("the journal does not belong to this file")]
    Journal,
    /// A commit failed. Open the file again.
    #[error("a commit failed: open the file again")]
    Broken,
}
