//! Random-access files: contents that are read and written at any place, in a file whose pages are sealed one by
//! one. After a crash, the changes of a commit are all there, or none.
//!
//! [`SealedPages`] works on any [`aegis_storage::Storage`], such as a vector or a file, and on a second one for its
//! journal. It takes a fresh nonce for each page and header that it writes from the caller's [`Nonces`]. Changes are
//! kept in memory until [`Pages::commit`]. Each page is bound to its number and its file: a page that was changed,
//! moved or copied from another file is rejected. An older page of the same number and file is not detected, nor is an
//! older copy of the whole file, unless the caller keeps the file's commitment elsewhere: one MAC over the tags of all
//! pages ([`Pages::commitment`], [`Pages::verify`]).
//!
//! [`Pages`] is generic in the variant of AEGIS, and [`SealedPages`], for AEGIS-256, and the five other names are
//! aliases of it.
//!
//! A caller that reads and writes by itself seals and opens single pages by [`seal_page_at`] and [`open_page_at`], and
//! headers by [`seal_header`] and [`open_header_block`], under a [`FileLayout`].
#![tactic(auto)]

mod changes;
mod commitment;
mod draws;
mod error;
mod header;
pub mod laws;
mod layout;
mod opening;
mod page;
mod pages;
mod range;
mod sealing;
mod variants;

pub use draws::Nonces;
pub use error::PagesError;
pub use header::{FileHeader, open_header_block, seal_header};
pub use layout::{
    DEFAULT_PAGE_BYTES, DEFAULT_PAGE_BYTES_128, FileLayout, HEADER_BLOCK_BYTES, MAX_CONTENTS_BYTES,
    MAX_PAGE_BYTES, MIN_PAGE_BYTES,
};
pub use opening::{is_accepted, journal_key, recover_file};
pub use page::{open_page_at, seal_page_at};
pub use pages::Pages;
pub use variants::{
    SealedPages, SealedPages128L, SealedPages128X2, SealedPages128X4, SealedPages256X2,
    SealedPages256X4,
};
