//! Storages, and writes that are all there after a crash, or none of them.
//!
//! A [`Storage`] holds bytes that are read and written at any place: a vector, or a file. [`commit`] makes writes, by
//! way of a second storage, the journal; after a crash [`recover`] makes all of them or none. The journal is
//! authenticated with a MAC of [`aegis::aegis128l`], and not encrypted.
//!
//! What a crash may leave is a definition, `Crashed` of `specs/Disk.antt`: the synced bytes, any bytes at the places
//! that were written since, and one of the sizes. The promise is `RecoversUnlessOtherJournal` of `specs/Journal.antt`.
//! Its premise is that the crash leaves no other whole journal: no forgery, and no older one (`IsNoOtherJournal`).
//!
//! ```
//! let mut writes = Vec::new(alloc);
//! writes.push(PendingWrite::new(alloc, 0, b"both of these")?)?;
//! writes.push(PendingWrite::new(alloc, 100, b"or none")?)?;
//! commit(alloc, &mut storage, &mut journal, &key, &beginning, &nonce, b"accounts", &writes)?;
//! ```
#![tactic(auto)]

mod atomic;
pub mod bytes;
mod driver;
mod journal;
mod journal_file;
pub mod laws;
mod pending;
mod reading;
mod recovery;
mod steps;
mod store;

pub use atomic::commit;
pub use journal::{
    BEGINNING_BYTES, MAX_JOURNAL_BYTES, NONCE_BYTES, first_write, journaled_content,
};
pub use journal_file::JournalFile;
pub use pending::PendingWrite;
pub use reading::read_all;
pub use recovery::recover;
pub use steps::{Step, commit_step, recovery_step};
pub use store::{MAX_STORAGE_BYTES, NoJournal, Storage};
