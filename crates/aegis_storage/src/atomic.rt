//! Writes that are all there after a crash, or none of them.

ghost use Rattle.std.specs.Prelude.{◌≡◌, ◌<◌, ◌≤◌, ◌⊎◌, [], IfErr, IfSome, IsOk, List, OnOk, Some, length, ℕ};
ghost use Rattle.aegis_storage.specs.Disk.{WritesAll, after_writes, certain, writes_of};
ghost use Rattle.aegis_storage.specs.Journal.{Checks, IsAtRest, IsCommitError, KeepsBeginning, RecoversUnlessOtherJournal, entries, framed};
ghost use Rattle.aegis_storage.specs.Steps.{StopsInCommit};

use crate::driver::take_steps;
use crate::journal::{BEGINNING_BYTES, NONCE_BYTES, journal_bytes, writes_part};
use crate::pending::PendingWrite;
use crate::steps::Order;
use crate::store::Storage;
use aegis::aegis128l::Key;
use aegis::record::MAX_CONTEXT_BYTES;
use std::alloc::Allocator;
use std::io;
use std::io::ErrorKind;

/// Makes the writes, the first of them first, so that after a crash [`crate::recover`] makes all of them or none.
///
/// The storage and the journal must be at rest: all that they hold is synced, and the journal is empty, as `commit` and
/// `recover` leave them with `Ok`. The journal authenticates the writes and does not encrypt them. The calls are the
/// steps of [`crate::commit_step`]. With no writes it returns `Ok`, and nothing is changed.
///
/// Under one key a nonce must be used for one journal only. The context names the storage; it has at most
/// [`MAX_CONTEXT_BYTES`]. The beginning is what the journal begins with. Whatever a crash leaves, a journal with more
/// than [`BEGINNING_BYTES`] begins with it.
///
/// After an error, call `recover` before anything else. The error is that of a call, or `OutOfMemory`; or, and then
/// nothing has changed, `AlreadyExists` if the journal is not empty, or `InvalidInput` if it would have more than
/// [`crate::MAX_JOURNAL_BYTES`]. Memory is taken for the journal, and for a copy while it grows. With any result
/// the storage and the journal are as they were, or as the steps leave them up to one of them.
#[tactic(auto, using(crate::proofs::Journals::empty_beginning, crate::proofs::Journals::at_rest_recovers))]
pub fn commit<S: Storage, J: Storage, A: Allocator + Copy>(
    alloc: A,
    storage: &mut S,
    journal: &mut J,
    key: &Key,
    beginning: &[u8; BEGINNING_BYTES],
    nonce: &[u8; NONCE_BYTES],
    context: &[u8],
    writes: &[PendingWrite<A>],
) -> io::Result<()>
    requires { length context.now ≤ MAX_CONTEXT_BYTES }
    ensures written { OnOk result
        (WritesAll (S.bytes storage.old) (S.bytes storage.new) (writes_of writes.now)) }
    ensures nothing { length writes.now ≡ 0
        → IsOk result × (storage.new ≡ storage.old) × (journal.new ≡ journal.old) }
    ensures checked { Checks result (J.bytes journal.old) (length writes.now)
        (writes_of writes.now) storage.old storage.new journal.old journal.new }
    ensures stopped { (xs : List ℕ) → IsAtRest (S.disk storage.old) (J.disk journal.old) xs
        → ((storage.new ≡ storage.old) × (journal.new ≡ journal.old))
        ⊎ StopsInCommit key.now context.now
        (framed key.now beginning.now nonce.now context.now (entries (writes_of writes.now)))
        xs (writes_of writes.now) (S.disk storage.new) (J.disk journal.new) }
    ensures recovers { (xs : List ℕ) → IsAtRest (S.disk storage.old) (J.disk journal.old) xs
        → RecoversUnlessOtherJournal key.now context.now xs (writes_of writes.now)
        (S.disk storage.new) (J.disk journal.new) }
    ensures beginning { J.disk journal.old ≡ Some (certain [])
        → KeepsBeginning beginning.now (J.disk journal.new) }
    ensures at_rest { OnOk result ((xs : List ℕ)
        → IsAtRest (S.disk storage.old) (J.disk journal.old) xs
        → IsAtRest (S.disk storage.new) (J.disk journal.new)
        (after_writes (writes_of writes.now) xs)) }
    ensures cause { IfErr result (IsCommitError S.errors J.errors (J.bytes journal.old)
        (writes_of writes.now)) }
{
    if writes.is_empty() {
        return Ok(());
    }
    if journal.size()? != 0 {
        return Err(io::Error::from(ErrorKind::AlreadyExists));
    }
    let whole = journal_bytes(alloc, key, beginning, nonce, context, writes)?;
    let content = writes_part(&whole);
    take_steps(Order::Commit, storage, journal, &whole, content)
}
