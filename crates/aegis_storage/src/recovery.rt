//! What a storage and its journal hold after a crash.

ghost use Rattle.std.specs.Prelude.{◌≡◌, ◌≤◌, IfErr, IfSome, List, OnOk, length, ℕ};
ghost use Rattle.aegis_storage.specs.Disk.{Writes};
ghost use Rattle.aegis_storage.specs.Journal.{AreWithinStorage, IsNoOtherJournal, IsRecoverError, KeepsBeginning, RecoversKnown, RecoversUnlessOtherJournal, RestsAtEither, entries};
ghost use Rattle.aegis_storage.specs.Steps.{AreRedone};

use crate::driver::take_steps;
use crate::journal::journaled_content;
use crate::reading::read_all;
use crate::steps::Order;
use crate::store::Storage;
use aegis::aegis128l::Key;
use aegis::record::MAX_CONTEXT_BYTES;
use std::alloc::Allocator;
use std::io;

// Returns the content of a whole journal, and nothing for any other journal.
fn redone<'a>(key: &Key, context: &[u8], journal: &'a [u8]) -> &'a [u8]
    requires { length context.now ≤ MAX_CONTEXT_BYTES }
    ensures { (found : Writes) × AreWithinStorage found × (result.now ≡ entries found)
        × AreRedone key.now context.now journal.now found }
{
    match journaled_content(key, context, journal) {
        Some(content) => content,
        None => &[],
    }
}

/// Completes a commit that a crash or an error cut short, or leaves out all of it. To be called whenever the storage is
/// opened, and after an error of [`crate::commit`] or of this function.
///
/// The calls are the steps of [`crate::recovery_step`]. If the journal is a whole one under this key and context, it is
/// replaced by a synced copy, since an earlier sync may have failed, and its writes are made again. Any other journal,
/// torn or of another storage, changes nothing. Then the journal is emptied: under a wrong key or context, so is one
/// that has the only copy of some writes.
///
/// With `Ok` both are at rest. After an error call it again: it loses nothing of what a commit left, unless the journal
/// is another whole one. The error is that of a call, or
/// `OutOfMemory`, or `InvalidData` if the journal has more than [`crate::MAX_STORAGE_BYTES`]. Memory is taken for the
/// journal, whatever it holds.
pub fn recover<S: Storage, J: Storage, A: Allocator + Copy>(
    alloc: A,
    storage: &mut S,
    journal: &mut J,
    key: &Key,
    context: &[u8],
) -> io::Result<()>
    requires { length context.now ≤ MAX_CONTEXT_BYTES }
    ensures recovered { OnOk result (RecoversKnown key.now context.now (J.bytes journal.old)
        (S.bytes storage.old) (S.bytes storage.new)) }
    ensures recovers { (xs : List ℕ) (writes : Writes)
        → IfSome (J.bytes journal.old) (IsNoOtherJournal key.now context.now writes)
        → RecoversUnlessOtherJournal key.now context.now xs writes
        (S.disk storage.old) (J.disk journal.old)
        → RecoversUnlessOtherJournal key.now context.now xs writes
        (S.disk storage.new) (J.disk journal.new) }
    ensures beginning { (beginning : List ℕ) → KeepsBeginning beginning (J.disk journal.old)
        → KeepsBeginning beginning (J.disk journal.new) }
    ensures at_rest { OnOk result ((xs : List ℕ) (writes : Writes)
        → IfSome (J.bytes journal.old) (IsNoOtherJournal key.now context.now writes)
        → RecoversUnlessOtherJournal key.now context.now xs writes
        (S.disk storage.old) (J.disk journal.old)
        → RestsAtEither (S.disk storage.new) (J.disk journal.new) xs writes) }
    ensures cause { IfErr result (IsRecoverError S.errors J.errors (J.bytes journal.old)) }
{
    let whole = read_all(alloc, journal)?;
    let content = redone(key, context, &whole);
    take_steps(Order::Recovery, storage, journal, &whole, content)
}
