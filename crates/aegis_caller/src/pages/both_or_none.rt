//! Two places of a storage that are changed together.

ghost use Rattle.std.specs.Prelude.{◌≡◌, ◌+◌, ◌≤◌, ◌⊎◌, ◌∷◌, [], IfOk, IfSome, List, OnOk, Some, length, ℕ};
ghost use Rattle.aegis_storage.specs.Disk.{Writes, certain, writes_of};
ghost use Rattle.aegis_storage.specs.Journal.{IsAtRest, IsNoOtherJournal, RecoversUnlessOtherJournal, RestsAtEither, entries, framed};
ghost use Rattle.aegis_storage.specs.Steps.{StopsInCommit};
ghost use Rattle.aegis_storage.specs.declared.store.TheConstants.{MAX_STORAGE_BYTES};

use aegis::aegis128l::{Key, Nonce};
use aegis_storage::laws::recovers_at_rest;
use aegis_storage::{PendingWrite, Storage, commit, recover};
use std::alloc::Allocator;
use std::io;

/// Makes writes. Whatever it returns, a crash leaves a storage and a journal from which recovery makes all of them or
/// none, unless it leaves another whole journal. The journal is empty, or what the steps leave of that of this nonce.
pub fn write_all<S: Storage, J: Storage, A: Allocator + Copy>(
    alloc: A,
    storage: &mut S,
    journal: &mut J,
    key: &Key,
    beginning: &[u8; 512],
    nonce: &Nonce,
    writes: &[PendingWrite<A>],
) -> io::Result<()>
    ensures recovers { (xs : List ℕ) → IsAtRest (S.disk storage.old) (J.disk journal.old) xs
        → RecoversUnlessOtherJournal key.now [] xs (writes_of writes.now)
        (S.disk storage.new) (J.disk journal.new) }
    ensures journal { (xs : List ℕ) → IsAtRest (S.disk storage.old) (J.disk journal.old) xs
        → (J.disk journal.new ≡ Some (certain [])) ⊎ StopsInCommit key.now []
        (framed key.now beginning.now nonce.now [] (entries (writes_of writes.now))) xs
        (writes_of writes.now) (S.disk storage.new) (J.disk journal.new) }
{
    commit(alloc, storage, journal, key, beginning, nonce, &[], writes)
}

/// Two writes, in this order.
pub fn two_writes<A: Allocator + Copy>(
    alloc: A,
    places: (u64, u64),
    first: &[u8],
    second: &[u8],
) -> io::Result<Vec<PendingWrite<A>, A>>
    requires first { places.0 + length first.now ≤ MAX_STORAGE_BYTES }
    requires second { places.1 + length second.now ≤ MAX_STORAGE_BYTES }
    ensures { IfOk result (λ writes. writes_of writes.items
        ≡ (places.0, first.now) ∷ (places.1, second.now) ∷ []) }
{
    let mut writes = Vec::new(alloc);
    writes.push(PendingWrite::new(alloc, places.0, first)?)?;
    writes.push(PendingWrite::new(alloc, places.1, second)?)?;
    Ok(writes)
}

/// Makes these two writes.
pub fn write_these<S: Storage, J: Storage, A: Allocator + Copy>(
    alloc: A,
    storage: &mut S,
    journal: &mut J,
    key: &Key,
    beginning: &[u8; 512],
    nonce: &Nonce,
    places: (u64, u64),
    first: &[u8],
    second: &[u8],
    writes: &[PendingWrite<A>],
) -> io::Result<()>
    requires { writes_of writes.now ≡ (places.0, first.now) ∷ (places.1, second.now) ∷ [] }
    ensures { (xs : List ℕ) → IsAtRest (S.disk storage.old) (J.disk journal.old) xs
        → RecoversUnlessOtherJournal key.now [] xs
        ((places.0, first.now) ∷ (places.1, second.now) ∷ [])
        (S.disk storage.new) (J.disk journal.new) }
{
    write_all(alloc, storage, journal, key, beginning, nonce, writes)
}

/// Writes `first` at one place and `second` at another. Whatever it returns, a crash leaves a storage and a journal
/// from which recovery makes both writes or none, unless it leaves another whole journal.
pub fn write_both<S: Storage, J: Storage, A: Allocator + Copy>(
    alloc: A,
    storage: &mut S,
    journal: &mut J,
    key: &Key,
    beginning: &[u8; 512],
    nonce: &Nonce,
    places: (u64, u64),
    first: &[u8],
    second: &[u8],
) -> io::Result<()>
    requires first { places.0 + length first.now ≤ MAX_STORAGE_BYTES }
    requires second { places.1 + length second.now ≤ MAX_STORAGE_BYTES }
    ensures recovers { (xs : List ℕ) → IsAtRest (S.disk storage.old) (J.disk journal.old) xs
        → RecoversUnlessOtherJournal key.now [] xs
        ((places.0, first.now) ∷ (places.1, second.now) ∷ [])
        (S.disk storage.new) (J.disk journal.new) }
{
    recovers_at_rest();
    let writes = two_writes(alloc, places, first, second)?;
    write_these(
        alloc, storage, journal, key, beginning, nonce, places, first, second, &writes,
    )
}

/// Opens a storage after a crash that has left no other whole journal: with `Ok` it has both writes or none, and is
/// ready for the next ones.
pub fn open_both<S: Storage, J: Storage, A: Allocator + Copy>(
    alloc: A,
    storage: &mut S,
    journal: &mut J,
    key: &Key,
) -> io::Result<()>
    ensures { OnOk result ((xs : List ℕ) (writes : Writes)
        → IfSome (J.bytes journal.old) (IsNoOtherJournal key.now [] writes)
        → RecoversUnlessOtherJournal key.now [] xs writes (S.disk storage.old) (J.disk journal.old)
        → RestsAtEither (S.disk storage.new) (J.disk journal.new) xs writes) }
{
    recover(alloc, storage, journal, key, &[])
}
