//! Laws of storages that crash: functions that do nothing, and whose contracts are facts about the definitions that the
//! other contracts cite.

ghost use Rattle.std.specs.Prelude.{◌≡◌, ◌+◌, [], List, Option, Some, length, take, ℕ};
ghost use Rattle.aegis_storage.specs.Disk.{AreParts, Change, Crashed, Disk, Writes, applied, certain, changes, after_writes};
ghost use Rattle.aegis_storage.specs.Journal.{IsAtRest, IsJournal, KeepsBeginning, RecoversUnlessOtherJournal, RestsAtEither, journal_beginning_bytes, journal_start_bytes, max_journal_bytes, max_storage_bytes};
ghost use Rattle.aegis_storage.specs.Steps.{StorageState, Recoverable, StopsAt, Taken, commit_steps, certain_state, journal_effect, recovery_steps, storage_effect};

use crate::journal::{BEGINNING_BYTES, MAX_JOURNAL_BYTES, NONCE_BYTES};
use crate::store::MAX_STORAGE_BYTES;

/// After any parts of writes, in any order, all of the writes give what they give without these.
#[tactic(auto, using(crate::proofs::Disks::written_again))]
pub fn written_again()
    ensures { (writes : Writes) (parts : List Change) (xs : List ℕ)
        → AreParts (changes writes) parts
        → after_writes writes (applied parts xs) ≡ after_writes writes xs }
{}

/// Certain bytes are all that a crash may leave.
#[tactic(auto, using(crate::proofs::Disks::certain_only))]
pub fn certain_bytes()
    ensures { (xs ys : List ℕ) → Crashed (certain xs) ys → ys ≡ xs }
{}

/// Of a storage and a journal at rest, recovery gives what the storage holds.
#[tactic(auto, using(crate::proofs::Journals::at_rest_recovers))]
pub fn recovers_at_rest()
    ensures { (key context xs : List ℕ) (writes : Writes) (storage journal : Option Disk)
        → IsAtRest storage journal xs
        → RecoversUnlessOtherJournal key context xs writes storage journal }
{}

/// What keeps its beginning before a crash does so after it.
#[tactic(auto, using(crate::proofs::Journals::crashed_beginning))]
pub fn beginning_after_a_crash()
    ensures { (beginning : List ℕ) (journal : Disk) (js : List ℕ)
        → KeepsBeginning beginning (Some journal)
        → Crashed journal js → KeepsBeginning beginning (Some (certain js)) }
{}

/// What recovers before a crash does so after it.
#[tactic(auto, using(crate::proofs::Journals::crashed_recovers))]
pub fn recovers_after_a_crash()
    ensures { (key context xs : List ℕ) (writes : Writes)
        (storage journal : Disk) (ys js : List ℕ)
        → RecoversUnlessOtherJournal key context xs writes (Some storage) (Some journal)
        → Crashed storage ys → Crashed journal js
        → RecoversUnlessOtherJournal key context xs writes (Some (certain ys)) (Some (certain js)) }
{}

/// Wherever the steps of a commit stop, because the program or the system does or because a call fails: recovery gives
/// what the storage held before the commit, or all of its writes over it, unless a crash leaves another whole journal.
/// A sync that fails may lose what was pending.
pub fn commit_recovers_at_any_step()
    ensures { (key context journal xs : List ℕ) (writes : Writes) (k : ℕ) (s j : StorageState)
        → IsJournal key context writes journal
        → StopsAt (storage_effect writes) (commit_steps (length writes)) k (certain_state xs) s
        → StopsAt (journal_effect journal) (commit_steps (length writes)) k (certain_state []) j
        → RecoversUnlessOtherJournal key context xs writes (Some s.disk) (Some j.disk) }
{}

/// After all steps of a commit the storage has the writes, and is at rest with an empty journal.
pub fn commit_ends_at_rest()
    ensures { (key context journal xs : List ℕ) (writes : Writes) (s j : StorageState)
        → IsJournal key context writes journal
        → Taken (storage_effect writes) (commit_steps (length writes)) (certain_state xs) s
        → Taken (journal_effect journal) (commit_steps (length writes)) (certain_state []) j
        → IsAtRest (Some s.disk) (Some j.disk) (after_writes writes xs) }
{}

/// Wherever the steps of a commit stop, a journal of more than 512 bytes begins with its beginning.
pub fn commit_keeps_the_beginning()
    ensures { (key context journal : List ℕ) (writes : Writes) (k : ℕ) (j : StorageState)
        → IsJournal key context writes journal
        → StopsAt (journal_effect journal) (commit_steps (length writes)) k (certain_state []) j
        → KeepsBeginning (take 512 journal) (Some j.disk) }
{}

/// What recovers before a recovery, unless a crash leaves another whole journal, does so wherever its steps stop: `s`
/// and `j` are what can be read of the storage and of the journal and what a crash may leave of them as it begins, and
/// `found` are the writes that it finds.
pub fn recovery_recovers_at_any_step()
    ensures { (key context xs : List ℕ) (writes found : Writes) (s j s' j' : StorageState) (k : ℕ)
        → Recoverable key context xs writes found s j
        → StopsAt (storage_effect found) (recovery_steps (length found)) k s s'
        → StopsAt (journal_effect j.bytes) (recovery_steps (length found)) k j j'
        → RecoversUnlessOtherJournal key context xs writes (Some s'.disk) (Some j'.disk) }
{}

/// After all steps of a recovery the storage has all the writes of the commit or none, and is at rest.
pub fn recovery_ends_at_rest()
    ensures { (key context xs : List ℕ) (writes found : Writes) (s j s' j' : StorageState)
        → Recoverable key context xs writes found s j
        → Taken (storage_effect found) (recovery_steps (length found)) s s'
        → Taken (journal_effect j.bytes) (recovery_steps (length found)) j j'
        → RestsAtEither (Some s'.disk) (Some j'.disk) xs writes }
{}

/// The limits, and the lengths of what a journal begins with, are those of the definitions.
pub fn storage_limits()
    ensures storage { MAX_STORAGE_BYTES ≡ max_storage_bytes }
    ensures journal { MAX_JOURNAL_BYTES ≡ max_journal_bytes }
    ensures beginning { BEGINNING_BYTES ≡ journal_beginning_bytes }
    ensures start { BEGINNING_BYTES + NONCE_BYTES ≡ journal_start_bytes }
{
    let (_storage, _journal) = (MAX_STORAGE_BYTES, MAX_JOURNAL_BYTES);
    let (_beginning, _nonce) = (BEGINNING_BYTES, NONCE_BYTES);
}
