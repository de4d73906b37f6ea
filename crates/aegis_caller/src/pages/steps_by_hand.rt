//! A commit and a recovery whose steps a program takes itself, in another language or over another storage: what a
//! crash leaves at any of them.

ghost use Rattle.std.specs.Prelude.{◌≡◌, [], List, Some, length, take, ℕ};
ghost use Rattle.aegis_storage.specs.Disk.{Writes, after_writes};
ghost use Rattle.aegis_storage.specs.Journal.{IsAtRest, IsJournal, KeepsBeginning, RecoversUnlessOtherJournal, RestsAtEither};
ghost use Rattle.aegis_storage.specs.Steps.{StorageState, Recoverable, StopsAt, Taken, commit_steps, certain_state, journal_effect, recovery_steps, step_at, storage_effect};

use aegis_storage::laws::{
    commit_ends_at_rest, commit_keeps_the_beginning, commit_recovers_at_any_step,
    recovery_ends_at_rest, recovery_recovers_at_any_step,
};
use aegis_storage::{Step, commit_step, recovery_step};

/// Returns the next step of a commit of so many writes, of which `taken` steps were taken. Wherever a program stops
/// that takes these steps, recovery gives the contents before the commit or those after it, unless a crash leaves
/// another whole journal. After the last step the contents are those after it, and a crash leaves no others.
pub fn next_of_commit(taken: u64, writes: u64) -> Step
    ensures asked { result ≡ step_at (commit_steps writes) taken }
    ensures recovers { (key context journal xs : List ℕ) (writes : Writes) (k : ℕ)
        → (s j : StorageState) → IsJournal key context writes journal
        → StopsAt (storage_effect writes) (commit_steps (length writes)) k (certain_state xs) s
        → StopsAt (journal_effect journal) (commit_steps (length writes)) k (certain_state []) j
        → RecoversUnlessOtherJournal key context xs writes (Some s.disk) (Some j.disk) }
    ensures begins { (key context journal : List ℕ) (writes : Writes) (k : ℕ) (j : StorageState)
        → IsJournal key context writes journal
        → StopsAt (journal_effect journal) (commit_steps (length writes)) k (certain_state []) j
        → KeepsBeginning (take 512 journal) (Some j.disk) }
    ensures ends { (key context journal xs : List ℕ) (writes : Writes) (s j : StorageState)
        → IsJournal key context writes journal
        → Taken (storage_effect writes) (commit_steps (length writes)) (certain_state xs) s
        → Taken (journal_effect journal) (commit_steps (length writes)) (certain_state []) j
        → IsAtRest (Some s.disk) (Some j.disk) (after_writes writes xs) }
{
    commit_recovers_at_any_step();
    commit_keeps_the_beginning();
    commit_ends_at_rest();
    commit_step(taken, writes)
}

/// Returns the next step of a recovery, of which `taken` steps were taken, by a journal of so many writes. Wherever a
/// program stops that takes these steps, a later recovery gives the contents before the commit or those after it,
/// unless a crash leaves another whole journal. After the last step they are one or the other, and a crash leaves no
/// others.
pub fn next_of_recovery(taken: u64, writes: u64) -> Step
    ensures asked { result ≡ step_at (recovery_steps writes) taken }
    ensures recovers { (key context xs : List ℕ) (writes found : Writes) (s j s' j' : StorageState)
        → (k : ℕ) → Recoverable key context xs writes found s j
        → StopsAt (storage_effect found) (recovery_steps (length found)) k s s'
        → StopsAt (journal_effect j.bytes) (recovery_steps (length found)) k j j'
        → RecoversUnlessOtherJournal key context xs writes (Some s'.disk) (Some j'.disk) }
    ensures ends { (key context xs : List ℕ) (writes found : Writes) (s j s' j' : StorageState)
        → Recoverable key context xs writes found s j
        → Taken (storage_effect found) (recovery_steps (length found)) s s'
        → Taken (journal_effect j.bytes) (recovery_steps (length found)) j j'
        → RestsAtEither (Some s'.disk) (Some j'.disk) xs writes }
{
    recovery_recovers_at_any_step();
    recovery_ends_at_rest();
    recovery_step(taken, writes)
}
