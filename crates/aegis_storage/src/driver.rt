//! Taking the steps of a commit or of a recovery.

ghost use Rattle.std.specs.Prelude.{◌≡◌, ◌≤◌, ◌⊎◌, drop, IfErr, IfOk, IfSome, List, OnErr, OnOk, length, ℕ};
ghost use Rattle.aegis_storage.specs.Disk.{Writes, WritesAll};
ghost use Rattle.aegis_storage.specs.Journal.{AreWithinStorage, entries};
ghost use Rattle.aegis_storage.specs.Private.{Fails, Succeeds, IsNext, Knows, LeavesOne, made_with};
ghost use Rattle.aegis_storage.specs.Steps.{StorageState, StopsAt, Taken, journal_effect, steps_of, storage_effect};

use crate::journal::{BEGINNING_BYTES, first_write};
use crate::steps::{Order, Step, step_of};
use crate::store::Storage;
use std::io;

// A commit has so many steps besides its writes, and a recovery has no more.
const OTHER_STEPS: u64 = 7;

// Returns how many writes the content of a journal has.
fn count_writes(content: &[u8]) -> u64
    ensures few { result ≤ length content.now }
    ensures counted { (found : Writes) → AreWithinStorage found → content.now ≡ entries found
        → result ≡ length found }
{
    let mut number = 0;
    let mut rest = content;
    'writes: while !rest.is_empty() {
        let Some((_place, _bytes, after)) = first_write(rest) else {
            return number;
        };
        number += 1;
        rest = after;
    }
    number
}

// Takes a step on a journal, which has these bytes, or is to have them.
fn journal_step<J: Storage>(step: Step, journal: &mut J, whole: &[u8]) -> io::Result<()>
    requires { step ≡ Step.ReplaceJournal → IfSome (J.bytes journal.old) (λ xs. whole.now ≡ xs) }
    ensures failed { OnErr result
        (Fails (journal_effect whole.now step) (J.disk journal.old) (J.disk journal.new)) }
    ensures taken { OnOk result (Succeeds (journal_effect whole.now step) (J.bytes journal.old)
        (J.bytes journal.new) (J.disk journal.old) (J.disk journal.new)) }
    ensures cause { IfErr result J.errors }
{
    let (beginning, rest) = whole.split_at(whole.len().min(BEGINNING_BYTES));
    match step {
        Step::WriteBeginning => journal.write_at(0, beginning),
        Step::WriteRest => journal.write_at(BEGINNING_BYTES as u64, rest),
        Step::SyncJournal => journal.sync(),
        Step::ReplaceJournal => journal.replace(whole),
        Step::EmptyJournal => journal.set_size(0),
        Step::MakeWrite(_) => Ok(()),
        Step::SyncStorage => Ok(()),
        Step::Done => Ok(()),
    }
}

// Takes a step on a storage, and returns what is left of the content of the journal, which has the next write first.
fn storage_step<'a, S: Storage>(step: Step, storage: &mut S, rest: &'a [u8]) -> io::Result<&'a [u8]>
    ensures failed { OnErr result ((found : Writes) (made : ℕ) → AreWithinStorage found
        → rest.now ≡ entries (drop made found) → IsNext step made (length found)
        → Fails (storage_effect found step) (S.disk storage.old) (S.disk storage.new)) }
    ensures taken { OnOk result ((found : Writes) (made : ℕ) → AreWithinStorage found
        → rest.now ≡ entries (drop made found) → IsNext step made (length found)
        → Succeeds (storage_effect found step) (S.bytes storage.old) (S.bytes storage.new)
        (S.disk storage.old) (S.disk storage.new)) }
    ensures left { IfOk result (λ after. (found : Writes) (made : ℕ) → AreWithinStorage found
        → rest.now ≡ entries (drop made found) → IsNext step made (length found)
        → after.now ≡ entries (drop (made_with step made) found)) }
    ensures cause { IfErr result S.errors }
{
    match step {
        Step::MakeWrite(_number) => {
            let Some((place, bytes, after)) = first_write(rest) else {
                return Ok(rest);
            };
            storage.write_at(place, bytes)?;
            Ok(after)
        }
        Step::SyncStorage => {
            storage.sync()?;
            Ok(rest)
        }
        Step::WriteBeginning => Ok(rest),
        Step::WriteRest => Ok(rest),
        Step::SyncJournal => Ok(rest),
        Step::ReplaceJournal => Ok(rest),
        Step::EmptyJournal => Ok(rest),
        Step::Done => Ok(rest),
    }
}

/// Takes the steps of a commit or of a recovery. `whole` is the journal, and `content` is its content, or nothing if it
/// is not whole.
pub fn take_steps<S: Storage, J: Storage>(
    order: Order,
    storage: &mut S,
    journal: &mut J,
    whole: &[u8],
    content: &[u8],
) -> io::Result<()>
    requires { order ≡ Order.Recovery → IfSome (J.bytes journal.old) (λ xs. whole.now ≡ xs) }
    ensures stopped { (found : Writes) → AreWithinStorage found → content.now ≡ entries found
        → (k : ℕ)
        × ((h : StorageState) → Knows h (S.bytes storage.old) (S.disk storage.old) → LeavesOne
        (StopsAt (storage_effect found) (steps_of order (length found)) k h) (S.disk storage.new))
        × ((h : StorageState) → Knows h (J.bytes journal.old) (J.disk journal.old) → LeavesOne
        (StopsAt (journal_effect whole.now) (steps_of order (length found)) k h)
        (J.disk journal.new)) }
    ensures written { OnOk result ((found : Writes) → AreWithinStorage found
        → content.now ≡ entries found
        → WritesAll (S.bytes storage.old) (S.bytes storage.new) found) }
    ensures storage { OnOk result ((found : Writes) → AreWithinStorage found
        → content.now ≡ entries found
        → (h : StorageState) → Knows h (S.bytes storage.old) (S.disk storage.old) → LeavesOne
        (Taken (storage_effect found) (steps_of order (length found)) h) (S.disk storage.new)) }
    ensures journal { OnOk result ((found : Writes) → AreWithinStorage found
        → content.now ≡ entries found
        → (h : StorageState) → Knows h (J.bytes journal.old) (J.disk journal.old) → LeavesOne
        (Taken (journal_effect whole.now) (steps_of order (length found)) h) (J.disk journal.new)) }
    ensures cause { IfErr result (λ e. S.errors e ⊎ J.errors e) }
{
    let writes = count_writes(content);
    let mut rest = content;
    'steps: for number in 0..writes + OTHER_STEPS {
        let step = step_of(order, number, writes);
        rest = storage_step(step, storage, rest)?;
        journal_step(step, journal, whole)?;
    }
    Ok(())
}
