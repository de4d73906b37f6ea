//! The calls on the order of a commit and of a recovery: a driver in C asks for one step after the other, and takes it.

ghost use Rattle.std.specs.Prelude.{◌≡◌};
ghost use Rattle.aegis_c_calls.specs.PageCalls.{NumberedStep, number_of_step, write_of_step};
ghost use Rattle.aegis_storage.specs.Steps.{commit_steps, recovery_steps};

use aegis_storage::{Step, commit_step, recovery_step};

/// No step is left.
pub const DONE: u32 = 0;

/// The beginning of the journal is written.
pub const WRITE_BEGINNING: u32 = 1;

/// The rest of the journal is written.
pub const WRITE_REST: u32 = 2;

/// The journal is synced.
pub const SYNC_JOURNAL: u32 = 3;

/// The journal is replaced by a synced copy of itself.
pub const REPLACE_JOURNAL: u32 = 4;

/// A write is made in the file.
pub const MAKE_WRITE: u32 = 5;

/// The file is synced.
pub const SYNC_FILE: u32 = 6;

/// The journal is emptied.
pub const EMPTY_JOURNAL: u32 = 7;

// Returns the number of a step, and sets `write` if it makes one.
fn answer(step: Step, write: &mut u64) -> u32
    ensures answered { result ≡ number_of_step step }
    ensures made { write.new ≡ write_of_step step write.old }
{
    match step {
        Step::Done => DONE,
        Step::WriteBeginning => WRITE_BEGINNING,
        Step::WriteRest => WRITE_REST,
        Step::SyncJournal => SYNC_JOURNAL,
        Step::ReplaceJournal => REPLACE_JOURNAL,
        Step::MakeWrite(number) => {
            *write = number;
            MAKE_WRITE
        }
        Step::SyncStorage => SYNC_FILE,
        Step::EmptyJournal => EMPTY_JOURNAL,
    }
}

/// Returns the number of a step of a commit of so many writes, the first step being 0. The answer is [`DONE`] past the
/// last step. If it is [`MAKE_WRITE`], `write` becomes the number of the write, the first being 0.
#[inline(never)]
pub fn commit(number: u64, writes: u64, write: &mut u64) -> u32
    ensures { NumberedStep (commit_steps writes) number write.old write.new result }
{
    answer(commit_step(number, writes), write)
}

/// The same for a recovery by a journal of so many writes. One that is not whole has none.
#[inline(never)]
pub fn recovery(number: u64, writes: u64, write: &mut u64) -> u32
    ensures { NumberedStep (recovery_steps writes) number write.old write.new result }
{
    answer(recovery_step(number, writes), write)
}
