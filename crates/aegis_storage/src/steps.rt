//! The order of the calls of a commit and of a recovery.

ghost use Rattle.std.specs.Prelude.{◌≡◌};
ghost use Rattle.aegis_storage.specs.Steps.{commit_steps, recovery_steps, step_at, steps_of, writing_steps};

/// A step of a commit or of a recovery: one call on the storage or on its journal.
#[derive(Clone, Copy)]
pub enum Step {
    /// The first [`crate::BEGINNING_BYTES`] of the journal are written to it.
    WriteBeginning,
    /// The other bytes of the journal are written to it.
    WriteRest,
    /// The journal is synced.
    SyncJournal,
    /// The journal is replaced by a copy of itself that is synced.
    ReplaceJournal,
    /// The write of this number is made in the storage, the first being 0.
    MakeWrite(u64),
    /// The storage is synced.
    SyncStorage,
    /// The size of the journal becomes 0.
    EmptyJournal,
    /// No step is left.
    Done,
}

/// What is done by steps.
#[derive(Clone, Copy)]
pub enum Order {
    Commit,
    Recovery,
}

// Returns a step of those that a commit and a recovery end with: the writes, and then the journal is emptied.
#[tactic(auto, using(crate::proofs::StepFacts::step_making, crate::proofs::StepFacts::step_ended))]
fn writing_step(number: u64, writes: u64) -> Step
    ensures { result ≡ step_at (writing_steps writes) number }
{
    if number < writes {
        return Step::MakeWrite(number);
    }
    match number - writes {
        0 => Step::SyncStorage,
        1 => Step::EmptyJournal,
        2 => Step::SyncJournal,
        _ => Step::Done,
    }
}

/// Returns the step of a number, the first being 0, of a commit of so many writes, or [`Step::Done`] past the last one.
#[tactic(auto, using(crate::proofs::StepFacts::commit_step_is))]
pub fn commit_step(number: u64, writes: u64) -> Step
    ensures { result ≡ step_at (commit_steps writes) number }
{
    match number {
        0 => Step::WriteBeginning,
        1 => Step::SyncJournal,
        2 => Step::WriteRest,
        3 => Step::SyncJournal,
        _ => writing_step(number - 4, writes),
    }
}

/// Returns the step of a number of a recovery by a journal of so many writes, or [`Step::Done`] past the last one. A
/// journal that is not whole has no writes.
#[tactic(auto, using(crate::proofs::StepFacts::recovery_none_is, crate::proofs::StepFacts::recovery_some_is, crate::proofs::StepFacts::recovery_step_is))]
pub fn recovery_step(number: u64, writes: u64) -> Step
    ensures { result ≡ step_at (recovery_steps writes) number }
{
    if writes == 0 {
        return match number {
            0 => Step::SyncStorage,
            1 => Step::SyncJournal,
            2 => Step::EmptyJournal,
            3 => Step::SyncJournal,
            _ => Step::Done,
        };
    }
    match number {
        0 => Step::SyncStorage,
        1 => Step::ReplaceJournal,
        _ => writing_step(number - 2, writes),
    }
}

/// Returns the step of a number, of a commit or of a recovery.
pub fn step_of(order: Order, number: u64, writes: u64) -> Step
    ensures { result ≡ step_at (steps_of order writes) number }
{
    match order {
        Order::Commit => commit_step(number, writes),
        Order::Recovery => recovery_step(number, writes),
    }
}
