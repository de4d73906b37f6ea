//! The exports on the order of a commit and of a recovery. The caller takes each step.
//!
//! Each returns a number of `aegis_c_calls::steps`.

ghost use Rattle.aegis_c_calls.specs.PageCalls.{NumberedStep};
ghost use Rattle.aegis_storage.specs.Steps.{commit_steps, recovery_steps};

use aegis_c_calls::steps as calls;

/// Returns the number of a step of a commit of so many writes. If it makes a write, `write` becomes its number.
#[unsafe(no_mangle)]
pub extern "C" fn hunkravy_proved_commit_step(number: u64, writes: u64, write: &mut u64) -> u32
    ensures { NumberedStep (commit_steps writes) number write.old write.new result }
{
    calls::commit(number, writes, write)
}

/// The same for a recovery by a journal of so many writes.
#[unsafe(no_mangle)]
pub extern "C" fn hunkravy_proved_recovery_step(number: u64, writes: u64, write: &mut u64) -> u32
    ensures { NumberedStep (recovery_steps writes) number write.old write.new result }
{
    calls::recovery(number, writes, write)
}
