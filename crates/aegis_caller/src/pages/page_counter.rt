//! A counter that is kept in a random-access file.

ghost use Rattle.std.specs.Prelude.{◌≡◌, ◌+◌, ◌^◌, ◌<◌, IfOk, OnOk, ℕ};
ghost use Rattle.aegis_pages.specs.OpenFile.{HasCommitted, HasContents, IsStoredAs, IsUnchanged};
ghost use Rattle.aegis_pages.specs.Commits.{RecoversOneUnlessOtherJournal};
ghost use Rattle.aegis_caller.specs.Counter.{counter_contents};

use aegis_pages::laws::{committed_recovers, whole_is_written};
use aegis_pages::{Nonces, PagesError, SealedPages};
use aegis_storage::Storage;
use std::alloc::Allocator;

/// Reads a counter that is the contents of a file, 8 bytes, the lowest first.
#[tactic(auto, unfolding(crate::specs::Counter::counter_contents))]
pub fn read_counter<S: Storage + Drop, J: Storage + Drop, N: Nonces + Drop, A: Allocator + Copy>(
    pages: &mut SealedPages<S, J, N, A>,
) -> Result<u64, PagesError>
    requires { pages.old.len ≡ 8 }
    ensures unchanged { IsUnchanged pages.old pages.new }
    ensures number { IfOk result (λ number. (n : ℕ) → n < 2 ^ 64
        → HasContents pages.old (counter_contents n) → number ≡ n) }
{
    let mut bytes = [0; 8];
    pages.read_at(0, &mut bytes)?;
    Ok(u64::from_le_bytes(bytes))
}

/// Writes the counter, in memory.
#[tactic(auto, unfolding(crate::specs::Counter::counter_contents))]
pub fn write_counter<S: Storage + Drop, J: Storage + Drop, N: Nonces + Drop, A: Allocator + Copy>(
    pages: &mut SealedPages<S, J, N, A>,
    number: u64,
) -> Result<(), PagesError>
    ensures stored { IsStoredAs pages.old pages.new }
    ensures written { OnOk result ((n : ℕ) → HasContents pages.old (counter_contents n)
        → HasContents pages.new (counter_contents number)) }
{
    whole_is_written();
    pages.write_at(0, &number.to_le_bytes())
}

/// Adds one to the counter, in memory, and returns its new number. After 2^64 - 1 comes 0.
pub fn add_one<S: Storage + Drop, J: Storage + Drop, N: Nonces + Drop, A: Allocator + Copy>(
    pages: &mut SealedPages<S, J, N, A>,
) -> Result<u64, PagesError>
    requires { pages.old.len ≡ 8 }
    ensures stored { IsStoredAs pages.old pages.new }
    ensures next { IfOk result (λ next. (n : ℕ) → n + 1 < 2 ^ 64
        → HasContents pages.old (counter_contents n) → next ≡ n + 1) }
    ensures written { OnOk result ((n : ℕ) → n + 1 < 2 ^ 64
        → HasContents pages.old (counter_contents n)
        → HasContents pages.new (counter_contents (n + 1))) }
{
    let next = read_counter(pages)?.wrapping_add(1);
    write_counter(pages, next)?;
    Ok(next)
}

/// Adds one to the counter, commits it, and returns its new number. Whatever it returns, a crash leaves the number or
/// the next one, unless it leaves another whole journal.
pub fn count<S: Storage + Drop, J: Storage + Drop, N: Nonces + Drop, A: Allocator + Copy>(
    pages: &mut SealedPages<S, J, N, A>,
) -> Result<u64, PagesError>
    requires { pages.old.len ≡ 8 }
    ensures next { IfOk result (λ next. (n : ℕ) → n + 1 < 2 ^ 64
        → HasContents pages.old (counter_contents n) → next ≡ n + 1) }
    ensures written { OnOk result ((n : ℕ) → n + 1 < 2 ^ 64
        → HasContents pages.old (counter_contents n)
        → HasContents pages.new (counter_contents (n + 1))) }
    ensures certain { OnOk result ((n : ℕ) → n + 1 < 2 ^ 64
        → HasCommitted pages.old (counter_contents n) → HasContents pages.old (counter_contents n)
        → HasCommitted pages.new (counter_contents (n + 1))) }
    ensures crash { (n : ℕ) → n + 1 < 2 ^ 64
        → HasCommitted pages.old (counter_contents n) → HasContents pages.old (counter_contents n)
        → RecoversOneUnlessOtherJournal pages.new (counter_contents n) (counter_contents (n + 1)) }
{
    committed_recovers();
    let next = add_one(pages)?;
    pages.commit()?;
    Ok(next)
}
