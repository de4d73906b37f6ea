//! The exports on the journal of a random-access file. `variant` is a number of `aegis_c_calls::variant`. The caller
//! reads and writes the file and the journal, and syncs them.
//!
//! Each returns a code of `aegis_c_calls::refusal`. After a code other than 0, nothing has changed.

ghost use Rattle.aegis_c_calls.specs.Codes.{variant_numbered};
ghost use Rattle.aegis_c_calls.specs.PageCalls.{JournalBegin, JournalCheck, JournalEntry, JournalFinal, JournalNext};

use crate::by_variant::by_variant;
use aegis_128::{State128X1, State128X2, State128X4};
use aegis_256::{State256X1, State256X2, State256X4};
use aegis_c_calls::journal as calls;
use aegis_c_calls::refusal::{Refusal, code};
use aegis_c_calls::state::State;
use aegis_c_calls::variant::*;

/// Begins the journal of a commit at `st`, and writes its first bytes to `start`.
#[unsafe(no_mangle)]
pub extern "C" fn hunkravy_proved_journal_init(
    variant: u32,
    st: &mut State,
    page_bytes: u32,
    id: &[u8; 24],
    nonce: &[u8; 16],
    k: &[u8],
    start: &mut [u8; 528],
) -> i32
    ensures { JournalBegin (variant_numbered variant) k.now id.now nonce.now page_bytes
        st.old st.new start.old start.new result }
{
    by_variant!(
        variant,
        Refusal::WrongVariant,
        calls::begin::<N>(st, page_bytes, id, nonce, k, start)
    )
}

/// Takes in the next write, and writes what it has in front of its bytes in the journal to `head`.
#[unsafe(no_mangle)]
pub extern "C" fn hunkravy_proved_journal_entry(
    st: &mut State,
    place: u64,
    bytes: &[u8],
    head: &mut [u8; 16],
) -> i32
    ensures { JournalEntry place bytes.now st.old st.new head.old head.new result }
{
    code(calls::entry(st, place, bytes, head))
}

/// Writes the MAC with which the journal ends to `mac`, and ends the state.
#[unsafe(no_mangle)]
pub extern "C" fn hunkravy_proved_journal_final(st: &mut State, mac: &mut [u8; 32]) -> i32
    ensures { JournalFinal st.old st.new mac.old mac.new result }
{
    code(calls::last(st, mac))
}

/// Decides what is to be made of a journal. `writes` becomes how many bytes of writes are to be made again.
#[unsafe(no_mangle)]
pub extern "C" fn hunkravy_proved_journal_check(
    variant: u32,
    file: &[u8],
    k: &[u8],
    journal: &[u8],
    writes: &mut usize,
) -> i32
    ensures { JournalCheck (variant_numbered variant) k.now file.now journal.now
        writes.old writes.new result }
{
    by_variant!(
        variant,
        Refusal::WrongVariant,
        calls::check::<N>(file, k, journal, writes)
    )
}

/// Finds the first of the writes: its place, and how many bytes it has.
#[unsafe(no_mangle)]
pub extern "C" fn hunkravy_proved_journal_next(
    writes: &[u8],
    place: &mut u64,
    len: &mut usize,
) -> i32
    ensures { JournalNext writes.now place.old place.new len.old len.new result }
{
    code(calls::next(writes, place, len))
}
