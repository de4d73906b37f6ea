//! The exports on a page and a header of a random-access file. `variant` is a number of `aegis_c_calls::variant`. The
//! caller reads and writes the file.
//!
//! Each returns a code of `aegis_c_calls::refusal`. After an error other than an invalid tag, nothing has changed.

ghost use Rattle.aegis_c_calls.specs.Codes.{variant_numbered};
ghost use Rattle.aegis_c_calls.specs.PageCalls.{PageHeaderOpen, PageHeaderSeal, PageOpen, PagePlace, PageSeal, header_of};

use crate::by_variant::by_variant;
use aegis_128::{State128X1, State128X2, State128X4};
use aegis_256::{State256X1, State256X2, State256X4};
use aegis_c_calls::page as calls;
use aegis_c_calls::refusal::{Refusal, code};
use aegis_c_calls::variant::*;

/// Finds the position of a page in a file of this page size.
#[unsafe(no_mangle)]
pub extern "C" fn hunkravy_proved_page_place(
    variant: u32,
    page_bytes: u32,
    number: u64,
    place: &mut u64,
) -> i32
    ensures { PagePlace (variant_numbered variant) page_bytes number place.old place.new result }
{
    by_variant!(
        variant,
        Refusal::WrongVariant,
        calls::page_place::<N>(page_bytes, number, place)
    )
}

/// Seals the contents of a page in place: `page` has as many bytes as a nonce, the contents, and 32 bytes.
#[unsafe(no_mangle)]
pub extern "C" fn hunkravy_proved_page_seal(
    variant: u32,
    page: &mut [u8],
    id: &[u8; 24],
    number: u64,
    npub: &[u8],
    k: &[u8],
) -> i32
    ensures { PageSeal (variant_numbered variant) k.now id.now npub.now number
        page.old page.new result }
{
    by_variant!(
        variant,
        Refusal::WrongVariant,
        calls::page_seal::<N>(page, id, number, npub, k)
    )
}

/// Opens a page in place. If no contents are sealed to it at this number, each of its bytes is 0xaa, and the result
/// is -1.
#[unsafe(no_mangle)]
pub extern "C" fn hunkravy_proved_page_open(
    variant: u32,
    page: &mut [u8],
    id: &[u8; 24],
    number: u64,
    k: &[u8],
) -> i32
    ensures { PageOpen (variant_numbered variant) k.now id.now number page.old page.new result }
{
    by_variant!(
        variant,
        Refusal::WrongVariant,
        calls::page_open::<N>(page, id, number, k)
    )
}

/// Writes the block of a header to `header_block`.
#[unsafe(no_mangle)]
pub extern "C" fn hunkravy_proved_page_header_seal(
    variant: u32,
    header_block: &mut [u8; 512],
    page_bytes: u32,
    id: &[u8; 24],
    counter: u64,
    len: u64,
    npub: &[u8],
    k: &[u8],
) -> i32
    ensures { PageHeaderSeal (variant_numbered variant) k.now id.now npub.now page_bytes counter len
        header_block.old header_block.new result }
{
    by_variant!(
        variant,
        Refusal::WrongVariant,
        calls::page_header_seal::<N>(header_block, page_bytes, id, counter, len, npub, k)
    )
}

/// Opens the header in `header_block`.
#[unsafe(no_mangle)]
pub extern "C" fn hunkravy_proved_page_header_open(
    variant: u32,
    header_block: &[u8; 512],
    k: &[u8],
    page_bytes: &mut u32,
    id: &mut [u8; 24],
    counter: &mut u64,
    len: &mut u64,
) -> i32
    ensures { PageHeaderOpen (variant_numbered variant) k.now header_block.now
        (header_of page_bytes.old id.old counter.old len.old)
        (header_of page_bytes.new id.new counter.new len.new) result }
{
    by_variant!(
        variant,
        Refusal::WrongVariant,
        calls::page_header_open::<N>(header_block, k, page_bytes, id, counter, len)
    )
}
