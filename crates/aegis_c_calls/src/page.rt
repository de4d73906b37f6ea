//! The calls on a page and on a header of a random-access file, which C reads and writes. `N` is the length of the
//! variant's keys and nonces, in bytes.

ghost use Rattle.std.specs.Prelude.{◌≡◌, Some};
ghost use Rattle.aegis_base.specs.Variant.{key_length};
ghost use Rattle.aegis_c_calls.specs.Private.{code_of};
ghost use Rattle.aegis_c_calls.specs.PageCalls.{PageHeaderOpen, PageOpen, PageHeaderSeal, PagePlace, PageSeal, header_of};

use crate::keys::{key_alone, nonce_and_key};
use crate::refusal::Refusal;
use aegis_base::LaneState;
use aegis_engine::ERASED;
use aegis_pages::{
    FileLayout, HEADER_BLOCK_BYTES, open_header_block, open_page_at, seal_header, seal_page_at,
};
use check::{TAG_BYTES, check_header, check_page};

pub mod check;

/// Finds the position of a page in a file of this page size.
#[inline(never)]
pub fn page_place<S: LaneState, const N: usize>(
    page_bytes: u32,
    number: u64,
    place: &mut u64,
) -> Result<(), Refusal>
    requires { N ≡ key_length S.VARIANT.family }
    ensures { PagePlace (Some S.VARIANT) page_bytes number place.old place.new (code_of result) }
{
    let size = check_page::<N>(page_bytes as usize + (N + TAG_BYTES), number)?;
    *place = FileLayout::<S, N>::new(&[0; N], size, &[0; 24]).page_place(number);
    Ok(())
}

/// Seals a page where it lies: `page` has `N` bytes for the nonce, the contents, and 32 bytes for the tag.
#[inline(never)]
pub fn page_seal<S: LaneState, const N: usize>(
    page: &mut [u8],
    id: &[u8; 24],
    number: u64,
    npub: &[u8],
    k: &[u8],
) -> Result<(), Refusal>
    requires { N ≡ key_length S.VARIANT.family }
    ensures { PageSeal (Some S.VARIANT) k.now id.now npub.now number page.old page.new
        (code_of result) }
{
    let (nonce, key) = nonce_and_key::<N>(npub, k)?;
    let page_bytes = check_page::<N>(page.len(), number)?;
    let layout = FileLayout::<S, N>::new(key, page_bytes, id);
    seal_page_at(&layout, number, nonce, page);
    Ok(())
}

/// Opens a page in place: its contents are written over its ciphertext. If no contents are sealed to `page` at this
/// number, each of its bytes is [`ERASED`].
#[inline(never)]
pub fn page_open<S: LaneState, const N: usize>(
    page: &mut [u8],
    id: &[u8; 24],
    number: u64,
    k: &[u8],
) -> Result<(), Refusal>
    requires { N ≡ key_length S.VARIANT.family }
    ensures { PageOpen (Some S.VARIANT) k.now id.now number page.old page.new (code_of result) }
{
    let key = key_alone::<N>(k)?;
    let page_bytes = check_page::<N>(page.len(), number)?;
    let layout = FileLayout::<S, N>::new(key, page_bytes, id);
    if open_page_at(&layout, number, page) {
        Ok(())
    } else {
        page.fill(ERASED);
        Err(Refusal::InvalidTag)
    }
}

/// Writes the block of a header to `header_block`.
#[inline(never)]
pub fn page_header_seal<S: LaneState, const N: usize>(
    header_block: &mut [u8; HEADER_BLOCK_BYTES],
    page_bytes: u32,
    id: &[u8; 24],
    counter: u64,
    len: u64,
    npub: &[u8],
    k: &[u8],
) -> Result<(), Refusal>
    requires { N ≡ key_length S.VARIANT.family }
    ensures { PageHeaderSeal (Some S.VARIANT) k.now id.now npub.now page_bytes counter len
        header_block.old header_block.new (code_of result) }
{
    let (nonce, key) = nonce_and_key::<N>(npub, k)?;
    check_header(page_bytes, len)?;
    let layout = FileLayout::<S, N>::new(key, page_bytes, id);
    *header_block = seal_header(&layout, nonce, counter, len);
    Ok(())
}

/// Opens the header in `header_block`, and writes what it names to the last four parameters.
#[inline(never)]
pub fn page_header_open<S: LaneState, const N: usize>(
    header_block: &[u8; HEADER_BLOCK_BYTES],
    k: &[u8],
    page_bytes: &mut u32,
    id: &mut [u8; 24],
    counter: &mut u64,
    len: &mut u64,
) -> Result<(), Refusal>
    requires { N ≡ key_length S.VARIANT.family }
    ensures { PageHeaderOpen (Some S.VARIANT) k.now header_block.now
        (header_of page_bytes.old id.old counter.old len.old)
        (header_of page_bytes.new id.new counter.new len.new) (code_of result) }
{
    let key = key_alone::<N>(k)?;
    let mut copy = *header_block;
    let Some(header) = open_header_block::<S, N>(key, &mut copy) else {
        return Err(Refusal::InvalidTag);
    };
    let found = header.id;
    *page_bytes = header.page_bytes;
    *id = found;
    *counter = header.counter;
    *len = header.len;
    Ok(())
}
