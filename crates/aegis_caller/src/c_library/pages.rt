//! Pages and headers of random-access files: what was sealed is opened.

ghost use Rattle.std.specs.Prelude.{◌≡◌, IfOk, IsOk, OnOk, Some, length};
ghost use Rattle.aegis_base.specs.Variant.{key_length};
ghost use Rattle.aegis_c_calls.specs.PageCalls.{contents_in};
ghost use Rattle.aegis_c_calls.specs.Codes.{header_seal_code, page_seal_code, success};
ghost use Rattle.aegis_pages.specs.Layouts.{Layout, page_place};

use aegis_base::LaneState;
use aegis_c_calls::page::{page_header_open, page_header_seal, page_open, page_place, page_seal};
use aegis_c_calls::refusal::Refusal;
use aegis_pages::FileHeader;

/// Returns the position of a page, which is the same in each file of this page size.
pub fn position_of<S: LaneState, const N: usize>(
    page_bytes: u32,
    number: u64,
) -> Result<u64, Refusal>
    requires { N ≡ key_length S.VARIANT.family }
    ensures { IfOk result (λ place. (file : Layout) → file.variant ≡ S.VARIANT
        → file.page_bytes ≡ page_bytes → place ≡ page_place file number) }
{
    let mut place = 0;
    page_place::<S, N>(page_bytes, number, &mut place)?;
    Ok(place)
}

/// Seals a page and opens it. Its contents are then what they were.
pub fn page_sealed_and_opened<S: LaneState, const N: usize>(
    page: &mut [u8],
    id: &[u8; 24],
    number: u64,
    npub: &[u8],
    k: &[u8],
) -> Result<(), Refusal>
    requires { N ≡ key_length S.VARIANT.family }
    ensures done { page_seal_code (Some S.VARIANT) (length k.now) (length npub.now)
        (length page.old) number ≡ success → IsOk result }
    ensures contents { OnOk result
        (contents_in S.VARIANT page.new ≡ contents_in S.VARIANT page.old) }
{
    page_seal::<S, N>(page, id, number, npub, k)?;
    page_open::<S, N>(page, id, number, k)?;
    Ok(())
}

/// Seals a header and opens it. What was found is then what was sealed.
pub fn header_sealed_and_opened<S: LaneState, const N: usize>(
    header: &FileHeader,
    npub: &[u8],
    k: &[u8],
    found: &mut FileHeader,
) -> Result<(), Refusal>
    requires { N ≡ key_length S.VARIANT.family }
    ensures done { header_seal_code (Some S.VARIANT) (length k.now) (length npub.now)
        header.now.page_bytes header.now.len ≡ success → IsOk result }
    ensures found { OnOk result (found.new ≡ header.now) }
{
    let FileHeader {
        page_bytes,
        id,
        counter,
        len,
    } = *header;
    let mut header_block = [0; 512];
    page_header_seal::<S, N>(&mut header_block, page_bytes, &id, counter, len, npub, k)?;
    page_header_open::<S, N>(
        &header_block,
        k,
        &mut found.page_bytes,
        &mut found.id,
        &mut found.counter,
        &mut found.len,
    )?;
    Ok(())
}
