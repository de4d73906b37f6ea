//! Pages and headers that a caller seals or opens by itself.

ghost use Rattle.std.specs.Prelude.{◌≡◌, ◌≤◌, ◌^◌, drop, false, length};
ghost use Rattle.aegis_base.specs.Variant.{key_length};
ghost use Rattle.aegis_pages.specs.Commits.{head_bytes};
ghost use Rattle.aegis_pages.specs.Layouts.{sealed_bytes};

use aegis_base::LaneState;
use aegis_pages::{FileLayout, open_header_block, open_page_at, seal_header};

/// Opens two pages of one length. If neither opens, the same bytes are left of both, so nothing of either of them.
pub fn open_either<L: LaneState, const KEY_BYTES: usize>(
    layout: &FileLayout<L, KEY_BYTES>,
    number: u64,
    page: &mut [u8],
    other: &mut [u8],
) -> bool
    requires long { sealed_bytes layout.now 0 ≤ length page.old }
    requires within { length page.old ≤ 2 ^ 32 }
    requires same { length other.old ≡ length page.old }
    ensures { result ≡ false → page.new ≡ other.new }
{
    let is_first = open_page_at(layout, number, page);
    let is_other = open_page_at(layout, number, other);
    is_first || is_other
}

/// Whether one of two header blocks has a header of this key. If neither has, the same bytes are left of both.
pub fn has_header<L: LaneState, const KEY_BYTES: usize>(
    key: &[u8; KEY_BYTES],
    header_block: &mut [u8; 512],
    other: &mut [u8; 512],
) -> bool
    requires { KEY_BYTES ≡ key_length L.VARIANT.family }
    ensures { result ≡ false → header_block.new ≡ other.new }
{
    let first = open_header_block::<L, KEY_BYTES>(key, header_block);
    let second = open_header_block::<L, KEY_BYTES>(key, other);
    first.is_some() || second.is_some()
}

/// Returns the blocks of the first two headers of a file. After the headers they have the same bytes.
pub fn first_headers<L: LaneState, const KEY_BYTES: usize>(
    layout: &FileLayout<L, KEY_BYTES>,
    nonce: &[u8; KEY_BYTES],
    other_nonce: &[u8; KEY_BYTES],
    len: u64,
) -> ([u8; 512], [u8; 512])
    requires { len ≤ 2 ^ 60 }
    ensures { drop (head_bytes layout.now.variant) result.0
        ≡ drop (head_bytes layout.now.variant) result.1 }
{
    let first = seal_header(layout, nonce, 0, 0);
    let second = seal_header(layout, other_nonce, 1, len);
    (first, second)
}
