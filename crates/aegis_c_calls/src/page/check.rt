//! What C passes: the length of a page and its number, or a page size and the length of contents.

ghost use Rattle.std.specs.Prelude.{◌≡◌, ◌≢◌, ◌+◌, ◌-◌, ◌≤◌, IfErr, IfOk, OnOk};
ghost use Rattle.aegis_pages.specs.Layouts.{IsPageSize};
ghost use Rattle.aegis_c_calls.specs.Codes.{header_code, number_of, place_code, success};

use crate::refusal::Refusal;
use aegis_pages::{MAX_CONTENTS_BYTES, MAX_PAGE_BYTES, MIN_PAGE_BYTES};

/// The length of a tag.
pub const TAG_BYTES: usize = 32;

/// Returns the page size of a page that has so many bytes, with a nonce of `N`. Refuses what is no page size, and a
/// page whose number lets it begin too far in the contents.
pub fn check_page<const N: usize>(bytes: usize, number: u64) -> Result<u32, Refusal>
    requires { N ≤ 32 }
    ensures value { IfOk result (λ n. n ≡ bytes - (N + TAG_BYTES)) }
    ensures long { OnOk result (N + TAG_BYTES ≤ bytes) }
    ensures size { IfOk result (λ n. IsPageSize n) }
    ensures right { OnOk result (place_code N bytes number ≡ success) }
    ensures wrong { IfErr result (λ refusal. place_code N bytes number ≡ number_of refusal) }
    ensures not_done { IfErr result (λ refusal. number_of refusal ≢ success) }
    ensures not_invalid { IfErr result
        (λ refusal. number_of refusal ≢ number_of Refusal.InvalidTag) }
{
    let added_bytes = N + TAG_BYTES;
    if bytes < added_bytes + MIN_PAGE_BYTES as usize
        || bytes > added_bytes + MAX_PAGE_BYTES as usize
    {
        return Err(Refusal::WrongPageSize);
    }
    let page_bytes = (bytes - added_bytes) as u32;
    match number.checked_mul(page_bytes as u64) {
        Some(place) if place <= MAX_CONTENTS_BYTES => Ok(page_bytes),
        _ => Err(Refusal::FileTooLong),
    }
}

/// Refuses what is no page size, and contents that have more bytes than a file may.
pub fn check_header(page_bytes: u32, len: u64) -> Result<(), Refusal>
    ensures size { OnOk result (IsPageSize page_bytes) }
    ensures within { OnOk result (len ≤ MAX_CONTENTS_BYTES) }
    ensures right { OnOk result (header_code page_bytes len ≡ success) }
    ensures wrong { IfErr result (λ refusal. header_code page_bytes len ≡ number_of refusal) }
    ensures not_done { IfErr result (λ refusal. number_of refusal ≢ success) }
{
    if page_bytes < MIN_PAGE_BYTES || page_bytes > MAX_PAGE_BYTES {
        return Err(Refusal::WrongPageSize);
    }
    if len > MAX_CONTENTS_BYTES {
        return Err(Refusal::FileTooLong);
    }
    Ok(())
}
