//! The fields of a line, and what they stand for.

ghost use Rattle.std.specs.Prelude.{◌≡◌, ◌+◌, ◌<◌, ◌≤◌, ◌++◌, ◌^◌, List, [], true, length, map, vec_items, IfOk, OnOk};
ghost use Rattle.std.specs.Char.{is_ascii_digit};
ghost use Rattle.std.specs.List.{list_all};
ghost use Rattle.std.specs.Str.Parse.{digits_value};
ghost use Rattle.hex.specs.Hex.{is_hex_digit};
ghost use Rattle.aegis_base.specs.Chunks.{texts};
ghost use Rattle.aegis_lines.specs.Answer.{bytes_of, cut_at, field_of, is_bytes, is_count, messages_of, field_pieces, shown, tag_length_in, variant_in, variant_named};
ghost use Rattle.aegis_variants.specs.Cipher.{key_length_of};

use aegis_variants::AnyVariant;
use std::alloc::{AllocError, Allocator};

/// The maximum number of bytes of keystream that a line can ask for.
const MAX_KEYSTREAM_BYTES: usize = 65536;

/// The room for the bytes around the digits of an answer, such as `ok -` and a line feed.
const AROUND_DIGITS: usize = 8;

/// Cuts a text at each separator.
pub fn split<A: Allocator>(
    alloc: A,
    text: &[u8],
    separator: u8,
) -> Result<Vec<&[u8], A>, AllocError>
    ensures { IfOk result (λ pieces. texts pieces.items ≡ cut_at separator text.now) }
{
    text.split(|byte| *byte == separator).collect(alloc)
}

/// Returns field `index` of a line. The command is field 0.
#[tactic(auto, using(std::proofs::lemmas::Grind::common_steps, crate::proofs::Pieces::field_laws))]
pub fn field<'a>(fields: &[&'a [u8]], index: usize) -> &'a [u8]
    requires { index < length fields.now }
    ensures { result.now ≡ field_of (texts fields.now) index }
{
    fields[index]
}

/// Returns the variant with this name, in lower case.
#[tactic(auto, unfolding(crate::specs::Answer::variant_named))]
pub fn variant_named(name: &[u8]) -> Option<AnyVariant>
    ensures { result ≡ variant_named name.now }
{
    if name == b"aegis128l".as_slice() {
        Some(AnyVariant::Aegis128L)
    } else if name == b"aegis128x2".as_slice() {
        Some(AnyVariant::Aegis128X2)
    } else if name == b"aegis128x4".as_slice() {
        Some(AnyVariant::Aegis128X4)
    } else if name == b"aegis256".as_slice() {
        Some(AnyVariant::Aegis256)
    } else if name == b"aegis256x2".as_slice() {
        Some(AnyVariant::Aegis256X2)
    } else if name == b"aegis256x4".as_slice() {
        Some(AnyVariant::Aegis256X4)
    } else {
        None
    }
}

/// Returns the length of a variant's key and of its nonce, in bytes.
pub fn key_len(variant: AnyVariant) -> usize
    ensures { result ≡ key_length_of variant }
{
    match variant {
        AnyVariant::Aegis128L | AnyVariant::Aegis128X2 | AnyVariant::Aegis128X4 => 16,
        AnyVariant::Aegis256 | AnyVariant::Aegis256X2 | AnyVariant::Aegis256X4 => 32,
    }
}

/// Returns the variant of a line. If its command has none, the result is not used.
pub fn variant_in(fields: &[&[u8]]) -> AnyVariant
    requires { 1 < length fields.now }
    ensures { result ≡ variant_in (texts fields.now) }
{
    variant_named(field(fields, 1)).unwrap_or(AnyVariant::Aegis128L)
}

/// Returns the length of a line's tag. If its command has none, the result is not used.
pub fn tag_len_in(fields: &[&[u8]]) -> usize
    requires { 2 < length fields.now }
    ensures { result ≡ tag_length_in (texts fields.now) }
{
    if field(fields, 2) == b"16".as_slice() {
        16
    } else {
        32
    }
}

/// Returns whether a field, or a piece, is of bytes: `-`, or pairs of hexadecimal digits.
#[tactic(auto, unfolding(crate::specs::Answer::is_bytes))]
pub fn is_bytes(field: &[u8]) -> bool
    ensures { result ≡ is_bytes field.now }
{
    field == b"-".as_slice() || (field.len() >= 2 && field.len() % 2 == 0 && all_hex_digits(field))
}

// Whether each byte is a hexadecimal digit. It does not stop at the first that is not: without that branch LLVM tests
// many bytes at once.
fn all_hex_digits(digits: &[u8]) -> bool
    ensures { result ≡ list_all is_hex_digit digits.now }
{
    let mut all = true;
    for digit in digits {
        all &= is_hex_digit(*digit);
    }
    all
}

fn is_hex_digit(digit: u8) -> bool
    ensures { result ≡ is_hex_digit digit }
{
    matches!(digit, b'0'..=b'9' | b'a'..=b'f' | b'A'..=b'F')
}

/// Returns how many bytes a field of bytes stands for.
#[tactic(auto, using(crate::proofs::Pieces::half_length))]
pub fn bytes_len(field: &[u8]) -> usize
    ensures value { is_bytes field.now ≡ true → result ≡ length (bytes_of field.now) }
    ensures bound { result < 2 ^ 63 }
{
    field.len() / 2
}

/// Returns the bytes that a field of bytes stands for. The only error is that there is no memory for them.
#[tactic(auto, unfolding(crate::specs::Answer::bytes_of))]
pub fn bytes<A: Allocator>(alloc: A, field: &[u8]) -> Result<Vec<u8, A>, AllocError>
    requires { is_bytes field.now ≡ true }
    ensures { IfOk result (λ bytes. bytes.items ≡ bytes_of field.now) }
{
    if field == b"-".as_slice() {
        return Ok(Vec::new(alloc));
    }
    match hex::decode(alloc, field) {
        Ok(bytes) => Ok(bytes),
        Err(_) => Err(AllocError),
    }
}

/// Returns the `N` bytes that a field of bytes stands for. The only error is that there is no memory for them.
pub fn array<A: Allocator, const N: usize>(alloc: A, field: &[u8]) -> Result<[u8; N], AllocError>
    requires bytes { is_bytes field.now ≡ true }
    requires size { length (bytes_of field.now) ≡ N }
    ensures { IfOk result (λ bytes. bytes ≡ bytes_of field.now) }
{
    let bytes = bytes(alloc, field)?;
    Ok(<[u8; N]>::try_from(bytes.as_slice()).unwrap())
}

/// Returns the bytes of each piece of a field. The only error is that there is no memory for them.
pub fn pieces<A: Allocator + Copy>(alloc: A, field: &[u8]) -> Result<Vec<Vec<u8, A>, A>, AllocError>
    requires { list_all is_bytes (field_pieces field.now) ≡ true }
    ensures { IfOk result (λ pieces. map vec_items pieces.items ≡ messages_of field.now) }
{
    let texts = split(alloc, field, b',')?;
    bytes_of_each(alloc, &texts)
}

#[tactic(auto, using(crate::proofs::Pieces::is_bytes_at))]
fn bytes_of_each<A: Allocator + Copy>(
    alloc: A,
    pieces: &[&[u8]],
) -> Result<Vec<Vec<u8, A>, A>, AllocError>
    requires { list_all is_bytes (texts pieces.now) ≡ true }
    ensures { IfOk result (λ read. map vec_items read.items ≡ map bytes_of (texts pieces.now)) }
{
    let mut read = Vec::new(alloc);
    for piece in pieces {
        read.push(bytes(alloc, piece)?)?;
    }
    Ok(read)
}

/// Returns an empty text with room for the digits of so many bytes, the bytes around them, and a line feed.
pub fn text_for<A: Allocator>(alloc: A, bytes: usize) -> Result<Vec<u8, A>, AllocError>
    ensures { IfOk result (λ text. text.items ≡ []) }
{
    // A text that grows takes up to three times its length for a while.
    Vec::with_capacity(alloc, bytes.saturating_mul(2).saturating_add(AROUND_DIGITS))
}

/// Appends bytes to a text, as a field of them is written: in lower case, and no bytes as `-`.
#[tactic(auto, unfolding(crate::specs::Answer::shown))]
pub fn push_bytes<A: Allocator>(text: &mut Vec<u8, A>, bytes: &[u8]) -> Result<(), AllocError>
    ensures { OnOk result (text.new.items ≡ text.old.items ++ shown bytes.now) }
{
    if bytes.is_empty() {
        return text.extend_from_slice(b"-");
    }
    let start = text.len();
    let Some(end) = start.checked_add(2 * bytes.len()) else {
        return Err(AllocError);
    };
    text.resize(end, 0)?;
    // The digits are written in place: a text of their own would take their length once more.
    match hex::encode_to_slice(bytes, &mut text[start..]) {
        Ok(()) => Ok(()),
        Err(_) => Err(AllocError),
    }
}

/// Returns whether a field is the length of a keystream.
#[tactic(auto, unfolding(crate::specs::Answer::is_count))]
pub fn is_count(field: &[u8]) -> bool
    ensures { result ≡ is_count field.now }
{
    if field.is_empty() || field.len() > 5 || !all_digits(field) {
        return false;
    }
    decimal(field) <= MAX_KEYSTREAM_BYTES
}

// Whether each byte is a decimal digit.
fn all_digits(field: &[u8]) -> bool
    ensures { result ≡ list_all is_ascii_digit field.now }
{
    field.iter().all(|byte| byte.is_ascii_digit())
}

/// Returns the number that a few decimal digits give.
pub fn decimal(digits: &[u8]) -> usize
    requires few { length digits.now ≤ 5 }
    requires digits { list_all is_ascii_digit digits.now ≡ true }
    ensures { result ≡ digits_value 10 digits.now }
{
    let mut value = 0;
    for digit in digits {
        value = value * 10 + usize::from(*digit - b'0');
    }
    value
}
