//! The commands, the kinds of their fields, and the first fault of a line.

ghost use Rattle.std.specs.Prelude.{◌≡◌, ◌+◌, ◌≤◌, IfOk, Ok, None, false, leb, length, map, true};
ghost use Rattle.std.specs.List.{concat, list_all};
ghost use Rattle.aegis_base.specs.Chunks.{texts};
ghost use Rattle.aegis_base.specs.declared.error.TheConstants.{MAX_AEAD_BYTES};
ghost use Rattle.aegis_lines.specs.Answer.{bytes_of, is_bytes, bytes_fault, command_named, fault_in, fault_of, first_field_fault, have_records, kinds_of, unless};
ghost use Rattle.aegis_lines.specs.Private.{AreFaultless, IsFaultless};

use crate::fault::{Fault, earlier};
use crate::fields::{
    bytes_len, field, is_bytes, is_count, key_len, split, tag_len_in, variant_in, variant_named,
};
use aegis::MAX_AEAD_BYTES;
use aegis::record::{MAX_CONTEXT_BYTES, MAX_MESSAGE_BYTES};
use std::alloc::{AllocError, Allocator};

/// The commands.
#[derive(Clone, Copy, Debug)]
pub enum Command {
    /// One round of AES.
    Round,
    Seal,
    Open,
    /// The first bytes of a keystream.
    Stream,
    /// A message xored with the keystream.
    Xor,
    /// The MAC of a message.
    Mac,
    /// The record stream of some messages.
    SealRecords,
    /// The messages of a record stream.
    OpenRecords,
}

/// The kinds of fields.
#[derive(Clone, Copy, Debug)]
pub enum Kind {
    /// The name of a variant.
    Variant,
    /// The length of a tag: 16 or 32.
    TagLength,
    /// A number of bytes of keystream.
    Count,
    /// Any bytes.
    Bytes,
    /// So many bytes.
    Exactly(usize),
    /// At most so many bytes.
    AtMost(usize),
    /// A key or a nonce of the line's variant.
    Key,
    /// A tag of the line's length.
    Tag,
    /// Bytes in pieces between commas, within the limit of AEGIS together.
    Pieces,
    /// The messages of a record stream, between commas.
    Messages,
}

const MAX_BYTES: usize = MAX_AEAD_BYTES as usize;

/// The bytes of a record stream's header.
const HEADER_BYTES: u128 = 4;

/// How many bytes a record adds to its message.
const RECORD_BYTES: u128 = 37;

impl Command {
    /// Returns the command with this name.
    #[tactic(auto, unfolding(crate::specs::Answer::command_named))]
    pub fn named(name: &[u8]) -> Option<Command>
        ensures { result ≡ command_named name.now }
    {
        if name == b"round".as_slice() {
            Some(Command::Round)
        } else if name == b"seal".as_slice() {
            Some(Command::Seal)
        } else if name == b"open".as_slice() {
            Some(Command::Open)
        } else if name == b"stream".as_slice() {
            Some(Command::Stream)
        } else if name == b"xor".as_slice() {
            Some(Command::Xor)
        } else if name == b"mac".as_slice() {
            Some(Command::Mac)
        } else if name == b"sealrec".as_slice() {
            Some(Command::SealRecords)
        } else if name == b"openrec".as_slice() {
            Some(Command::OpenRecords)
        } else {
            None
        }
    }

    /// Returns the kinds of the fields after the command.
    pub fn kinds(self) -> &'static [Kind]
        ensures { result.now ≡ kinds_of self }
    {
        match self {
            Command::Round => &[Kind::Exactly(16), Kind::Exactly(16)],
            Command::Seal => &[
                Kind::Variant,
                Kind::TagLength,
                Kind::Key,
                Kind::Key,
                Kind::AtMost(MAX_BYTES),
                Kind::Pieces,
            ],
            Command::Open => &[
                Kind::Variant,
                Kind::TagLength,
                Kind::Key,
                Kind::Key,
                Kind::AtMost(MAX_BYTES),
                Kind::Pieces,
                Kind::Tag,
            ],
            Command::Stream => &[Kind::Variant, Kind::Key, Kind::Key, Kind::Count],
            Command::Xor => &[Kind::Variant, Kind::Key, Kind::Key, Kind::Bytes],
            Command::Mac => &[
                Kind::Variant,
                Kind::TagLength,
                Kind::Key,
                Kind::Key,
                Kind::Pieces,
            ],
            Command::SealRecords => &[
                Kind::Exactly(32),
                Kind::Exactly(24),
                Kind::AtMost(MAX_CONTEXT_BYTES),
                Kind::Messages,
            ],
            Command::OpenRecords => &[
                Kind::Exactly(32),
                Kind::Exactly(24),
                Kind::AtMost(MAX_CONTEXT_BYTES),
                Kind::Bytes,
            ],
        }
    }
}

/// What the table says of a line's lengths: that of its keys, and that of its tag.
#[derive(Clone, Copy, Debug)]
struct Lengths {
    key: usize,
    tag: usize,
}

/// Returns the first fault of a command's line.
pub fn fault_in<A: Allocator + Copy>(
    alloc: A,
    command: Command,
    fields: &[&[u8]],
) -> Result<Option<Fault>, AllocError>
    ensures first { IfOk result (λ fault. fault ≡ fault_in command (texts fields.now)) }
    ensures faultless { result ≡ Ok None → IsFaultless command (texts fields.now) }
{
    let kinds = command.kinds();
    if fields.len() != kinds.len() + 1 {
        return Ok(Some(Fault::Fields));
    }
    let lengths = Lengths {
        key: key_len(variant_in(fields)),
        tag: tag_len_in(fields),
    };
    first_fault(alloc, lengths, kinds, fields, 1)
}

// The first fault of the fields from one on, which are to be of these kinds.
fn first_fault<A: Allocator + Copy>(
    alloc: A,
    lengths: Lengths,
    kinds: &[Kind],
    fields: &[&[u8]],
    index: usize,
) -> Result<Option<Fault>, AllocError>
    requires { index + length kinds.now ≤ length fields.now }
    ensures first { IfOk result (λ fault. fault
        ≡ first_field_fault lengths.key lengths.tag kinds.now index (texts fields.now)) }
    ensures faultless { result ≡ Ok None
        → AreFaultless lengths.key lengths.tag kinds.now index (texts fields.now) }
{
    let Some((kind, kinds)) = kinds.split_first() else {
        return Ok(None);
    };
    let fault = fault_of(alloc, lengths, *kind, field(fields, index))?;
    let others = first_fault(alloc, lengths, kinds, fields, index + 1)?;
    Ok(earlier(fault, others))
}

// The first fault of a field that is to be of this kind.
fn fault_of<A: Allocator + Copy>(
    alloc: A,
    lengths: Lengths,
    kind: Kind,
    field: &[u8],
) -> Result<Option<Fault>, AllocError>
    ensures { IfOk result (λ fault. fault ≡ fault_of lengths.key lengths.tag kind field.now) }
{
    Ok(match kind {
        Kind::Variant => unless(variant_named(field).is_some(), Fault::Variant),
        Kind::TagLength => unless(
            field == b"16".as_slice() || field == b"32".as_slice(),
            Fault::Tag,
        ),
        Kind::Count => unless(is_count(field), Fault::Length),
        Kind::Bytes => unless(is_bytes(field), Fault::Hex),
        Kind::Exactly(size) => bytes_fault(is_bytes(field), bytes_len(field) == size),
        Kind::Key => bytes_fault(is_bytes(field), bytes_len(field) == lengths.key),
        Kind::Tag => bytes_fault(is_bytes(field), bytes_len(field) == lengths.tag),
        Kind::AtMost(size) => bytes_fault(is_bytes(field), bytes_len(field) <= size),
        Kind::Pieces => {
            let pieces = measure(&split(alloc, field, b',')?);
            bytes_fault(pieces.are_bytes, pieces.are_within_limit)
        }
        Kind::Messages => {
            let pieces = measure(&split(alloc, field, b',')?);
            bytes_fault(pieces.are_bytes, pieces.have_records)
        }
    })
}

fn unless(holds: bool, fault: Fault) -> Option<Fault>
    ensures { result ≡ unless holds fault }
{
    if holds { None } else { Some(fault) }
}

// The fault of bytes, if they are not, or if their length is not allowed.
fn bytes_fault(are_bytes: bool, is_allowed: bool) -> Option<Fault>
    ensures { result ≡ bytes_fault are_bytes is_allowed }
{
    if are_bytes {
        unless(is_allowed, Fault::Length)
    } else {
        Some(Fault::Hex)
    }
}

// What is found of the pieces of a field. If they are not of bytes, only that is used.
#[derive(Clone, Copy)]
struct Measured {
    are_bytes: bool,
    are_within_limit: bool,
    have_records: bool,
}

// Whether each piece is of bytes, whether these are within the limit of AEGIS together, and whether they are messages
// of a record stream.
fn measure(pieces: &[&[u8]]) -> Measured
    ensures bytes { result.are_bytes ≡ list_all is_bytes (texts pieces.now) }
    ensures limit { list_all is_bytes (texts pieces.now) ≡ true
        → result.are_within_limit
        ≡ leb (length (concat (map bytes_of (texts pieces.now)))) MAX_AEAD_BYTES }
    ensures records { list_all is_bytes (texts pieces.now) ≡ true
        → result.have_records ≡ have_records (map bytes_of (texts pieces.now)) }
{
    let mut are_bytes = true;
    let mut are_messages = true;
    let mut total: u128 = 0;
    let mut records = HEADER_BYTES;
    for piece in pieces {
        let len = bytes_len(piece);
        are_bytes &= is_bytes(piece);
        are_messages &= len <= MAX_MESSAGE_BYTES;
        total += len as u128;
        records += RECORD_BYTES + len as u128;
    }
    Measured {
        are_bytes,
        are_within_limit: total <= MAX_AEAD_BYTES as u128,
        have_records: are_messages && records <= MAX_AEAD_BYTES as u128,
    }
}
