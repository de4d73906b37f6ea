//! Answers to lines.

ghost use Rattle.std.specs.Prelude.{◌≡◌, ◌+◌, ◌<◌, ◌≤◌, ◌++◌, IfErr, IfOk, None, length, codes};
ghost use Rattle.aegis_base.specs.Chunks.{joined, texts};
ghost use Rattle.aegis_base.specs.Lane.{IsTagLength};
ghost use Rattle.aegis_base.specs.declared.error.Error.TheVariants.{OutOfMemory};
ghost use Rattle.aegis_base.specs.declared.error.TheConstants.{MAX_AEAD_BYTES};
ghost use Rattle.aegis_lines.specs.Answer.{IsAnswer, IsOpeningAnswer, IsReply, field_bytes, command_named, fault_of, field_of, shown, shown_pair, tag_length_in, variant_in};
ghost use Rattle.aegis_lines.specs.Private.{IsFaultless};
ghost use Rattle.aegis_lines.specs.declared.table.Command.TheVariants as commands;
ghost use Rattle.aegis_lines.specs.declared.table.Kind.TheVariants as kinds;
ghost use Rattle.aegis_variants.specs.Cipher.{key_of, nonce_of, sealed_by, variant_of, key_length_of};

use crate::fault::Fault;
use crate::fields::{
    array, bytes, decimal, field, pieces, push_bytes, split, tag_len_in, text_for, variant_in,
};
use crate::records::{answer_opening, answer_sealing};
use crate::table::{Command, fault_in};
use aegis::aes::AesBlock;
use aegis::{Error, chunks_len};
use aegis_base::slices;
use aegis_variants::{AnyCipher, AnyVariant, Keys};
use std::alloc::{AllocError, Allocator};

/// Returns the answer to a line, without a line end. The line may have any bytes, and a line end in it is a byte like
/// others. The only error is that there is not enough memory.
pub fn answer_line<A: Allocator + Copy>(alloc: A, line: &[u8]) -> Result<Vec<u8, A>, Error>
    ensures answer { IfOk result (λ text. IsAnswer line.now text.items) }
    ensures refused { IfErr result (λ error. error ≡ OutOfMemory) }
{
    match answer(alloc, line) {
        Ok(text) => Ok(text),
        Err(_) => Err(Error::OutOfMemory),
    }
}

fn answer<A: Allocator + Copy>(alloc: A, line: &[u8]) -> Result<Vec<u8, A>, AllocError>
    ensures { IfOk result (λ text. IsAnswer line.now text.items) }
{
    let fields = split(alloc, line, b' ')?;
    let Some(command) = command(&fields) else {
        return Vec::from_slice(alloc, Fault::Command.text());
    };
    match fault_in(alloc, command, &fields)? {
        Some(fault) => Vec::from_slice(alloc, fault.text()),
        None => reply(alloc, command, &fields),
    }
}

// The command that a line's first field names.
#[tactic(auto, unfolding(crate::specs::Answer::command_named))]
fn command(fields: &[&[u8]]) -> Option<Command>
    ensures { result ≡ command_named (field_of (texts fields.now) 0) }
{
    Command::named(fields.first()?)
}

// The answer to a command's line without a fault.
fn reply<A: Allocator + Copy>(
    alloc: A,
    command: Command,
    fields: &[&[u8]],
) -> Result<Vec<u8, A>, AllocError>
    requires { IsFaultless command (texts fields.now) }
    ensures { IfOk result (λ text. IsReply command (texts fields.now) text.items) }
{
    match command {
        Command::Round => round(alloc, fields),
        Command::Seal => match tag_len_in(fields) {
            16 => seal::<A, 16>(alloc, fields),
            _ => seal::<A, 32>(alloc, fields),
        },
        Command::Open => match tag_len_in(fields) {
            16 => open::<A, 16>(alloc, fields),
            _ => open::<A, 32>(alloc, fields),
        },
        Command::Stream => stream(alloc, fields),
        Command::Xor => xor(alloc, fields),
        Command::Mac => match tag_len_in(fields) {
            16 => mac::<A, 16>(alloc, fields),
            _ => mac::<A, 32>(alloc, fields),
        },
        Command::SealRecords => answer_sealing(alloc, fields),
        Command::OpenRecords => answer_opening(alloc, fields),
    }
}

/// Returns bytes as they are printed.
pub fn shown<A: Allocator + Copy>(alloc: A, bytes: &[u8]) -> Result<Vec<u8, A>, AllocError>
    ensures { IfOk result (λ text. text.items ≡ shown bytes.now) }
{
    let mut text = text_for(alloc, bytes.len())?;
    push_bytes(&mut text, bytes)?;
    Ok(text)
}

// A ciphertext and a tag, as they are printed.
fn shown_pair<A: Allocator + Copy>(
    alloc: A,
    ciphertext: &[u8],
    tag: &[u8],
) -> Result<Vec<u8, A>, AllocError>
    ensures { IfOk result (λ text. text.items ≡ shown_pair (ciphertext.now, tag.now)) }
{
    let mut text = text_for(alloc, ciphertext.len().saturating_add(tag.len()))?;
    push_bytes(&mut text, ciphertext)?;
    text.push(b' ')?;
    push_bytes(&mut text, tag)?;
    Ok(text)
}

// A message that was opened, as it is printed.
fn shown_message<A: Allocator + Copy>(alloc: A, message: &[u8]) -> Result<Vec<u8, A>, AllocError>
    ensures { IfOk result (λ text. text.items ≡ codes "ok " ++ shown message.now) }
{
    let mut text = text_for(alloc, message.len())?;
    text.extend_from_slice(b"ok ")?;
    push_bytes(&mut text, message)?;
    Ok(text)
}

// The key of this field and the nonce of the next, which have `N` bytes.
fn keys<A: Allocator + Copy, const N: usize>(
    alloc: A,
    fields: &[&[u8]],
    key: usize,
) -> Result<Keys<N>, AllocError>
    requires in_line { key + 1 < length fields.now }
    requires key { fault_of N 0 kinds.Key (field_of (texts fields.now) key) ≡ None }
    requires nonce { fault_of N 0 kinds.Key (field_of (texts fields.now) (key + 1)) ≡ None }
    ensures key { IfOk result (λ keys. keys.key ≡ field_bytes (texts fields.now) key) }
    ensures nonce { IfOk result (λ keys. keys.nonce ≡ field_bytes (texts fields.now) (key + 1)) }
{
    Ok(Keys {
        key: array(alloc, field(fields, key))?,
        nonce: array(alloc, field(fields, key + 1))?,
    })
}

// The cipher of a line's variant, with the key of this field and the nonce of the next.
fn cipher<A: Allocator + Copy>(
    alloc: A,
    fields: &[&[u8]],
    key: usize,
) -> Result<AnyCipher, AllocError>
    requires after_variant { 0 < key }
    requires in_line { key + 1 < length fields.now }
    requires key { fault_of (key_length_of (variant_in (texts fields.now))) 0 kinds.Key
        (field_of (texts fields.now) key) ≡ None }
    requires nonce { fault_of (key_length_of (variant_in (texts fields.now))) 0 kinds.Key
        (field_of (texts fields.now) (key + 1)) ≡ None }
    ensures variant { IfOk result (λ cipher. variant_of cipher ≡ variant_in (texts fields.now)) }
    ensures key { IfOk result (λ cipher. key_of cipher ≡ field_bytes (texts fields.now) key) }
    ensures nonce { IfOk result
        (λ cipher. nonce_of cipher ≡ field_bytes (texts fields.now) (key + 1)) }
{
    Ok(match variant_in(fields) {
        AnyVariant::Aegis128L => AnyCipher::Aegis128L(keys(alloc, fields, key)?),
        AnyVariant::Aegis128X2 => AnyCipher::Aegis128X2(keys(alloc, fields, key)?),
        AnyVariant::Aegis128X4 => AnyCipher::Aegis128X4(keys(alloc, fields, key)?),
        AnyVariant::Aegis256 => AnyCipher::Aegis256(keys(alloc, fields, key)?),
        AnyVariant::Aegis256X2 => AnyCipher::Aegis256X2(keys(alloc, fields, key)?),
        AnyVariant::Aegis256X4 => AnyCipher::Aegis256X4(keys(alloc, fields, key)?),
    })
}

// The answer to `round B K`.
fn round<A: Allocator + Copy>(alloc: A, fields: &[&[u8]]) -> Result<Vec<u8, A>, AllocError>
    requires { IsFaultless commands.Round (texts fields.now) }
    ensures { IfOk result (λ text. IsReply commands.Round (texts fields.now) text.items) }
{
    let block: [u8; 16] = array(alloc, field(fields, 1))?;
    let key: [u8; 16] = array(alloc, field(fields, 2))?;
    let round = AesBlock::from_bytes(&block).round(AesBlock::from_bytes(&key));
    shown(alloc, &round.to_bytes())
}

// The answer to `seal V T K N A M`.
fn seal<A: Allocator + Copy, const TAG_BYTES: usize>(
    alloc: A,
    fields: &[&[u8]],
) -> Result<Vec<u8, A>, AllocError>
    requires tag { IsTagLength TAG_BYTES }
    requires named { tag_length_in (texts fields.now) ≡ TAG_BYTES }
    requires faultless { IsFaultless commands.Seal (texts fields.now) }
    ensures { IfOk result (λ text. IsReply commands.Seal (texts fields.now) text.items) }
{
    let cipher = cipher(alloc, fields, 3)?;
    let associated_data = bytes(alloc, field(fields, 5))?;
    let message = pieces(alloc, field(fields, 6))?;
    seal_chunks::<A, TAG_BYTES>(alloc, &cipher, &associated_data, &slices(alloc, &message)?)
}

fn seal_chunks<A: Allocator + Copy, const TAG_BYTES: usize>(
    alloc: A,
    cipher: &AnyCipher,
    associated_data: &[u8],
    chunks: &[&[u8]],
) -> Result<Vec<u8, A>, AllocError>
    requires tag { IsTagLength TAG_BYTES }
    requires associated_data { length associated_data.now ≤ MAX_AEAD_BYTES }
    requires message { length (joined chunks.now) ≤ MAX_AEAD_BYTES }
    ensures { IfOk result (λ text. text.items
        ≡ shown_pair (sealed_by cipher.now TAG_BYTES associated_data.now (joined chunks.now))) }
{
    let mut ciphertext = vec![in alloc; 0u8; len_of(chunks)?]?;
    let tag = cipher.seal_chunks::<TAG_BYTES>(associated_data, chunks, &mut ciphertext);
    shown_pair(alloc, &ciphertext, &tag)
}

// The answer to `open V T K N A C TAG`.
fn open<A: Allocator + Copy, const TAG_BYTES: usize>(
    alloc: A,
    fields: &[&[u8]],
) -> Result<Vec<u8, A>, AllocError>
    requires tag { IsTagLength TAG_BYTES }
    requires named { tag_length_in (texts fields.now) ≡ TAG_BYTES }
    requires faultless { IsFaultless commands.Open (texts fields.now) }
    ensures { IfOk result (λ text. IsReply commands.Open (texts fields.now) text.items) }
{
    let cipher = cipher(alloc, fields, 3)?;
    let associated_data = bytes(alloc, field(fields, 5))?;
    let ciphertext = pieces(alloc, field(fields, 6))?;
    let tag: [u8; TAG_BYTES] = array(alloc, field(fields, 7))?;
    open_chunks(
        alloc,
        &cipher,
        &associated_data,
        &slices(alloc, &ciphertext)?,
        &tag,
    )
}

fn open_chunks<A: Allocator + Copy, const TAG_BYTES: usize>(
    alloc: A,
    cipher: &AnyCipher,
    associated_data: &[u8],
    chunks: &[&[u8]],
    tag: &[u8; TAG_BYTES],
) -> Result<Vec<u8, A>, AllocError>
    requires tag { IsTagLength TAG_BYTES }
    requires associated_data { length associated_data.now ≤ MAX_AEAD_BYTES }
    requires ciphertext { length (joined chunks.now) ≤ MAX_AEAD_BYTES }
    ensures { IfOk result (λ text. IsOpeningAnswer
        (λ m. sealed_by cipher.now TAG_BYTES associated_data.now m ≡ (joined chunks.now, tag.now))
        text.items) }
{
    let mut message = vec![in alloc; 0u8; len_of(chunks)?]?;
    let Ok(()) = cipher.open_chunks(associated_data, chunks, tag, &mut message) else {
        return Vec::from_slice(alloc, b"invalid tag");
    };
    shown_message(alloc, &message)
}

// How many bytes chunks have together. No memory has more than a message may have.
fn len_of(chunks: &[&[u8]]) -> Result<usize, AllocError>
    ensures { IfOk result (λ len. len ≡ length (joined chunks.now)) }
{
    match chunks_len(chunks) {
        Some(len) => Ok(len as usize),
        None => Err(AllocError),
    }
}

// The answer to `stream V K N LEN`.
#[tactic(auto, unfolding(crate::specs::Answer::is_count))]
fn stream<A: Allocator + Copy>(alloc: A, fields: &[&[u8]]) -> Result<Vec<u8, A>, AllocError>
    requires { IsFaultless commands.Stream (texts fields.now) }
    ensures { IfOk result (λ text. IsReply commands.Stream (texts fields.now) text.items) }
{
    let cipher = cipher(alloc, fields, 2)?;
    let mut keystream = vec![in alloc; 0u8; decimal(field(fields, 4))]?;
    cipher.stream(&mut keystream);
    shown(alloc, &keystream)
}

// The answer to `xor V K N M`.
fn xor<A: Allocator + Copy>(alloc: A, fields: &[&[u8]]) -> Result<Vec<u8, A>, AllocError>
    requires { IsFaultless commands.Xor (texts fields.now) }
    ensures { IfOk result (λ text. IsReply commands.Xor (texts fields.now) text.items) }
{
    let cipher = cipher(alloc, fields, 2)?;
    let mut message = bytes(alloc, field(fields, 4))?;
    cipher.stream_xor_in_place(&mut message);
    shown(alloc, &message)
}

// The answer to `mac V T K N M`.
fn mac<A: Allocator + Copy, const TAG_BYTES: usize>(
    alloc: A,
    fields: &[&[u8]],
) -> Result<Vec<u8, A>, AllocError>
    requires tag { IsTagLength TAG_BYTES }
    requires named { tag_length_in (texts fields.now) ≡ TAG_BYTES }
    requires faultless { IsFaultless commands.Mac (texts fields.now) }
    ensures { IfOk result (λ text. IsReply commands.Mac (texts fields.now) text.items) }
{
    let cipher = cipher(alloc, fields, 3)?;
    let message = pieces(alloc, field(fields, 5))?;
    shown(
        alloc,
        &cipher.mac_chunks::<TAG_BYTES>(&slices(alloc, &message)?),
    )
}
