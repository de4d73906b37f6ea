//! Record streams in lines.

ghost use Rattle.std.specs.Prelude.{◌≡◌, ◌++◌, IfOk, None, codes, length, map, vec_items};
ghost use Rattle.aegis_base.specs.Chunks.{texts};
ghost use Rattle.aegis_lines.specs.Answer.{IsRefusal, IsReply, shown_messages};
ghost use Rattle.aegis_lines.specs.Private.{IsFaultless};
ghost use Rattle.aegis_lines.specs.declared.table.Command.TheVariants as commands;

use crate::answer::shown;
use crate::fields::{array, bytes, field, pieces, push_bytes, text_for};
use aegis::record::{RecordError, open_records, seal_records};
use aegis_base::slices;
use std::alloc::{AllocError, Allocator};

/// Returns the answer to `sealrec K P X M`.
#[tactic(auto, using(std::proofs::lemmas::Grind::common_steps, crate::proofs::Pieces::within_all))]
pub fn answer_sealing<A: Allocator + Copy>(
    alloc: A,
    fields: &[&[u8]],
) -> Result<Vec<u8, A>, AllocError>
    requires { IsFaultless commands.SealRecords (texts fields.now) }
    ensures { IfOk result (λ text. IsReply commands.SealRecords (texts fields.now) text.items) }
{
    let key: [u8; 32] = array(alloc, field(fields, 1))?;
    let prefix: [u8; 24] = array(alloc, field(fields, 2))?;
    let context = bytes(alloc, field(fields, 3))?;
    let messages = pieces(alloc, field(fields, 4))?;
    match seal_records(alloc, &key, &prefix, &context, &slices(alloc, &messages)?) {
        Ok(stream) => shown(alloc, &stream),
        Err(_) => Err(AllocError),
    }
}

/// Returns the answer to `openrec K P X B`.
pub fn answer_opening<A: Allocator + Copy>(
    alloc: A,
    fields: &[&[u8]],
) -> Result<Vec<u8, A>, AllocError>
    requires { IsFaultless commands.OpenRecords (texts fields.now) }
    ensures { IfOk result (λ text. IsReply commands.OpenRecords (texts fields.now) text.items) }
{
    let key: [u8; 32] = array(alloc, field(fields, 1))?;
    let prefix: [u8; 24] = array(alloc, field(fields, 2))?;
    let context = bytes(alloc, field(fields, 3))?;
    let stream = bytes(alloc, field(fields, 4))?;
    match open_records(alloc, &key, &prefix, &context, &stream) {
        Ok(messages) => opened_text(alloc, &messages, stream.len()),
        Err(error) => refusal_text(alloc, error),
    }
}

// Messages as they are printed, from a stream of so many bytes, which is longer than they are.
#[tactic(auto, using(std::proofs::lemmas::Grind::common_steps, crate::proofs::Pieces::shown_laws))]
fn opened_text<A: Allocator + Copy>(
    alloc: A,
    messages: &[Vec<u8, A>],
    bytes: usize,
) -> Result<Vec<u8, A>, AllocError>
    ensures { IfOk result (λ text. text.items
        ≡ codes "ok " ++ shown_messages (map vec_items messages.now)) }
{
    let mut text = text_for(alloc, bytes)?;
    text.extend_from_slice(b"ok ")?;
    let Some((first, others)) = messages.split_first() else {
        return Ok(text);
    };
    push_bytes(&mut text, first)?;
    for message in others {
        text.push(b',')?;
        push_bytes(&mut text, message)?;
    }
    Ok(text)
}

// The answer for a stream that is refused, unless memory ran out.
fn refusal_text<A: Allocator + Copy>(alloc: A, error: RecordError) -> Result<Vec<u8, A>, AllocError>
    ensures { IfOk result (λ text. IsRefusal error text.items) }
{
    match error {
        RecordError::Header => Vec::from_slice(alloc, b"refused header"),
        RecordError::Truncated => Vec::from_slice(alloc, b"refused truncated"),
        RecordError::Flag => Vec::from_slice(alloc, b"refused flag"),
        RecordError::TooLong => Vec::from_slice(alloc, b"refused too long"),
        RecordError::Damaged(number) => {
            let text = format!(in alloc; "refused damaged {number}")?;
            Ok(text.into_bytes())
        }
        RecordError::Trailing => Vec::from_slice(alloc, b"refused trailing"),
        RecordError::OutOfMemory => Err(AllocError),
    }
}
