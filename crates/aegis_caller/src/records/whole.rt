//! Record streams.

ghost use Rattle.std.specs.Prelude.{◌≡◌, ◌<◌, ◌≤◌, IfOk, List, length, ℕ};
ghost use Rattle.aegis_base.specs.Chunks.{texts};
ghost use Rattle.aegis.specs.RecordResults.{IsRefused, OpensTo, messages};
ghost use Rattle.aegis.specs.RecordStream.{AreRecords, AreWithin, IsFault, records_length};
ghost use Rattle.aegis.specs.declared.record.version.Version.{Version};
ghost use Rattle.aegis.specs.declared.record.version.Version.TheVariants.{Second};

use aegis::MAX_AEAD_BYTES;
use aegis::laws::record_stream_lengths;
use aegis::record::{MAX_CONTEXT_BYTES, RecordError, open_records, seal_records};
use std::alloc::Allocator;

/// Seals messages as a stream, and opens the stream again, which returns the messages, unless memory runs out.
pub fn sealed_and_opened_records<A: Allocator + Copy>(
    alloc: A,
    key: &[u8; 32],
    prefix: &[u8; 24],
    context: &[u8],
    messages: &[&[u8]],
) -> Result<Vec<Vec<u8, A>, A>, RecordError>
    requires some { 0 < length messages.now }
    requires within { AreWithin Second (texts messages.now) }
    requires context_within { length context.now ≤ MAX_CONTEXT_BYTES }
    requires fits { records_length (texts messages.now) ≤ MAX_AEAD_BYTES }
    ensures { OpensTo (texts messages.now) result }
{
    let stream = seal_records(alloc, key, prefix, context, messages)?;
    open_records(alloc, key, prefix, context, &stream)
}

/// Opens the stream of a list that its sealer knows: the answer is that list, of whichever version the stream is.
pub fn open_known_records<A: Allocator + Copy>(
    alloc: A,
    key: &[u8; 32],
    prefix: &[u8; 24],
    context: &[u8],
    stream: &[u8],
) -> Result<Vec<Vec<u8, A>, A>, RecordError>
    ghost sealed: { List (List ℕ) }
    requires context_within { length context.now ≤ MAX_CONTEXT_BYTES }
    requires stream { (v : Version)
        × AreRecords v key.now prefix.now context.now sealed stream.now }
    ensures { OpensTo sealed result }
{
    open_records(alloc, key, prefix, context, stream)
}

/// Opens bytes of which a caller knows what is wrong: the answer is this fault and no other, unless memory runs out.
pub fn open_faulty_records<A: Allocator + Copy>(
    alloc: A,
    key: &[u8; 32],
    prefix: &[u8; 24],
    context: &[u8],
    stream: &[u8],
) -> Result<Vec<Vec<u8, A>, A>, RecordError>
    ghost fault: { RecordError }
    requires context_within { length context.now ≤ MAX_CONTEXT_BYTES }
    requires stream { IsFault key.now prefix.now context.now stream.now fault }
    ensures { IsRefused fault result }
{
    open_records(alloc, key, prefix, context, stream)
}

/// Opens a stream. By a law its length is 4, and for each message that is returned 37 and the message's length.
pub fn open_records_of_its_length<A: Allocator + Copy>(
    alloc: A,
    key: &[u8; 32],
    prefix: &[u8; 24],
    context: &[u8],
    stream: &[u8],
) -> Result<Vec<Vec<u8, A>, A>, RecordError>
    requires { length context.now ≤ MAX_CONTEXT_BYTES }
    ensures { IfOk result
        (λ opened. length stream.now ≡ records_length (messages opened.items)) }
{
    record_stream_lengths();
    open_records(alloc, key, prefix, context, stream)
}
