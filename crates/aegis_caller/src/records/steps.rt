//! Record streams, a record at a time.

ghost use Rattle.std.specs.Prelude.{◌≡◌, ◌+◌, ◌≤◌, ◌++◌, ◌∷◌, [], IfErr, IfOk, IfSome, List, OnErr, OnOk, length, ℕ};
ghost use Rattle.aegis.specs.RecordResults.{AreRecordsOfSomeVersion, Begun, start_of};
ghost use Rattle.aegis.specs.Private.{IsUnder};
ghost use Rattle.aegis.specs.RecordStream.{AreRecords};
ghost use Rattle.aegis.specs.declared.record.length.TheConstants.{HEADER_BYTES};
ghost use Rattle.aegis.specs.declared.record.version.Version.TheVariants.{Second};

use aegis::MAX_AEAD_BYTES;
use aegis::record::{
    MAX_CONTEXT_BYTES, MAX_MESSAGE_BYTES, RECORD_BYTES, RecordError, RecordOpener, RecordSealer,
};
use std::alloc::Allocator;

/// Seals three messages one at a time: the bytes are the stream of the three.
pub fn seal_three<A: Allocator + Copy>(
    alloc: A,
    key: &[u8; 32],
    prefix: &[u8; 24],
    context: &[u8],
    first: &[u8],
    second: &[u8],
    third: &[u8],
) -> Result<Vec<u8, A>, RecordError>
    requires context_within { length context.now ≤ MAX_CONTEXT_BYTES }
    requires first_within { length first.now ≤ MAX_MESSAGE_BYTES }
    requires second_within { length second.now ≤ MAX_MESSAGE_BYTES }
    requires third_within { length third.now ≤ MAX_MESSAGE_BYTES }
    ensures { IfOk result (λ stream. AreRecords Second key.now prefix.now context.now
        (first.now ∷ second.now ∷ third.now ∷ []) stream.items) }
{
    let mut stream = Vec::new(alloc);
    let mut sealer = RecordSealer::new(key, prefix, context, &mut stream)?;
    sealer.seal_next(first, &mut stream)?;
    sealer.seal_next(second, &mut stream)?;
    sealer.seal_last(third, &mut stream)?;
    Ok(stream)
}

/// Opens a stream that should have two records: the messages of the stream that the header and the records are.
pub fn open_two<A: Allocator + Copy>(
    alloc: A,
    key: &[u8; 32],
    prefix: &[u8; 24],
    context: &[u8],
    header: &[u8; 4],
    records: &[u8],
) -> Result<Option<(Vec<u8, A>, Vec<u8, A>)>, RecordError>
    requires context_within { length context.now ≤ MAX_CONTEXT_BYTES }
    requires records_within { 4 + length records.now ≤ MAX_AEAD_BYTES }
    ensures { IfOk result (λ found. IfSome found (λ pair.
        AreRecordsOfSomeVersion key.now prefix.now context.now
        (pair.0.items ∷ pair.1.items ∷ []) (header.now ++ records.now))) }
{
    let mut opener = RecordOpener::new(key, prefix, context, header)?;
    let first = opener.open_next(alloc, records)?;
    if first.is_last {
        return Ok(None);
    }
    let second = opener.open_next(alloc, first.rest)?;
    if second.is_last && second.rest.is_empty() {
        Ok(Some((first.message, second.message)))
    } else {
        Ok(None)
    }
}

/// Seals a last record and opens it again, in front of any bytes. What a sealer wrote opens, unless memory runs out.
pub fn sealed_and_opened<A: Allocator + Copy>(
    alloc: A,
    key: &[u8; 32],
    prefix: &[u8; 24],
    context: &[u8],
    message: &[u8],
    after: &[u8],
) -> Result<Vec<u8, A>, RecordError>
    requires context_within { length context.now ≤ MAX_CONTEXT_BYTES }
    requires message_within { length message.now ≤ MAX_MESSAGE_BYTES }
    requires after_within { length after.now ≤ MAX_MESSAGE_BYTES }
    ensures opened { IfOk result (λ opened. opened.items ≡ message.now) }
    ensures refused { IfErr result (λ e. e ≡ RecordError.OutOfMemory) }
{
    let mut header = Vec::new(alloc);
    let sealer = RecordSealer::new(key, prefix, context, &mut header)?;
    let position = sealer.position();
    let mut records = Vec::new(alloc);
    sealer.seal_last(message, &mut records)?;
    records.extend_from_slice(after)?;
    let mut opener = RecordOpener::begin_at(key, prefix, context, position);
    let opened = opener.open_next(alloc, &records)?;
    Ok(opened.message)
}

/// A stream that grows by a record for each message, in a loop of its user: what its calls say holds of any list of
/// messages.
#[derive(Drop)]
pub struct GrowingStream<'a, A: Allocator> {
    pub sealer: RecordSealer<'a>,
    pub bytes: Vec<u8, A>,
}

impl<'a, A: Allocator + Copy> GrowingStream<'a, A> {
    /// Begins the stream: it has no message yet.
    pub fn new(
        alloc: A,
        key: &'a [u8; 32],
        prefix: &'a [u8; 24],
        context: &'a [u8],
    ) -> Result<Self, RecordError>
        requires { length context.now ≤ MAX_CONTEXT_BYTES }
        ensures begun { IfOk result (λ stream. Begun stream.sealer [] stream.bytes.items) }
        ensures under { IfOk result
            (λ stream. IsUnder key.now prefix.now context.now stream.sealer) }
        ensures taken { IfOk result (λ stream. start_of stream.sealer ≡ HEADER_BYTES) }
    {
        let mut bytes = Vec::new(alloc);
        let sealer = RecordSealer::new(key, prefix, context, &mut bytes)?;
        Ok(GrowingStream { sealer, bytes })
    }

    /// Appends a message. On an error the stream is as it was.
    pub fn push(&mut self, message: &[u8]) -> Result<(), RecordError>
        requires within { length message.now ≤ MAX_MESSAGE_BYTES }
        requires fits { start_of self.old.sealer + (RECORD_BYTES + length message.now)
            ≤ MAX_AEAD_BYTES }
        ensures pushed { OnOk result ((ms : List (List ℕ))
            → Begun self.old.sealer ms self.old.bytes.items
            → Begun self.new.sealer (ms ++ message.now ∷ []) self.new.bytes.items) }
        ensures under { OnOk result ((key prefix context : List ℕ)
            → IsUnder key prefix context self.old.sealer
            → IsUnder key prefix context self.new.sealer) }
        ensures taken { OnOk result
            (start_of self.new.sealer
            ≡ start_of self.old.sealer + (RECORD_BYTES + length message.now)) }
        ensures kept { OnErr result (self.new.sealer ≡ self.old.sealer) }
    {
        self.sealer.seal_next(message, &mut self.bytes)
    }

    /// Appends the last message: the bytes are the stream of the list.
    pub fn finish(self, message: &[u8]) -> Result<Vec<u8, A>, RecordError>
        requires within { length message.now ≤ MAX_MESSAGE_BYTES }
        requires fits { start_of self.sealer + (RECORD_BYTES + length message.now)
            ≤ MAX_AEAD_BYTES }
        ensures { IfOk result (λ stream. (ms : List (List ℕ))
            → Begun self.entry.sealer ms self.entry.bytes.items
            → AreRecords Second self.entry.sealer.key self.entry.sealer.prefix
            self.entry.sealer.context (ms ++ message.now ∷ []) stream.items) }
    {
        let GrowingStream { sealer, mut bytes } = self;
        sealer.seal_last(message, &mut bytes)?;
        Ok(bytes)
    }
}
