//! A record stream: records are sealed and opened as the definition of streams says.

ghost use Rattle.std.specs.Prelude.{◌≡◌, ◌∷◌, ◌++◌, [], IfOk, OnOk, OnSome};
ghost use Rattle.aegis.specs.RecordResults.{message_in, progress_at, record_of};
ghost use Rattle.aegis.specs.RecordStream.{AreRecords};
ghost use Rattle.aegis.specs.declared.record.version.Version.TheVariants.{Second};

use aegis::record::RecordPosition;
use aegis_c_calls::record::state::RecordState;
use aegis_c_calls::record::{begin, begin_open, begin_open_at, open, seal, seal_last};
use aegis_c_calls::refusal::Refusal;

/// Seals a stream of two messages.
pub fn two_records_sealed(
    st: &mut RecordState,
    k: &[u8; 32],
    prefix: &[u8; 24],
    context: &[u8],
    header: &mut [u8; 4],
    first: &mut [u8],
    second: &mut [u8],
) -> Result<(), Refusal>
    ensures { OnOk result (AreRecords Second k.now prefix.now context.now
        (message_in first.old ∷ message_in second.old ∷ [])
        ((header.new ++ first.new) ++ second.new)) }
{
    begin(st, k, prefix, context, header)?;
    seal(st, context, first)?;
    seal_last(st, context, second)?;
    Ok(())
}

/// Opens a stream of two records, or returns `None` if they are not its first and its last.
pub fn two_records_opened(
    st: &mut RecordState,
    k: &[u8; 32],
    prefix: &[u8; 24],
    context: &[u8],
    header: &[u8; 4],
    first: &mut [u8],
    second: &mut [u8],
) -> Result<Option<()>, Refusal>
    ensures { IfOk result (λ opened. OnSome opened (AreRecords Second k.now prefix.now context.now
        (message_in first.new ∷ message_in second.new ∷ [])
        ((header.now ++ first.old) ++ second.old))) }
{
    begin_open(st, k, prefix, context, header)?;
    let mut is_last = 0;
    open(st, context, first, &mut is_last)?;
    if is_last == 1 {
        return Ok(None);
    }
    open(st, context, second, &mut is_last)?;
    if is_last == 0 {
        return Ok(None);
    }
    Ok(Some(()))
}

/// Opens the record at a position alone. It is the record of the message there, whatever comes before it.
pub fn opened_at(
    st: &mut RecordState,
    k: &[u8; 32],
    prefix: &[u8; 24],
    context: &[u8],
    position: RecordPosition,
    bytes: &mut [u8],
) -> Result<u8, Refusal>
    requires { position.version ≡ Second }
    ensures { IfOk result (λ flag. bytes.old
        ≡ record_of (progress_at k.now prefix.now context.now position) flag
        (message_in bytes.new)) }
{
    begin_open_at(st, k, prefix, context, position.number, position.before)?;
    let mut is_last = 0;
    open(st, context, bytes, &mut is_last)?;
    Ok(is_last)
}

/// Seals two messages and opens their records in the same order. The messages are then what they were.
pub fn two_records_sealed_and_opened(
    sealer: &mut RecordState,
    opener: &mut RecordState,
    k: &[u8; 32],
    prefix: &[u8; 24],
    context: &[u8],
    first: &mut [u8],
    second: &mut [u8],
) -> Result<(), Refusal>
    ensures first { OnOk result (message_in first.new ≡ message_in first.old) }
    ensures second { OnOk result (message_in second.new ≡ message_in second.old) }
{
    let mut header = [0; 4];
    begin(sealer, k, prefix, context, &mut header)?;
    begin_open(opener, k, prefix, context, &header)?;
    let mut is_last = 0;
    seal(sealer, context, first)?;
    open(opener, context, first, &mut is_last)?;
    seal_last(sealer, context, second)?;
    open(opener, context, second, &mut is_last)?;
    Ok(())
}

/// Seals with a stream after its last record, which is an error.
pub fn refused_after_the_last_record(
    st: &mut RecordState,
    context: &[u8],
    last: &mut [u8],
    bytes: &mut [u8],
) -> Result<(), Refusal>
    ensures kept { bytes.new ≡ bytes.old }
    ensures refused { OnOk result ⊥ }
{
    seal_last(st, context, last)?;
    seal(st, context, bytes)?;
    Ok(())
}

/// Opens with a stream that is sealed, which is an error.
pub fn refused_in_the_other_direction(
    st: &mut RecordState,
    context: &[u8],
    message: &mut [u8],
    bytes: &mut [u8],
) -> Result<(), Refusal>
    ensures kept { bytes.new ≡ bytes.old }
    ensures refused { OnOk result ⊥ }
{
    let mut is_last = 0;
    seal(st, context, message)?;
    open(st, context, bytes, &mut is_last)?;
    Ok(())
}
