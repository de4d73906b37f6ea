//! A stored value: a stream of one record, which is replaced under a new prefix.

ghost use Rattle.std.specs.Prelude.{◌≡◌, ◌≢◌, ◌≤◌, ◌∷◌, [], IfOk, OnErr, OnOk, length};
ghost use Rattle.aegis.specs.RecordStream.{AreRecords};
ghost use Rattle.aegis.specs.declared.record.version.Version.TheVariants.{Second};

use aegis::record::{MAX_CONTEXT_BYTES, MAX_MESSAGE_BYTES, RecordError, RecordSealer};
use std::alloc::Allocator;

/// A value, as the store keeps it.
#[derive(Drop)]
pub struct StoredRecord<A: Allocator> {
    pub prefix: [u8; 24],
    pub stream: Vec<u8, A>,
}

/// Seals a value under a prefix that is used for nothing else.
pub fn store<A: Allocator + Copy>(
    alloc: A,
    key: &[u8; 32],
    prefix: &[u8; 24],
    name: &[u8],
    value: &[u8],
) -> Result<StoredRecord<A>, RecordError>
    requires name_within { length name.now ≤ MAX_CONTEXT_BYTES }
    requires value_within { length value.now ≤ MAX_MESSAGE_BYTES }
    ensures prefix { IfOk result (λ stored. stored.prefix ≡ prefix.now) }
    ensures stored { IfOk result (λ stored. AreRecords Second key.now prefix.now name.now
        (value.now ∷ []) stored.stream.items) }
{
    let mut stream = Vec::new(alloc);
    let sealer = RecordSealer::new(key, prefix, name, &mut stream)?;
    sealer.seal_last(value, &mut stream)?;
    Ok(StoredRecord {
        prefix: *prefix,
        stream,
    })
}

/// Replaces a value: the new one is sealed under another prefix. On an error the old one stays.
pub fn replace<A: Allocator + Copy>(
    alloc: A,
    key: &[u8; 32],
    stored: &mut StoredRecord<A>,
    prefix: &[u8; 24],
    name: &[u8],
    value: &[u8],
) -> Result<(), RecordError>
    requires prefixes { stored.old.prefix ≢ prefix.now }
    requires name_within { length name.now ≤ MAX_CONTEXT_BYTES }
    requires value_within { length value.now ≤ MAX_MESSAGE_BYTES }
    ensures prefix { OnOk result (stored.new.prefix ≡ prefix.now) }
    ensures stored { OnOk result (AreRecords Second key.now prefix.now name.now
        (value.now ∷ []) stored.new.stream.items) }
    ensures kept { OnErr result (stored.new ≡ stored.old) }
{
    *stored = store(alloc, key, prefix, name, value)?;
    Ok(())
}
