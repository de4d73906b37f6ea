//! Sealing a stream's messages again, under another prefix.

ghost use Rattle.std.specs.Prelude.{◌≡◌, ◌≢◌, ◌≤◌, ◌⊎◌, IfErr, IfOk, List, length, ℕ};
ghost use Rattle.aegis_base.specs.declared.error.TheConstants.{MAX_AEAD_BYTES};
ghost use Rattle.aegis.specs.RecordResults.{IsRefused, MigratesTo};
ghost use Rattle.aegis.specs.RecordStream.{AreRecords, IsFault};
ghost use Rattle.aegis.specs.declared.record.version.Version.{Version};
ghost use Rattle.aegis.specs.declared.record.version.Version.TheVariants.{Second};

use crate::aegis256::Key;
use crate::record::error::RecordError;
use crate::record::open::version_of;
use crate::record::position::RecordPosition;
use crate::record::record_cipher::MAX_CONTEXT_BYTES;
use crate::record::record_opener::RecordOpener;
use crate::record::record_sealer::RecordSealer;
use std::alloc::Allocator;

// Opens a stream's records one after the other, and seals each message again.
fn reseal<A: Allocator + Copy>(
    alloc: A,
    key: &Key,
    old_prefix: &[u8; 24],
    new_prefix: &[u8; 24],
    context: &[u8],
    bytes: &[u8],
) -> Result<Vec<u8, A>, RecordError>
    requires context_within { length context.now ≤ MAX_CONTEXT_BYTES }
    requires bytes_within { length bytes.now ≤ MAX_AEAD_BYTES }
    ensures migrated { IfOk result (λ stream. (v : Version) × (ms : List (List ℕ))
        × AreRecords v key.now old_prefix.now context.now ms bytes.now
        × AreRecords Second key.now new_prefix.now context.now ms stream.items) }
    ensures refused { IfErr result (λ e. (e ≡ RecordError.OutOfMemory)
        ⊎ IsFault key.now old_prefix.now context.now bytes.now e) }
    ensures length { IfOk result (λ stream. length stream.items ≡ length bytes.now) }
{
    let Some((version, mut rest)) = version_of(bytes) else {
        return Err(RecordError::Header);
    };
    let first = RecordPosition {
        version,
        number: 0,
        before: 0,
    };
    let mut opener = RecordOpener::begin_at(key, old_prefix, context, first);
    let mut stream = Vec::with_capacity(alloc, bytes.len())?;
    let mut sealer = RecordSealer::new(key, new_prefix, context, &mut stream)?;
    'records: loop {
        let opened = opener.open_next(alloc, rest)?;
        if opened.is_last {
            if !opened.rest.is_empty() {
                return Err(RecordError::Trailing);
            }
            sealer.seal_last(&opened.message, &mut stream)?;
            return Ok(stream);
        }
        sealer.seal_next(&opened.message, &mut stream)?;
        rest = opened.rest;
    }
}

/// Opens a stream of either version, and seals its messages again in version 2 under another prefix of the same key.
///
/// The two prefixes must differ, since a stream uses all nonces that begin with its prefix. The context has at most
/// [`MAX_CONTEXT_BYTES`], and the stream at most `MAX_AEAD_BYTES`, so that the new one, which is as long, can be
/// sealed.
///
/// The error is that of [`open_records`](crate::record::open_records) under the old prefix, or
/// [`RecordError::OutOfMemory`]. One message at a time is in memory beside the new stream.
pub fn migrate<A: Allocator + Copy>(
    alloc: A,
    key: &Key,
    old_prefix: &[u8; 24],
    new_prefix: &[u8; 24],
    context: &[u8],
    bytes: &[u8],
) -> Result<Vec<u8, A>, RecordError>
    requires prefixes { old_prefix.now ≢ new_prefix.now }
    requires context_within { length context.now ≤ MAX_CONTEXT_BYTES }
    requires bytes_within { length bytes.now ≤ MAX_AEAD_BYTES }
    ensures migrated { IfOk result (λ stream. (v : Version) × (ms : List (List ℕ))
        × AreRecords v key.now old_prefix.now context.now ms bytes.now
        × AreRecords Second key.now new_prefix.now context.now ms stream.items) }
    ensures accepted { (v : Version) (ms : List (List ℕ))
        → AreRecords v key.now old_prefix.now context.now ms bytes.now
        → MigratesTo key.now new_prefix.now context.now ms result }
    ensures refused { IfErr result (λ e. (e ≡ RecordError.OutOfMemory)
        ⊎ IsFault key.now old_prefix.now context.now bytes.now e) }
    ensures faults { (e : RecordError) → IsFault key.now old_prefix.now context.now bytes.now e
        → IsRefused e result }
    ensures length { IfOk result (λ stream. length stream.items ≡ length bytes.now) }
{
    reseal(alloc, key, old_prefix, new_prefix, context, bytes)
}
