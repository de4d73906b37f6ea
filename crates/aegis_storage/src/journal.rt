//! The bytes of a journal: a beginning of the caller's, a nonce, the writes, each as its place, its length and its
//! bytes, and their MAC. Nothing is encrypted.

ghost use Rattle.std.specs.Prelude.{◌≡◌, ◌≢◌, ◌+◌, ◌<◌, ◌≤◌, ◌^◌, ◌⊎◌, ◌++◌, [], IfErr, IfNone, IfOk, IfSome, IsTrue, List, OnOk, length, ℕ};
ghost use Rattle.std.specs.Int.{to_le_bytes, w64};
ghost use Rattle.aegis_base.specs.Context.{Stands};
ghost use Rattle.aegis_base.specs.Variant.{Aegis128L};
ghost use Rattle.aegis_storage.specs.Disk.{Writes, writes_of};
ghost use Rattle.aegis_storage.specs.Journal.{AreWithinStorage, IsFramed, IsJournal, IsOutOfMemory, IsTooLong, authenticated, entries, entry, framed};
ghost use Rattle.aegis_storage.specs.Private.{IsContent};

use crate::pending::PendingWrite;
use crate::store::MAX_STORAGE_BYTES;
use aegis::aegis128l::{Aegis128LMac, Key, Nonce};
use aegis::record::MAX_CONTEXT_BYTES;
use std::alloc::{AllocError, Allocator};
use std::io;
use std::io::ErrorKind;

/// How many bytes the beginning has, with which a journal begins. It is the caller's, and in plaintext, so that a
/// journal can be told from that of another storage also if it is torn.
pub const BEGINNING_BYTES: usize = 512;

/// How many bytes the nonce has, which comes next.
pub const NONCE_BYTES: usize = 16;

/// How many bytes a journal has at most, 2^60.
pub const MAX_JOURNAL_BYTES: usize = 1_152_921_504_606_846_976;

// How many bytes the MAC has, with which a journal ends.
const MAC_BYTES: usize = 32;

// How many bytes a place or a length has.
const NUMBER_BYTES: usize = 8;

// Returns the MAC that has taken in the context behind its length, and the writes of a journal.
fn mac_of(key: &Key, nonce: &Nonce, context: &[u8], content: &[u8]) -> Aegis128LMac<32>
    requires context { length context.now ≤ MAX_CONTEXT_BYTES }
    requires content { length content.now ≤ MAX_JOURNAL_BYTES }
    ensures { Stands Aegis128L result key.now nonce.now []
        (authenticated context.now content.now) }
{
    let mut mac = Aegis128LMac::new_with_nonce(key, nonce);
    mac.update(&(context.len() as u64).to_le_bytes());
    mac.update(context);
    mac.update(content);
    mac
}

// Appends the writes.
fn append_writes<A: Allocator>(
    journal: &mut Vec<u8, A>,
    writes: &[PendingWrite<A>],
) -> Result<(), AllocError>
    ensures { OnOk result
        (journal.new.items ≡ journal.old.items ++ entries (writes_of writes.now)) }
{
    for write in writes {
        journal.extend_from_slice(&write.place.to_le_bytes())?;
        journal.extend_from_slice(&(write.bytes.len() as u64).to_le_bytes())?;
        journal.extend_from_slice(&write.bytes)?;
    }
    Ok(())
}

/// Returns the journal of the writes. The error is `InvalidInput` if it would be too long, or `OutOfMemory`.
pub fn journal_bytes<A: Allocator + Copy>(
    alloc: A,
    key: &Key,
    beginning: &[u8; BEGINNING_BYTES],
    nonce: &Nonce,
    context: &[u8],
    writes: &[PendingWrite<A>],
) -> io::Result<Vec<u8, A>>
    requires { length context.now ≤ MAX_CONTEXT_BYTES }
    ensures journal { IfOk result (λ made. made.items
        ≡ framed key.now beginning.now nonce.now context.now (entries (writes_of writes.now))) }
    ensures whole { IfOk result
        (λ made. IsJournal key.now context.now (writes_of writes.now) made.items) }
    ensures size { IfOk result (λ made. length made.items ≤ MAX_JOURNAL_BYTES) }
    ensures cause { IfErr result (λ e. IsOutOfMemory e ⊎ IsTooLong (writes_of writes.now) e) }
{
    let mut journal = Vec::new(alloc);
    journal.extend_from_slice(beginning)?;
    journal.extend_from_slice(nonce)?;
    append_writes(&mut journal, writes)?;
    if journal.len() > MAX_JOURNAL_BYTES - MAC_BYTES {
        return Err(io::Error::from(ErrorKind::InvalidInput));
    }
    let (_start, content) = journal.split_at(BEGINNING_BYTES + NONCE_BYTES);
    let mac = mac_of(key, nonce, context, content).finalize();
    journal.extend_from_slice(&mac)?;
    Ok(journal)
}

/// Returns the part of a whole journal that has its writes.
pub fn writes_part(journal: &[u8]) -> &[u8]
    requires { 560 ≤ length journal.now }
    ensures { (key context content : List ℕ) → IsFramed key context content journal.now
        → result.now ≡ content }
{
    let (_beginning, rest) = journal.split_at(BEGINNING_BYTES);
    let (_nonce, rest) = rest.split_at(NONCE_BYTES);
    let (content, _mac) = rest.split_at(rest.len() - MAC_BYTES);
    content
}

// Returns the content of a journal, or `None` if the bytes are none under this key and context.
fn content_of<'a>(key: &Key, context: &[u8], journal: &'a [u8]) -> Option<&'a [u8]>
    requires { length context.now ≤ MAX_CONTEXT_BYTES }
    ensures some { IfSome result
        (λ content. IsFramed key.now context.now content.now journal.now) }
    ensures none { IfNone result ((content : List ℕ)
        → IsFramed key.now context.now content journal.now → ⊥) }
{
    if journal.len() < BEGINNING_BYTES + NONCE_BYTES + MAC_BYTES
        || journal.len() > MAX_JOURNAL_BYTES
    {
        return None;
    }
    let (_beginning, rest) = journal.split_at(BEGINNING_BYTES);
    let (head, rest) = rest.split_at(NONCE_BYTES);
    let (content, tail) = rest.split_at(rest.len() - MAC_BYTES);
    let mut nonce = [0; NONCE_BYTES];
    nonce.copy_from_slice(head);
    let mut mac = [0; MAC_BYTES];
    mac.copy_from_slice(tail);
    match mac_of(key, &nonce, context, content).verify(&mac) {
        Ok(()) => Some(content),
        Err(_) => None,
    }
}

// Returns the number with which the bytes begin, least byte first, and the bytes after it.
fn number_and_rest(bytes: &[u8]) -> Option<(u64, &[u8])>
    ensures some { IfSome result
        (λ found. bytes.now ≡ to_le_bytes w64 found.0 ++ found.1.now) }
    ensures none { IfNone result (length bytes.now < 8) }
{
    if bytes.len() < NUMBER_BYTES {
        return None;
    }
    let (head, rest) = bytes.split_at(NUMBER_BYTES);
    let mut number = [0; NUMBER_BYTES];
    number.copy_from_slice(head);
    Some((u64::from_le_bytes(number), rest))
}

/// Returns the place and the bytes of the write with which the content of a journal begins, and what comes after it, or
/// `None` if it begins with none.
pub fn first_write(content: &[u8]) -> Option<(u64, &[u8], &[u8])>
    ensures within { IfSome result (λ first.
        first.0 + length first.1.now ≤ MAX_STORAGE_BYTES) }
    ensures some { IfSome result (λ first.
        content.now ≡ entry (first.0, first.1.now) ++ first.2.now) }
    ensures none { IfNone result ((write : ℕ × List ℕ) (rest : List ℕ)
        → write.0 + length write.1 ≤ MAX_STORAGE_BYTES → content.now ≢ entry write ++ rest) }
{
    let Some((place, rest)) = number_and_rest(content) else {
        return None;
    };
    let Some((count, rest)) = number_and_rest(rest) else {
        return None;
    };
    if count > rest.len() as u64 || place > MAX_STORAGE_BYTES - count {
        return None;
    }
    let (bytes, rest) = rest.split_at(count as usize);
    Some((place, bytes, rest))
}

// Returns whether the content of a journal is that of some writes.
fn are_writes(content: &[u8]) -> bool
    ensures some { IsTrue result
        → (writes : Writes) × AreWithinStorage writes × (content.now ≡ entries writes) }
    ensures none { (writes : Writes) → AreWithinStorage writes → content.now ≡ entries writes
        → IsTrue result }
{
    let mut rest = content;
    'writes: while !rest.is_empty() {
        let Some((_place, _bytes, after)) = first_write(rest) else {
            return false;
        };
        rest = after;
    }
    true
}

/// Returns the content of a journal, which is that of its writes, or `None` if the bytes are no whole journal under
/// this key and context. [`first_write`] returns the writes in it.
pub fn journaled_content<'a>(key: &Key, context: &[u8], journal: &'a [u8]) -> Option<&'a [u8]>
    requires { length context.now ≤ MAX_CONTEXT_BYTES }
    ensures some { IfSome result
        (λ content. IsContent key.now context.now journal.now content.now) }
    ensures none { IfNone result ((writes : Writes)
        → IsJournal key.now context.now writes journal.now → ⊥) }
{
    let Some(content) = content_of(key, context, journal) else {
        return None;
    };
    if are_writes(content) {
        Some(content)
    } else {
        None
    }
}
