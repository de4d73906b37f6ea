//! A value of a key-value store: sealed into a vector of its own, under the name that it is stored by.

ghost use Rattle.std.specs.Prelude.{◌≡◌, ◌≤◌, IfOk, length};
ghost use Rattle.aegis_base.specs.Variant.{Aegis128X4};
ghost use Rattle.aegis_base.specs.Message.{Opens, seal};

use aegis::MAX_AEAD_BYTES;
use aegis::aegis128x4::{Aegis128X4, Error, Key, Nonce, Tag};
use std::alloc::Allocator;

/// A value, as the store keeps it.
#[derive(Drop)]
pub struct StoredValue<A: Allocator> {
    pub nonce: Nonce,
    pub ciphertext: Vec<u8, A>,
    pub tag: Tag<16>,
}

/// Seals a value. The only error is [`Error::OutOfMemory`].
pub fn put<A: Allocator>(
    alloc: A,
    key: &Key,
    nonce: &Nonce,
    name: &[u8],
    value: &[u8],
) -> Result<StoredValue<A>, Error>
    requires name_within { length name.now ≤ MAX_AEAD_BYTES }
    requires value_within { length value.now ≤ MAX_AEAD_BYTES }
    ensures { IfOk result (λ stored. (stored.ciphertext.items, stored.tag)
        ≡ seal Aegis128X4 16 key.now nonce.now name.now value.now) }
{
    let (ciphertext, tag) = Aegis128X4::new(key, nonce).encrypt(alloc, value, name)?;
    Ok(StoredValue {
        nonce: *nonce,
        ciphertext,
        tag,
    })
}

/// Opens a value: the one whose sealing under this key, nonce and name gives the stored bytes.
pub fn get<A: Allocator>(
    alloc: A,
    key: &Key,
    name: &[u8],
    stored: &StoredValue<A>,
) -> Result<Vec<u8, A>, Error>
    requires name_within { length name.now ≤ MAX_AEAD_BYTES }
    requires value_within { length stored.now.ciphertext.items ≤ MAX_AEAD_BYTES }
    ensures { IfOk result
        (λ value. Opens Aegis128X4 16 key.now stored.now.nonce name.now
        stored.now.ciphertext.items stored.now.tag value.items) }
{
    Aegis128X4::new(key, &stored.nonce).decrypt(alloc, &stored.ciphertext, &stored.tag, name)
}
