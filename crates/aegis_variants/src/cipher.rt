//! A cipher of any variant, with its key and nonce.

ghost use Rattle.std.specs.Prelude.{◌≡◌, ◌≤◌, ◌⊎◌, ℕ, Err, IfErr, IfOk, IsOk, List, OnErr, OnOk, length, replicate};
ghost use Rattle.aegis_base.specs.Lane.{IsTagLength};
ghost use Rattle.aegis_base.specs.Chunks.{joined};
ghost use Rattle.aegis_base.specs.Message.{Opens, xor_keystream};
ghost use Rattle.aegis_base.specs.Variant.{Family128, Family256};
ghost use Rattle.aegis_variants.specs.Cipher.{IsCipherOf, IsKeys, key_of, mac_by, nonce_of, sealed_by, keystream_of, variant_of, standard_of};

use crate::variant::AnyVariant;
use aegis::{ERASED, Error, MAX_AEAD_BYTES};
use aegis_base::LaneState;
use std::alloc::Allocator;
use std::fmt;

/// A key and a nonce, of `N` bytes each.
#[derive(Clone, Copy)]
pub struct Keys<const N: usize> {
    pub key: [u8; N],
    pub nonce: [u8; N],
}

impl<const N: usize> Keys<N> {
    /// Creates the keys from slices. Returns `None` if the key or the nonce does not have `N` bytes.
    pub fn from_slices(key: &[u8], nonce: &[u8]) -> Option<Keys<N>>
        ensures { IsKeys N key.now nonce.now result }
    {
        Some(Keys {
            key: <[u8; N]>::try_from(key).ok()?,
            nonce: <[u8; N]>::try_from(nonce).ok()?,
        })
    }
}

/// A cipher of any variant: a key and a nonce of the variant's length.
#[derive(Clone, Copy)]
pub enum AnyCipher {
    Aegis128L(Keys<16>),
    Aegis128X2(Keys<16>),
    Aegis128X4(Keys<16>),
    Aegis256(Keys<32>),
    Aegis256X2(Keys<32>),
    Aegis256X4(Keys<32>),
}

// A key is never printed.
impl<const N: usize> fmt::Debug for Keys<N> {
    fn fmt<W: fmt::Write>(&self, f: &mut fmt::Formatter<W>) -> fmt::Result {
        f.write_str("Keys { .. }")
    }
}

impl fmt::Debug for AnyCipher {
    fn fmt<W: fmt::Write>(&self, f: &mut fmt::Formatter<W>) -> fmt::Result {
        f.write_str(self.variant().name())?;
        f.write_str(" { .. }")
    }
}

/// Evaluates a call on a value of one of six types of the crate `aegis`, one for each variant. The value is made from
/// the keys of a cipher.
#[macro_export]
macro_rules! with_type {
    (
        $a:ident, $b:ident, $c:ident, $d:ident, $e:ident, $f:ident,
        $tag_bytes:tt, $make:ident, $of:expr, $made:ident => $call:expr
    ) => {
        match $of {
            $crate::AnyCipher::Aegis128L(keys) => {
                let $made = $crate::types::$a::<$tag_bytes>::$make(&keys.key, &keys.nonce);
                $call
            }
            $crate::AnyCipher::Aegis128X2(keys) => {
                let $made = $crate::types::$b::<$tag_bytes>::$make(&keys.key, &keys.nonce);
                $call
            }
            $crate::AnyCipher::Aegis128X4(keys) => {
                let $made = $crate::types::$c::<$tag_bytes>::$make(&keys.key, &keys.nonce);
                $call
            }
            $crate::AnyCipher::Aegis256(keys) => {
                let $made = $crate::types::$d::<$tag_bytes>::$make(&keys.key, &keys.nonce);
                $call
            }
            $crate::AnyCipher::Aegis256X2(keys) => {
                let $made = $crate::types::$e::<$tag_bytes>::$make(&keys.key, &keys.nonce);
                $call
            }
            $crate::AnyCipher::Aegis256X4(keys) => {
                let $made = $crate::types::$f::<$tag_bytes>::$make(&keys.key, &keys.nonce);
                $call
            }
        }
    };
}

/// Evaluates a call on the cipher of the crate `aegis` that has these keys, with tags of so many bytes.
#[macro_export]
macro_rules! with_cipher {
    ($of:expr, $tag_bytes:tt, $cipher:ident => $call:expr) => {
        $crate::with_type!(
            Aegis128L, Aegis128X2, Aegis128X4, Aegis256, Aegis256X2, Aegis256X4,
            $tag_bytes, new, $of, $cipher => $call
        )
    };
}

/// Evaluates a call on a MAC of the crate `aegis` under these keys, of so many bytes.
#[macro_export]
macro_rules! with_mac {
    ($of:expr, $tag_bytes:tt, $mac:ident => $call:expr) => {
        $crate::with_type!(
            Aegis128LMac, Aegis128X2Mac, Aegis128X4Mac, Aegis256Mac, Aegis256X2Mac, Aegis256X4Mac,
            $tag_bytes, new_with_nonce, $of, $mac => $call
        )
    };
}

// Opens chunks into a destination that is as long as all of them together.
fn open_whole<S: LaneState, U, const KEY_BYTES: usize, const TAG_BYTES: usize>(
    cipher: &aegis::Cipher<S, U, KEY_BYTES, TAG_BYTES>,
    associated_data: &[u8],
    chunks: &[&[u8]],
    tag: &[u8; TAG_BYTES],
    message: &mut [u8],
) -> Result<usize, Error>
    requires associated_data { length associated_data.now ≤ MAX_AEAD_BYTES }
    requires ciphertext { length (joined chunks.now) ≤ MAX_AEAD_BYTES }
    requires lengths { length message.old ≡ length (joined chunks.now) }
    ensures opened { OnOk result
        (Opens S.VARIANT TAG_BYTES cipher.now.key cipher.now.nonce associated_data.now
        (joined chunks.now) tag.now message.new) }
    ensures accepted { (m : List ℕ)
        → Opens S.VARIANT TAG_BYTES cipher.now.key cipher.now.nonce associated_data.now
        (joined chunks.now) tag.now m
        → IsOk result }
    ensures only { (m : List ℕ)
        → Opens S.VARIANT TAG_BYTES cipher.now.key cipher.now.nonce associated_data.now
        (joined chunks.now) tag.now m
        → message.new ≡ m }
    ensures erased { OnErr result (message.new ≡ replicate (length message.old) 0) }
    ensures error { IfErr result (λ e. e ≡ Error.InvalidTag) }
{
    cipher.open_chunks_len(associated_data, chunks, tag, message)
}

impl AnyCipher {
    /// Creates a cipher from slices. Returns `None` if the key or the nonce does not have the variant's length.
    pub fn from_slices(variant: AnyVariant, key: &[u8], nonce: &[u8]) -> Option<AnyCipher>
        ensures { IsCipherOf variant key.now nonce.now result }
    {
        Some(match variant {
            AnyVariant::Aegis128L => AnyCipher::Aegis128L(Keys::from_slices(key, nonce)?),
            AnyVariant::Aegis128X2 => AnyCipher::Aegis128X2(Keys::from_slices(key, nonce)?),
            AnyVariant::Aegis128X4 => AnyCipher::Aegis128X4(Keys::from_slices(key, nonce)?),
            AnyVariant::Aegis256 => AnyCipher::Aegis256(Keys::from_slices(key, nonce)?),
            AnyVariant::Aegis256X2 => AnyCipher::Aegis256X2(Keys::from_slices(key, nonce)?),
            AnyVariant::Aegis256X4 => AnyCipher::Aegis256X4(Keys::from_slices(key, nonce)?),
        })
    }

    /// Creates the cipher of a variant, with the keys that have its length: 16 bytes in the family 128, and 32 in the
    /// family 256.
    pub fn with_keys(variant: AnyVariant, short: Keys<16>, long: Keys<32>) -> AnyCipher
        ensures variant { variant_of result ≡ variant }
        ensures short { (standard_of variant).family ≡ Family128
            → (key_of result ≡ short.key) × (nonce_of result ≡ short.nonce) }
        ensures long { (standard_of variant).family ≡ Family256
            → (key_of result ≡ long.key) × (nonce_of result ≡ long.nonce) }
    {
        match variant {
            AnyVariant::Aegis128L => AnyCipher::Aegis128L(short),
            AnyVariant::Aegis128X2 => AnyCipher::Aegis128X2(short),
            AnyVariant::Aegis128X4 => AnyCipher::Aegis128X4(short),
            AnyVariant::Aegis256 => AnyCipher::Aegis256(long),
            AnyVariant::Aegis256X2 => AnyCipher::Aegis256X2(long),
            AnyVariant::Aegis256X4 => AnyCipher::Aegis256X4(long),
        }
    }

    /// Returns the variant.
    pub fn variant(&self) -> AnyVariant
        ensures { result ≡ variant_of self.now }
    {
        match self {
            AnyCipher::Aegis128L(_) => AnyVariant::Aegis128L,
            AnyCipher::Aegis128X2(_) => AnyVariant::Aegis128X2,
            AnyCipher::Aegis128X4(_) => AnyVariant::Aegis128X4,
            AnyCipher::Aegis256(_) => AnyVariant::Aegis256,
            AnyCipher::Aegis256X2(_) => AnyVariant::Aegis256X2,
            AnyCipher::Aegis256X4(_) => AnyVariant::Aegis256X4,
        }
    }

    /// Seals a message in place: `mc` is the message before the call and the ciphertext after it. Returns the tag,
    /// which covers the associated data `ad` too.
    pub fn encrypt_in_place<const TAG_BYTES: usize>(
        &self,
        mc: &mut [u8],
        ad: &[u8],
    ) -> [u8; TAG_BYTES]
        requires tag { IsTagLength TAG_BYTES }
        requires associated_data { length ad.now ≤ MAX_AEAD_BYTES }
        requires message { length mc.old ≤ MAX_AEAD_BYTES }
        ensures { (mc.new, result) ≡ sealed_by self.now TAG_BYTES ad.now mc.old }
    {
        with_cipher!(self, TAG_BYTES, cipher => cipher.encrypt_in_place(mc, ad))
    }

    /// Opens a ciphertext in place: `mc` is the ciphertext before the call and the message after it.
    ///
    /// The only error is [`Error::InvalidTag`], if no message is sealed to the ciphertext and the tag. Every byte of
    /// `mc` is then [`ERASED`].
    pub fn decrypt_in_place<const TAG_BYTES: usize>(
        &self,
        mc: &mut [u8],
        tag: &[u8; TAG_BYTES],
        ad: &[u8],
    ) -> Result<(), Error>
        requires tag { IsTagLength TAG_BYTES }
        requires associated_data { length ad.now ≤ MAX_AEAD_BYTES }
        requires ciphertext { length mc.old ≤ MAX_AEAD_BYTES }
        ensures opened { OnOk result
            (sealed_by self.now TAG_BYTES ad.now mc.new ≡ (mc.old, tag.now)) }
        ensures accepted { (m : List ℕ)
            → sealed_by self.now TAG_BYTES ad.now m ≡ (mc.old, tag.now) → IsOk result }
        ensures only { (m : List ℕ)
            → sealed_by self.now TAG_BYTES ad.now m ≡ (mc.old, tag.now) → mc.new ≡ m }
        ensures erased { OnErr result (mc.new ≡ replicate (length mc.old) ERASED) }
        ensures error { IfErr result (λ e. e ≡ Error.InvalidTag) }
    {
        with_cipher!(self, TAG_BYTES, cipher => cipher.decrypt_in_place(mc, tag, ad))
    }

    /// Seals a message into a new vector. Returns the ciphertext, and the tag, which covers the associated data `ad`
    /// too. The only error is [`Error::OutOfMemory`].
    pub fn encrypt<A: Allocator, const TAG_BYTES: usize>(
        &self,
        alloc: A,
        m: &[u8],
        ad: &[u8],
    ) -> Result<(Vec<u8, A>, [u8; TAG_BYTES]), Error>
        requires tag { IsTagLength TAG_BYTES }
        requires associated_data { length ad.now ≤ MAX_AEAD_BYTES }
        requires message { length m.now ≤ MAX_AEAD_BYTES }
        ensures sealed { IfOk result (λ sealed. (sealed.0.items, sealed.1)
            ≡ sealed_by self.now TAG_BYTES ad.now m.now) }
        ensures error { IfErr result (λ e. e ≡ Error.OutOfMemory) }
    {
        with_cipher!(self, TAG_BYTES, cipher => cipher.encrypt(alloc, m, ad))
    }

    /// Opens a ciphertext into a new vector.
    ///
    /// Returns [`Error::OutOfMemory`] before any byte is processed, and otherwise [`Error::InvalidTag`] if no message
    /// is sealed to the ciphertext and the tag. With an error, no byte of the message is returned.
    pub fn decrypt<A: Allocator, const TAG_BYTES: usize>(
        &self,
        alloc: A,
        c: &[u8],
        tag: &[u8; TAG_BYTES],
        ad: &[u8],
    ) -> Result<Vec<u8, A>, Error>
        requires tag { IsTagLength TAG_BYTES }
        requires associated_data { length ad.now ≤ MAX_AEAD_BYTES }
        requires ciphertext { length c.now ≤ MAX_AEAD_BYTES }
        ensures opened { IfOk result
            (λ m. sealed_by self.now TAG_BYTES ad.now m.items ≡ (c.now, tag.now)) }
        ensures accepted { (m : List ℕ)
            → sealed_by self.now TAG_BYTES ad.now m ≡ (c.now, tag.now)
            → result ≡ Err Error.InvalidTag → ⊥ }
        ensures error { IfErr result (λ e. (e ≡ Error.InvalidTag)
            ⊎ (e ≡ Error.OutOfMemory)) }
    {
        with_cipher!(self, TAG_BYTES, cipher => cipher.decrypt(alloc, c, tag, ad))
    }

    /// Seals a message that is a list of chunks. Writes the ciphertext into `ciphertext`, which must be as long as all
    /// chunks together, and returns the tag.
    pub fn seal_chunks<const TAG_BYTES: usize>(
        &self,
        associated_data: &[u8],
        chunks: &[&[u8]],
        ciphertext: &mut [u8],
    ) -> [u8; TAG_BYTES]
        requires tag { IsTagLength TAG_BYTES }
        requires associated_data { length associated_data.now ≤ MAX_AEAD_BYTES }
        requires message { length (joined chunks.now) ≤ MAX_AEAD_BYTES }
        requires lengths { length ciphertext.old ≡ length (joined chunks.now) }
        ensures { (ciphertext.new, result)
            ≡ sealed_by self.now TAG_BYTES associated_data.now (joined chunks.now) }
    {
        with_cipher!(self, TAG_BYTES, cipher => {
            cipher.seal_chunks(associated_data, chunks, ciphertext)
        })
    }

    /// Opens a ciphertext that is a list of chunks. Writes the message into a destination that must be as long as all
    /// chunks together.
    ///
    /// The only error is [`Error::InvalidTag`], if no message is sealed to the ciphertext and the tag. Every byte of
    /// the destination is then zero.
    pub fn open_chunks<const TAG_BYTES: usize>(
        &self,
        associated_data: &[u8],
        chunks: &[&[u8]],
        tag: &[u8; TAG_BYTES],
        message: &mut [u8],
    ) -> Result<(), Error>
        requires tag { IsTagLength TAG_BYTES }
        requires associated_data { length associated_data.now ≤ MAX_AEAD_BYTES }
        requires ciphertext { length (joined chunks.now) ≤ MAX_AEAD_BYTES }
        requires lengths { length message.old ≡ length (joined chunks.now) }
        ensures opened { OnOk result
            (sealed_by self.now TAG_BYTES associated_data.now message.new
            ≡ (joined chunks.now, tag.now)) }
        ensures accepted { (m : List ℕ)
            → sealed_by self.now TAG_BYTES associated_data.now m ≡ (joined chunks.now, tag.now)
            → IsOk result }
        ensures only { (m : List ℕ)
            → sealed_by self.now TAG_BYTES associated_data.now m ≡ (joined chunks.now, tag.now)
            → message.new ≡ m }
        ensures erased { OnErr result (message.new ≡ replicate (length message.old) 0) }
        ensures error { IfErr result (λ e. e ≡ Error.InvalidTag) }
    {
        with_cipher!(self, TAG_BYTES, cipher => {
            open_whole(&cipher, associated_data, chunks, tag, message)
        })?;
        Ok(())
    }

    /// Overwrites a buffer with the keystream.
    pub fn stream(&self, buffer: &mut [u8])
        ensures { buffer.new ≡ keystream_of self.now (length buffer.old) }
    {
        with_cipher!(self, 16, cipher => cipher.stream(buffer))
    }

    /// Xors a buffer with the keystream.
    pub fn stream_xor_in_place(&self, buffer: &mut [u8])
        ensures { buffer.new ≡ xor_keystream (standard_of (variant_of self.now)) (key_of self.now)
            (nonce_of self.now) buffer.old }
    {
        with_cipher!(self, 16, cipher => cipher.stream_xor_in_place(buffer))
    }

    /// Returns the MAC of a message that is a list of chunks.
    pub fn mac_chunks<const TAG_BYTES: usize>(&self, chunks: &[&[u8]]) -> [u8; TAG_BYTES]
        requires tag { IsTagLength TAG_BYTES }
        requires message { length (joined chunks.now) ≤ MAX_AEAD_BYTES }
        ensures { result ≡ mac_by self.now TAG_BYTES (joined chunks.now) }
    {
        with_mac!(self, TAG_BYTES, mac => mac.finalize_chunks(chunks))
    }
}
