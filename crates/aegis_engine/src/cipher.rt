//! Ciphers: a key and a nonce, for one message or one keystream.
//!
//! [`Cipher`] is generic in a state, and the six variants are aliases of it. Nothing here depends on a family or a
//! number of lanes.

ghost use Rattle.std.specs.Prelude.{◌≡◌, ⊤, ◌≤◌, ◌⊎◌, ◌++◌, IfErr, IfOk, IfSome, IsOk, List, MatchResult, OnErr, OnOk, Some, codes, drop, false, length, replicate, take, true, ℕ, []};
ghost use Rattle.aegis_base.specs.Lane.{IsTagLength};
ghost use Rattle.std.specs.Borrow.{Array, LendsIfOk, sem, u8};
ghost use Rattle.aegis_base.specs.Chunks.{OpensChunks, accepted, zeroed, joined};
ghost use Rattle.aegis_base.specs.Message.{Opens, ciphertext, seal, keystream, tag, xor_keystream, erased_byte};
ghost use Rattle.aegis_base.specs.Context.{Stands};
ghost use Rattle.aegis_engine.specs.Beginning.{decrypted, held, filled};
ghost use Rattle.aegis_base.specs.Variant.{cipher_name, key_length};
ghost use Rattle.aegis_engine.specs.Pass.{given};

use crate::context::Context;
use crate::decryptor::Decryptor;
use crate::destination::{Checked, accepted_len, accepted_message, erase_unless};
use crate::encryptor::Encryptor;
use crate::pass::Pass;
use aegis_base::{Error, LaneState, MAX_AEAD_BYTES};
use std::alloc::{AllocError, Allocator};
use std::fmt;
use std::marker::{Model, PhantomData};

/// The value of each byte of the buffer after decryption in place, or into another buffer, has refused a tag.
pub const ERASED: u8 = 0xaa;

/// Marks a cipher that is used once: it is not `Copy`.
pub struct Once;

/// Marks a cipher that is `Copy`.
#[derive(Clone, Copy)]
pub struct Reusable;

/// A cipher with tags of `TAG_BYTES` bytes, 16 or 32. In contracts it is a key and a nonce, of `KEY_BYTES` bytes each.
///
/// Under one key, a nonce must be used for one message or one keystream only. The one-shot calls consume the cipher,
/// and the chunked calls borrow it. A cipher is `Copy` if its marker `U`, [`Once`] or [`Reusable`], is: the ciphers of
/// more than one lane are.
///
/// Lengths are in bytes. Associated data and messages must each have at most [`MAX_AEAD_BYTES`]; keystreams have no
/// limit. Only `encrypt`, `decrypt`, `decrypt_with` and `stream_xor` allocate memory: the message's length, in one
/// reservation before any byte is processed.
#[derive(Copy, Drop)]
pub struct Cipher<S: LaneState, U, const KEY_BYTES: usize, const TAG_BYTES: usize> {
    key: [u8; KEY_BYTES],
    nonce: [u8; KEY_BYTES],
    variant: PhantomData<(S, U)>,
}

impl<S: LaneState, U, const KEY_BYTES: usize, const TAG_BYTES: usize> Model
    for Cipher<S, U, KEY_BYTES, TAG_BYTES> {
    ghost use Rattle.std.specs.Prelude.{◌≡◌};
    ghost use Rattle.aegis_base.specs.Lane.{IsTagLength};
    ghost use Rattle.aegis_base.specs.Context.{KeyAndNonce};
    ghost use Rattle.aegis_base.specs.Variant.{key_length};

    ghost Value = { KeyAndNonce };

    ghost view = { λ c. record { key = c.key; nonce = c.nonce } };

    ghost invariant = { λ c. IsTagLength TAG_BYTES
        × (KEY_BYTES ≡ key_length S.VARIANT.family) };

    ghost inverse = { λ keys. record { key = keys.key; nonce = keys.nonce; variant = record {} } };
}

impl<S: LaneState, U: Copy, const KEY_BYTES: usize, const TAG_BYTES: usize> Clone
    for Cipher<S, U, KEY_BYTES, TAG_BYTES> {
    ghost is_clone = { λ x y. y ≡ x };

    ghost is_infallible = { λ _. ⊤ };

    fn clone(&self) -> Result<Self, AllocError> {
        Ok(*self)
    }
}

impl<S: LaneState, U, const KEY_BYTES: usize, const TAG_BYTES: usize> fmt::Debug
    for Cipher<S, U, KEY_BYTES, TAG_BYTES> {
    ghost debug_output = { λ _. Some (cipher_name S.VARIANT.family S.VARIANT.lanes ++ codes " { .. }") };

    fn fmt<W: fmt::Write>(&self, f: &mut fmt::Formatter<W>) -> fmt::Result {
        f.write_str(S::cipher_name())?;
        f.write_str(" { .. }")
    }
}

impl<S: LaneState, U, const KEY_BYTES: usize, const TAG_BYTES: usize> Cipher<
    S,
    U,
    KEY_BYTES,
    TAG_BYTES,
> {
    /// Creates a cipher from a key and a nonce. `TAG_BYTES` must be 16 or 32.
    pub fn new(key: &[u8; KEY_BYTES], nonce: &[u8; KEY_BYTES]) -> Self
        requires key_bytes { KEY_BYTES ≡ key_length S.VARIANT.family }
        requires tag_bytes { IsTagLength TAG_BYTES }
        ensures key { result.key ≡ key.now }
        ensures nonce { result.nonce ≡ nonce.now }
    {
        Cipher {
            key: *key,
            nonce: *nonce,
            variant: PhantomData,
        }
    }

    /// Seals a message in place (AEGIS, Encrypt): `mc` is the message before the call and the ciphertext after it.
    /// Returns the tag, which covers the associated data `ad` too.
    pub fn encrypt_in_place(self, mc: &mut [u8], ad: &[u8]) -> [u8; TAG_BYTES]
        requires message_within { length mc.old ≤ MAX_AEAD_BYTES }
        requires associated_data_within { length ad.now ≤ MAX_AEAD_BYTES }
        ensures { (mc.new, result) ≡ seal S.VARIANT TAG_BYTES self.key self.nonce ad.now mc.old }
    {
        self.encrypt_in_place_with(mc, &[ad])
    }

    /// Opens a ciphertext in place (AEGIS, Decrypt): `mc` is the ciphertext before the call and the message after it.
    ///
    /// Returns `Ok` exactly if some message is sealed to this ciphertext and tag, and `mc` is then that message.
    /// Otherwise returns [`Error::InvalidTag`], and every byte of `mc` is [`ERASED`]. All bytes of the tags are
    /// compared, whether they are equal or not.
    pub fn decrypt_in_place(
        self,
        mc: &mut [u8],
        tag: &[u8; TAG_BYTES],
        ad: &[u8],
    ) -> Result<(), Error>
        requires message_within { length mc.old ≤ MAX_AEAD_BYTES }
        requires associated_data_within { length ad.now ≤ MAX_AEAD_BYTES }
        ensures opened { OnOk result
            (Opens S.VARIANT TAG_BYTES self.key self.nonce ad.now mc.old tag.now mc.new) }
        ensures accepted { (m : List ℕ)
            → Opens S.VARIANT TAG_BYTES self.key self.nonce ad.now mc.old tag.now m
            → IsOk result }
        ensures only { (m : List ℕ)
            → Opens S.VARIANT TAG_BYTES self.key self.nonce ad.now mc.old tag.now m
            → mc.new ≡ m }
        ensures erased { OnErr result (mc.new ≡ replicate (length mc.old) erased_byte) }
        ensures error { IfErr result (λ e. e ≡ Error.InvalidTag) }
    {
        self.decrypt_in_place_with(mc, tag, &[ad])
    }

    /// Seals a message in place, as `encrypt_in_place` does, with associated data in pieces, which are concatenated.
    /// Together they must have at most [`MAX_AEAD_BYTES`] (see `chunks_len`).
    pub fn encrypt_in_place_with(self, mc: &mut [u8], ad: &[&[u8]]) -> [u8; TAG_BYTES]
        requires message_within { length mc.old ≤ MAX_AEAD_BYTES }
        requires associated_data_within { length (joined ad.now) ≤ MAX_AEAD_BYTES }
        ensures { (mc.new, result)
            ≡ seal S.VARIANT TAG_BYTES self.key self.nonce (joined ad.now) mc.old }
    {
        Context::<S>::sealed_in_place(&self.key, &self.nonce, ad, mc).tag()
    }

    /// Opens a ciphertext in place, as `decrypt_in_place` does, with associated data in pieces, which are concatenated.
    /// Together they must have at most [`MAX_AEAD_BYTES`] (see `chunks_len`).
    pub fn decrypt_in_place_with(
        self,
        mc: &mut [u8],
        tag: &[u8; TAG_BYTES],
        ad: &[&[u8]],
    ) -> Result<(), Error>
        requires message_within { length mc.old ≤ MAX_AEAD_BYTES }
        requires associated_data_within { length (joined ad.now) ≤ MAX_AEAD_BYTES }
        ensures opened { OnOk result (Opens S.VARIANT TAG_BYTES self.key self.nonce
            (joined ad.now) mc.old tag.now mc.new) }
        ensures accepted { (m : List ℕ)
            → Opens S.VARIANT TAG_BYTES self.key self.nonce (joined ad.now) mc.old tag.now m
            → IsOk result }
        ensures only { (m : List ℕ)
            → Opens S.VARIANT TAG_BYTES self.key self.nonce (joined ad.now) mc.old tag.now m
            → mc.new ≡ m }
        ensures erased { OnErr result (mc.new ≡ replicate (length mc.old) erased_byte) }
        ensures error { IfErr result (λ e. e ≡ Error.InvalidTag) }
    {
        self.open_given(None, mc, tag, ad)
    }

    /// Seals a message into another buffer, `c`, which must be as long. Returns the tag, which covers the associated
    /// data `ad` too.
    pub fn encrypt_into(self, m: &[u8], c: &mut [u8], ad: &[u8]) -> [u8; TAG_BYTES]
        requires lengths { length m.now ≡ length c.old }
        requires message_within { length m.now ≤ MAX_AEAD_BYTES }
        requires associated_data_within { length ad.now ≤ MAX_AEAD_BYTES }
        ensures { (c.new, result) ≡ seal S.VARIANT TAG_BYTES self.key self.nonce ad.now m.now }
    {
        Context::<S>::sealed_into(&self.key, &self.nonce, &[ad], m, c).tag()
    }

    /// Opens a ciphertext into another buffer, `m`, which must be as long.
    ///
    /// Returns `Ok` exactly if some message is sealed to this ciphertext and tag, and `m` is then that message.
    /// Otherwise returns [`Error::InvalidTag`], and every byte of `m` is [`ERASED`]. All bytes of the tags are
    /// compared, whether they are equal or not.
    pub fn decrypt_into(
        self,
        c: &[u8],
        m: &mut [u8],
        tag: &[u8; TAG_BYTES],
        ad: &[u8],
    ) -> Result<(), Error>
        requires lengths { length c.now ≡ length m.old }
        requires message_within { length c.now ≤ MAX_AEAD_BYTES }
        requires associated_data_within { length ad.now ≤ MAX_AEAD_BYTES }
        ensures opened { OnOk result
            (Opens S.VARIANT TAG_BYTES self.key self.nonce ad.now c.now tag.now m.new) }
        ensures accepted { (p : List ℕ)
            → Opens S.VARIANT TAG_BYTES self.key self.nonce ad.now c.now tag.now p
            → IsOk result }
        ensures only { (p : List ℕ)
            → Opens S.VARIANT TAG_BYTES self.key self.nonce ad.now c.now tag.now p
            → m.new ≡ p }
        ensures erased { OnErr result (m.new ≡ replicate (length m.old) erased_byte) }
        ensures error { IfErr result (λ e. e ≡ Error.InvalidTag) }
    {
        self.open_given(Some(c), m, tag, &[ad])
    }

    // Opens a ciphertext, which is `source`, or if there is none, `mc`, into `mc`.
    #[inline(always)]
    fn open_given(
        self,
        source: Option<&[u8]>,
        mc: &mut [u8],
        tag: &[u8; TAG_BYTES],
        ad: &[&[u8]],
    ) -> Result<(), Error>
        requires lengths { IfSome source (λ s. length s.now ≡ length mc.old) }
        requires message_within { length mc.old ≤ MAX_AEAD_BYTES }
        requires associated_data_within { length (joined ad.now) ≤ MAX_AEAD_BYTES }
        ensures opened { OnOk result (Opens S.VARIANT TAG_BYTES self.key self.nonce
            (joined ad.now) (given source.entry mc.old) tag.now mc.new) }
        ensures accepted { (m : List ℕ)
            → Opens S.VARIANT TAG_BYTES self.key self.nonce (joined ad.now)
            (given source.entry mc.old) tag.now m
            → IsOk result }
        ensures only { (m : List ℕ)
            → Opens S.VARIANT TAG_BYTES self.key self.nonce (joined ad.now)
            (given source.entry mc.old) tag.now m
            → mc.new ≡ m }
        ensures erased { OnErr result (mc.new ≡ replicate (length mc.old) erased_byte) }
        ensures error { IfErr result (λ e. e ≡ Error.InvalidTag) }
    {
        let context = match source {
            Some(c) => Context::<S>::opened_into(&self.key, &self.nonce, ad, c, mc),
            None => Context::<S>::opened_in_place(&self.key, &self.nonce, ad, mc),
        };
        if context.has_tag(tag) {
            Ok(())
        } else {
            mc.fill(ERASED);
            Err(Error::InvalidTag)
        }
    }

    /// Seals a message into a new vector. Returns the ciphertext, and the tag, which covers the associated data `ad`
    /// too.
    ///
    /// The only error is [`Error::OutOfMemory`], if the allocator refuses the vector. No byte is processed then.
    pub fn encrypt<A: Allocator>(
        self,
        alloc: A,
        m: &[u8],
        ad: &[u8],
    ) -> Result<(Vec<u8, A>, [u8; TAG_BYTES]), Error>
        requires message_within { length m.now ≤ MAX_AEAD_BYTES }
        requires associated_data_within { length ad.now ≤ MAX_AEAD_BYTES }
        ensures sealed { IfOk result (λ sealed. (sealed.0.items, sealed.1)
            ≡ seal S.VARIANT TAG_BYTES self.key self.nonce ad.now m.now) }
        ensures length { IfOk result (λ sealed. length sealed.0.items ≡ length m.now) }
        ensures error { IfErr result (λ e. e ≡ Error.OutOfMemory) }
    {
        let mut c = Vec::with_capacity(alloc, m.len()).map_err(|_| Error::OutOfMemory)?;
        let mut context = Context::<S>::begin(&self.key, &self.nonce, ad);
        context
            .pass_appended(Pass::Seal, m, &mut c)
            .map_err(|_| Error::OutOfMemory)?;
        Ok((c, context.tag()))
    }

    /// Opens a ciphertext into a new vector.
    ///
    /// Returns [`Error::OutOfMemory`] if the allocator refuses the vector, for any tag, before any byte is processed.
    /// Otherwise returns the message that is sealed to this ciphertext and tag if there is one, and
    /// [`Error::InvalidTag`] if there is none. With an error, no byte of the message is returned.
    pub fn decrypt<A: Allocator>(
        self,
        alloc: A,
        c: &[u8],
        tag: &[u8; TAG_BYTES],
        ad: &[u8],
    ) -> Result<Vec<u8, A>, Error>
        requires message_within { length c.now ≤ MAX_AEAD_BYTES }
        requires associated_data_within { length ad.now ≤ MAX_AEAD_BYTES }
        ensures opened { IfOk result
            (λ m. Opens S.VARIANT TAG_BYTES self.key self.nonce ad.now c.now tag.now m.items) }
        ensures accepted { (m : List ℕ)
            → Opens S.VARIANT TAG_BYTES self.key self.nonce ad.now c.now tag.now m
            → result ≡ Err Error.InvalidTag → ⊥ }
        ensures only { (m : List ℕ)
            → Opens S.VARIANT TAG_BYTES self.key self.nonce ad.now c.now tag.now m
            → IfOk result (λ opened. opened.items ≡ m) }
        ensures length { IfOk result (λ m. length m.items ≡ length c.now) }
        ensures error { IfErr result (λ e. (e ≡ Error.InvalidTag)
            ⊎ (e ≡ Error.OutOfMemory)) }
    {
        self.decrypt_with(alloc, c, tag, &[ad])
    }

    /// Opens a ciphertext into a new vector, as `decrypt` does, with associated data in pieces, which are concatenated.
    /// Together they must have at most [`MAX_AEAD_BYTES`] (see `chunks_len`).
    pub fn decrypt_with<A: Allocator>(
        self,
        alloc: A,
        c: &[u8],
        tag: &[u8; TAG_BYTES],
        ad: &[&[u8]],
    ) -> Result<Vec<u8, A>, Error>
        requires message_within { length c.now ≤ MAX_AEAD_BYTES }
        requires associated_data_within { length (joined ad.now) ≤ MAX_AEAD_BYTES }
        ensures opened { IfOk result (λ m. Opens S.VARIANT TAG_BYTES self.key self.nonce
            (joined ad.now) c.now tag.now m.items) }
        ensures accepted { (m : List ℕ)
            → Opens S.VARIANT TAG_BYTES self.key self.nonce (joined ad.now) c.now tag.now m
            → result ≡ Err Error.InvalidTag → ⊥ }
        ensures only { (m : List ℕ)
            → Opens S.VARIANT TAG_BYTES self.key self.nonce (joined ad.now) c.now tag.now m
            → IfOk result (λ opened. opened.items ≡ m) }
        ensures length { IfOk result (λ m. length m.items ≡ length c.now) }
        ensures error { IfErr result (λ e. (e ≡ Error.InvalidTag)
            ⊎ (e ≡ Error.OutOfMemory)) }
    {
        let mut m = Vec::with_capacity(alloc, c.len()).map_err(|_| Error::OutOfMemory)?;
        let mut context = Context::<S>::begin_with(&self.key, &self.nonce, ad);
        context
            .pass_appended(Pass::Open, c, &mut m)
            .map_err(|_| Error::OutOfMemory)?;
        if context.has_tag(tag) {
            Ok(m)
        } else {
            m.fill(ERASED);
            Err(Error::InvalidTag)
        }
    }

    /// Returns a message xored with the keystream, in a new vector.
    ///
    /// The only error is [`Error::OutOfMemory`], if the allocator refuses the vector.
    pub fn stream_xor<A: Allocator>(self, alloc: A, m: &[u8]) -> Result<Vec<u8, A>, Error>
        ensures xored { IfOk result (λ c. c.items
            ≡ xor_keystream S.VARIANT self.key self.nonce m.now) }
        ensures length { IfOk result (λ c. length c.items ≡ length m.now) }
        ensures error { IfErr result (λ e. e ≡ Error.OutOfMemory) }
    {
        let mut c = Vec::with_capacity(alloc, m.len()).map_err(|_| Error::OutOfMemory)?;
        let mut context = Context::<S>::begin(&self.key, &self.nonce, &[]);
        context
            .pass_appended(Pass::Keystream, m, &mut c)
            .map_err(|_| Error::OutOfMemory)?;
        Ok(c)
    }

    /// Overwrites `out` with the keystream from its beginning: the ciphertext of as many zeros, sealed without
    /// associated data. It does not depend on `TAG_BYTES`.
    pub fn stream(self, out: &mut [u8])
        ensures { out.new ≡ keystream S.VARIANT self.key self.nonce (length out.old) }
    {
        out.fill(0);
        let total = out.len() as u64;
        Context::<S>::begin(&self.key, &self.nonce, &[]).pass(Pass::Seal, None, out, total);
    }

    /// Xors a message in place with the keystream from its beginning. A second such call restores the message.
    pub fn stream_xor_in_place(self, mc: &mut [u8])
        ensures xored { mc.new ≡ xor_keystream S.VARIANT self.key self.nonce mc.old }
        ensures undone { xor_keystream S.VARIANT self.key self.nonce mc.new ≡ mc.old }
    {
        let total = mc.len() as u64;
        Context::<S>::begin(&self.key, &self.nonce, &[]).pass(Pass::Keystream, None, mc, total);
    }

    /// Returns an encryptor, which seals a message in chunks, with the associated data `ad`.
    pub fn encryptor(&self, ad: &[u8]) -> Encryptor<S, TAG_BYTES>
        requires { length ad.now ≤ MAX_AEAD_BYTES }
        ensures stands { Stands S.VARIANT result self.now.key self.now.nonce ad.now [] }
        ensures empty { ciphertext S.VARIANT self.now.key self.now.nonce ad.now [] ≡ [] }
        ensures length { result.message_bytes ≡ 0 }
    {
        self.encryptor_with(&[ad])
    }

    /// Returns an encryptor, as `encryptor` does, with associated data in pieces, which are concatenated. Together they
    /// must have at most [`MAX_AEAD_BYTES`] (see `chunks_len`).
    pub fn encryptor_with(&self, ad: &[&[u8]]) -> Encryptor<S, TAG_BYTES>
        requires { length (joined ad.now) ≤ MAX_AEAD_BYTES }
        ensures stands { Stands S.VARIANT result self.now.key self.now.nonce (joined ad.now) [] }
        ensures empty { ciphertext S.VARIANT self.now.key self.now.nonce (joined ad.now) [] ≡ [] }
        ensures length { result.message_bytes ≡ 0 }
    {
        Encryptor {
            context: Context::begin_with(&self.key, &self.nonce, ad),
        }
    }

    /// Seals a message that is a list of chunks, which may be empty. Writes the ciphertext of the chunks, one after the
    /// other, into `out`, which must be as long as all chunks together (see `chunks_len`). Returns the tag.
    pub fn seal_chunks(&self, ad: &[u8], chunks: &[&[u8]], out: &mut [u8]) -> [u8; TAG_BYTES]
        requires associated_data_within { length ad.now ≤ MAX_AEAD_BYTES }
        requires lengths { length out.old ≡ length (joined chunks.now) }
        requires message_within { length out.old ≤ MAX_AEAD_BYTES }
        ensures { (out.new, result)
            ≡ seal S.VARIANT TAG_BYTES self.now.key self.now.nonce ad.now (joined chunks.now) }
    {
        let mut context = Context::<S>::begin(&self.key, &self.nonce, ad);
        context.seal_chunks(chunks, out);
        context.tag()
    }

    /// Returns a decryptor, which opens a ciphertext in chunks, with the associated data `ad`, and writes the message
    /// into `plaintext`.
    pub fn decryptor<'a>(&self, ad: &[u8], plaintext: &'a mut [u8]) -> Decryptor<'a, S, TAG_BYTES>
        requires { length ad.now ≤ MAX_AEAD_BYTES }
        ensures same_reference { result.dst.ghost_name ≡ plaintext.entry.ghost_name }
        ensures same_place { result.dst.ref_ptr ≡ plaintext.entry.ref_ptr }
        ensures unchanged { result.dst.now ≡ plaintext.old }
        ensures filled { filled result ≡ 0 }
        ensures stands { Stands S.VARIANT (held result) self.now.key self.now.nonce ad.now
            (decrypted result) }
        ensures empty { ciphertext S.VARIANT self.now.key self.now.nonce ad.now (decrypted result)
            ≡ [] }
    {
        Decryptor {
            dst: plaintext,
            context: Context::begin(&self.key, &self.nonce, ad),
        }
    }

    // Opens chunks into the start of `dst` for any tag, and returns how many bytes were written and whether the tag is
    // right. If it is not, the caller erases them.
    fn open_chunks_unchecked(
        &self,
        ad: &[u8],
        chunks: &[&[u8]],
        tag: &[u8; TAG_BYTES],
        dst: &mut [u8],
    ) -> (usize, bool)
        requires { length ad.now ≤ MAX_AEAD_BYTES }
        ensures filled { result.0 ≡ length (accepted (length dst.old) chunks.now) }
        ensures within { result.0 ≤ length dst.new }
        ensures rest { drop result.0 dst.new ≡ drop result.0 dst.old }
        ensures opened { result.1 ≡ true
            → OpensChunks S.VARIANT TAG_BYTES self.now ad.now (length dst.old) chunks.now
            tag.now (take result.0 dst.new) }
        ensures accepted { (m : List ℕ)
            → OpensChunks S.VARIANT TAG_BYTES self.now ad.now (length dst.old) chunks.now
            tag.now m
            → result.1 ≡ true }
        ensures only { (m : List ℕ)
            → OpensChunks S.VARIANT TAG_BYTES self.now ad.now (length dst.old) chunks.now
            tag.now m
            → take result.0 dst.new ≡ m }
    {
        let mut context = Context::<S>::begin(&self.key, &self.nonce, ad);
        context.open_all(dst, chunks);
        (context.message_bytes() as usize, context.has_tag(tag))
    }

    // Opens chunks, and overwrites the message with zeros if the tag is wrong.
    fn check_chunks<'a>(
        &self,
        ad: &[u8],
        chunks: &[&[u8]],
        tag: &[u8; TAG_BYTES],
        dst: &'a mut [u8],
    ) -> Checked<'a>
        requires { length ad.now ≤ MAX_AEAD_BYTES }
        ensures same_place { (result.dst.ghost_name ≡ dst.entry.ghost_name)
            × (result.dst.ref_ptr ≡ dst.entry.ref_ptr) }
        ensures within { result.filled ≤ length result.dst.now }
        ensures filled { result.filled ≡ length (accepted (length dst.old) chunks.now) }
        ensures erased { result.accepted ≡ false
            → result.dst.now ≡ zeroed result.filled result.dst.now }
        ensures rest { drop result.filled result.dst.now ≡ drop result.filled dst.old }
        ensures opened { result.accepted ≡ true
            → OpensChunks S.VARIANT TAG_BYTES self.now ad.now (length dst.old) chunks.now
            tag.now (take result.filled result.dst.now) }
        ensures accepted { (m : List ℕ)
            → OpensChunks S.VARIANT TAG_BYTES self.now ad.now (length dst.old) chunks.now
            tag.now m
            → result.accepted ≡ true }
        ensures only { (m : List ℕ)
            → OpensChunks S.VARIANT TAG_BYTES self.now ad.now (length dst.old) chunks.now
            tag.now m
            → take result.filled result.dst.now ≡ m }
    {
        let (filled, is_right) = self.open_chunks_unchecked(ad, chunks, tag, dst);
        erase_unless(dst, filled, is_right);
        Checked {
            dst,
            filled,
            accepted: is_right,
        }
    }

    /// Opens a ciphertext that is a list of chunks, and returns the message at the start of `dst`.
    ///
    /// The chunks are taken in order. A chunk that does not fit in the rest of `dst`, or within [`MAX_AEAD_BYTES`], is
    /// left out whole. Returns the message that is sealed to the other chunks and this tag if there is one. Otherwise
    /// returns [`Error::InvalidTag`], and zeros overwrite as many bytes of `dst` as the other chunks have. The rest of
    /// `dst` is unchanged in both cases.
    pub fn open_chunks<'a>(
        &self,
        ad: &[u8],
        chunks: &[&[u8]],
        tag: &[u8; TAG_BYTES],
        dst: &'a mut [u8],
    ) -> Result<&'a mut [u8], Error>
        requires { length ad.now ≤ MAX_AEAD_BYTES }
        ensures* writes_back { sem 𝓛 (LendsIfOk (Array u8 0) (Array u8 0) dst.entry result
            (λ w. w ++ drop (length (accepted (length dst.old) chunks.now)) dst.old)
            (zeroed (length (accepted (length dst.old) chunks.now)) dst.old)) }
        ensures cases { MatchResult result
            (λ m. OpensChunks S.VARIANT TAG_BYTES self.now ad.now (length dst.old) chunks.now
            tag.now m.now)
            (λ e. e ≡ Error.InvalidTag) }
        ensures place { IfOk result (λ m. m.ref_ptr ≡ dst.entry.ref_ptr) }
        ensures accepted { (m : List ℕ)
            → OpensChunks S.VARIANT TAG_BYTES self.now ad.now (length dst.old) chunks.now
            tag.now m
            → IsOk result }
        ensures only { (m : List ℕ)
            → OpensChunks S.VARIANT TAG_BYTES self.now ad.now (length dst.old) chunks.now
            tag.now m
            → IfOk result (λ opened. opened.now ≡ m) }
    {
        accepted_message(self.check_chunks(ad, chunks, tag, dst))
    }

    /// Opens a ciphertext that is a list of chunks, as `open_chunks` does, and returns the length of the message in
    /// bytes. The message is at the start of `dst`.
    ///
    /// The error and the state of `dst` after it are those of `open_chunks`. Use this call if `dst` is used again: its
    /// contract states what `dst` holds afterwards.
    pub fn open_chunks_len(
        &self,
        ad: &[u8],
        chunks: &[&[u8]],
        tag: &[u8; TAG_BYTES],
        dst: &mut [u8],
    ) -> Result<usize, Error>
        requires { length ad.now ≤ MAX_AEAD_BYTES }
        ensures length { OnOk result
            (result ≡ Ok (length (accepted (length dst.old) chunks.now))) }
        ensures opened { OnOk result
            (OpensChunks S.VARIANT TAG_BYTES self.now ad.now (length dst.old) chunks.now
            tag.now
            (take (length (accepted (length dst.old) chunks.now)) dst.new)) }
        ensures accepted { (m : List ℕ)
            → OpensChunks S.VARIANT TAG_BYTES self.now ad.now (length dst.old) chunks.now
            tag.now m
            → IsOk result }
        ensures only { (m : List ℕ)
            → OpensChunks S.VARIANT TAG_BYTES self.now ad.now (length dst.old) chunks.now
            tag.now m
            → take (length (accepted (length dst.old) chunks.now)) dst.new ≡ m }
        ensures rest { drop (length (accepted (length dst.old) chunks.now)) dst.new
            ≡ drop (length (accepted (length dst.old) chunks.now)) dst.old }
        ensures erased { OnErr result
            (dst.new ≡ zeroed (length (accepted (length dst.old) chunks.now)) dst.old) }
        ensures error { IfErr result (λ e. e ≡ Error.InvalidTag) }
    {
        let (filled, is_right) = self.open_chunks_unchecked(ad, chunks, tag, dst);
        accepted_len(dst, filled, is_right)
    }
}
