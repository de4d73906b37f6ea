//! The cipher of a stream's records.

ghost use Rattle.std.specs.Prelude.{◌≡◌, ◌≢◌, ◌-◌, ◌≤◌, ◌⊎◌, ◌+◌, ◌++◌, ◌∷◌, [], IfErr, IfOk, List, OnErr, OnOk, drop, length, replicate, take, ℕ};
ghost use Rattle.std.specs.Int.{to_le_bytes, w32, w64};
ghost use Rattle.aegis_base.specs.Chunks.{joined};
ghost use Rattle.aegis_base.specs.Message.{erased_byte};
ghost use Rattle.aegis.specs.RecordResults.{sealing_of};
ghost use Rattle.aegis.specs.RecordStream.{record_associated_data, before_bytes, header, limit, nonce};

use crate::aegis256::{Aegis256, Error, Key, Nonce};
use crate::record::error::RecordError;
use crate::record::frame::TAG_BYTES;
use crate::record::position::RecordPosition;
use crate::record::version::Version;
use std::alloc::Allocator;

/// How many bytes the context of a stream may have.
pub const MAX_CONTEXT_BYTES: usize = 65_535;

// A message is copied and sealed in updates of this many bytes: so few that a copy waits for memory while rounds run.
// Of the lengths from 128 to 65536 it is the fastest for AEGIS-256.
const UPDATE_BYTES: usize = 256;

/// What all records of a stream are sealed under.
#[derive(Clone, Copy)]
pub struct RecordCipher<'a> {
    pub key: &'a Key,
    pub prefix: &'a [u8; 24],
    pub context: &'a [u8],
}

// Returns the nonce of a record.
#[tactic(auto, using(crate::proofs::Sealed::nonce_filled))]
fn nonce(prefix: &[u8; 24], number: u64) -> Nonce
    ensures { result ≡ nonce prefix.now number }
{
    let mut nonce = [0; 32];
    nonce[..24].copy_from_slice(prefix);
    nonce[24..].copy_from_slice(&number.to_le_bytes());
    nonce
}

// The position and the flag of a record, with the bytes that they have in its associated data.
#[derive(Drop)]
struct AssociatedData {
    position: RecordPosition,
    flag: u8,
    number_bytes: [u8; 8],
    before_bytes: [u8; 8],
    flag_bytes: [u8; 1],
    ghost number_is: { number_bytes ≡ to_le_bytes w64 position.number },
    ghost before_is: { before_bytes ≡ to_le_bytes w64 position.before },
    ghost flag_is: { flag_bytes ≡ flag ∷ [] },
}

impl AssociatedData {
    fn new(position: RecordPosition, flag: u8) -> AssociatedData
        ensures position { result.position ≡ position }
        ensures flag { result.flag ≡ flag }
    {
        AssociatedData {
            position,
            flag,
            number_bytes: position.number.to_le_bytes(),
            before_bytes: position.before.to_le_bytes(),
            flag_bytes: [flag],
        }
    }

    // What the stream begins with.
    fn header(&self) -> &[u8]
        ensures { result.now ≡ header self.now.position.version }
    {
        self.position.version.header()
    }

    // How many bytes the messages before it have, which the second version authenticates.
    fn before(&self) -> &[u8]
        ensures { result.now
            ≡ before_bytes self.now.position.version self.now.position.before }
    {
        match self.position.version {
            Version::First => &self.before_bytes[..0],
            Version::Second => self.before_bytes.as_slice(),
        }
    }

    // The associated data of the record, in pieces.
    fn pieces<'b>(&'b self, context: &'b [u8]) -> [&'b [u8]; 5]
        ensures are { joined result
            ≡ record_associated_data self.now.position self.now.flag context.now }
        ensures short { length (joined result) ≤ 21 + length context.now }
    {
        let header = self.header();
        let number = self.number_bytes.as_slice();
        let before = self.before();
        let flag = self.flag_bytes.as_slice();
        [header, number, before, flag, context]
    }
}

impl RecordCipher<'_> {
    // The cipher of the record of this number.
    fn cipher(&self, number: u64) -> Aegis256<TAG_BYTES>
        ensures key { result.key ≡ self.now.key.now }
        ensures nonce { result.nonce ≡ nonce self.now.prefix.now number }
    {
        Aegis256::new(self.key, &nonce(self.prefix, number))
    }

    /// Appends the ciphertext and the tag of a record to a stream.
    pub fn seal<A: Allocator>(
        &self,
        out: &mut Vec<u8, A>,
        position: RecordPosition,
        flag: u8,
        message: &[u8],
    ) -> Result<(), RecordError>
        requires context { length self.now.context.now ≤ MAX_CONTEXT_BYTES }
        requires within { length message.now ≤ limit position.version }
        ensures ok { OnOk result (out.new.items
            ≡ out.old.items ++ sealing_of self.now position flag message.now) }
        ensures err { IfErr result (λ e. e ≡ RecordError.OutOfMemory) }
        ensures kept { OnErr result
            ((part : List ℕ) × (out.new.items ≡ out.old.items ++ part)) }
    {
        let ad = AssociatedData::new(position, flag);
        let pieces = ad.pieces(self.context);
        let mut encryptor = self.cipher(position.number).encryptor_with(&pieces);
        for piece in message.chunks(UPDATE_BYTES) {
            let start = out.len();
            out.extend_from_slice(piece)?;
            encryptor.update_in_place(&mut out[start..]);
        }
        out.extend_from_slice(&encryptor.finalize())?;
        Ok(())
    }

    /// Seals a message in place: `sealed` has the message and then 32 bytes, over which its ciphertext and its tag are
    /// written.
    #[tactic(auto, using(crate::proofs::Sealed::joined))]
    pub fn seal_in_place(&self, position: RecordPosition, flag: u8, sealed: &mut [u8])
        requires context { length self.now.context.now ≤ MAX_CONTEXT_BYTES }
        requires long { 32 ≤ length sealed.old }
        requires within { length sealed.old ≤ limit position.version + 32 }
        ensures { sealed.new
            ≡ sealing_of self.now position flag (take (length sealed.old - 32) sealed.old) }
    {
        let ad = AssociatedData::new(position, flag);
        let pieces = ad.pieces(self.context);
        let (message, tag) = sealed.split_last_chunk_mut::<TAG_BYTES>().unwrap();
        *tag = self
            .cipher(position.number)
            .encrypt_in_place_with(message, &pieces);
    }

    /// Returns the message that is sealed to the bytes of a record, ciphertext and tag, in a fresh vector.
    pub fn open<A: Allocator>(
        &self,
        alloc: A,
        position: RecordPosition,
        flag: u8,
        sealed: &[u8],
    ) -> Result<Vec<u8, A>, RecordError>
        requires context { length self.now.context.now ≤ MAX_CONTEXT_BYTES }
        requires long { 32 ≤ length sealed.now }
        requires within { length sealed.now ≤ limit position.version + 32 }
        ensures opened { IfOk result (λ m. sealing_of self.now position flag m.items ≡ sealed.now) }
        ensures refused { IfErr result (λ e. (e ≡ RecordError.OutOfMemory)
            ⊎ (((m : List ℕ) → sealing_of self.now position flag m ≢ sealed.now)
            × (e ≡ RecordError.Damaged position.number))) }
    {
        let ad = AssociatedData::new(position, flag);
        let pieces = ad.pieces(self.context);
        let (ciphertext, tag) = sealed.split_last_chunk::<TAG_BYTES>().unwrap();
        match self
            .cipher(position.number)
            .decrypt_with(alloc, ciphertext, tag, &pieces)
        {
            Ok(message) => Ok(message),
            Err(Error::InvalidTag) => Err(RecordError::Damaged(position.number)),
            Err(_) => Err(RecordError::OutOfMemory),
        }
    }

    /// Opens the bytes of a record, ciphertext and tag, in place: the message is written over the ciphertext, or
    /// [`ERASED`](crate::ERASED) bytes if no message is sealed to these.
    pub fn open_in_place(
        &self,
        position: RecordPosition,
        flag: u8,
        sealed: &mut [u8],
    ) -> Result<(), RecordError>
        requires context { length self.now.context.now ≤ MAX_CONTEXT_BYTES }
        requires long { 32 ≤ length sealed.old }
        requires within { length sealed.old ≤ limit position.version + 32 }
        ensures opened { OnOk result
            (sealing_of self.now position flag (take (length sealed.old - 32) sealed.new)
            ≡ sealed.old) }
        ensures refused { IfErr result
            (λ e. ((m : List ℕ) → sealing_of self.now position flag m ≢ sealed.old)
            × (e ≡ RecordError.Damaged position.number)) }
        ensures erased { OnErr result (take (length sealed.old - 32) sealed.new
            ≡ replicate (length sealed.old - 32) erased_byte) }
        ensures tag { drop (length sealed.old - 32) sealed.new
            ≡ drop (length sealed.old - 32) sealed.old }
    {
        let ad = AssociatedData::new(position, flag);
        let pieces = ad.pieces(self.context);
        let (ciphertext, tag) = sealed.split_last_chunk_mut::<TAG_BYTES>().unwrap();
        match self
            .cipher(position.number)
            .decrypt_in_place_with(ciphertext, tag, &pieces)
        {
            Ok(()) => Ok(()),
            Err(_) => Err(RecordError::Damaged(position.number)),
        }
    }
}
