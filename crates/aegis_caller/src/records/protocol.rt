//! A record protocol: numbered records, sealed in place, each under a nonce of its own.

ghost use Rattle.std.specs.Prelude.{◌≡◌, ◌≤◌, ◌++◌, IsOk, length};
ghost use Rattle.std.specs.Int.{to_le_bytes, w64};
ghost use Rattle.aegis_base.specs.Variant.{Aegis256};
ghost use Rattle.aegis_base.specs.Message.{seal};

use aegis::MAX_AEAD_BYTES;
use aegis::aegis256::{Aegis256, Error, Tag};

/// What both parties know. A record's nonce is the prefix and the record's number.
pub struct Session {
    pub key: [u8; 32],
    pub prefix: [u8; 24],
}

impl Session {
    fn nonce(&self, number: u64) -> [u8; 32]
        ensures { result ≡ self.now.prefix ++ to_le_bytes w64 number }
    {
        let mut nonce = [0; 32];
        let (prefix, counter) = nonce.split_at_mut(24);
        prefix.copy_from_slice(&self.prefix);
        counter.copy_from_slice(&number.to_le_bytes());
        nonce
    }

    /// Seals the message of record `number` under its header.
    pub fn send(&self, number: u64, header: &[u8], message: &mut [u8]) -> Tag<32>
        requires header_within { length header.now ≤ MAX_AEAD_BYTES }
        requires message_within { length message.old ≤ MAX_AEAD_BYTES }
        ensures { (message.new, result)
            ≡ seal Aegis256 32 self.now.key (self.now.prefix
            ++ to_le_bytes w64 number) header.now message.old }
    {
        Aegis256::<32>::new(&self.key, &self.nonce(number)).encrypt_in_place(message, header)
    }

    /// Opens what was received as record `number`: the message is then the one whose sealing under this key, nonce and
    /// header gives these bytes.
    pub fn receive(
        &self,
        number: u64,
        header: &[u8],
        message: &mut [u8],
        tag: &Tag<32>,
    ) -> Result<(), Error>
        requires header_within { length header.now ≤ MAX_AEAD_BYTES }
        requires message_within { length message.old ≤ MAX_AEAD_BYTES }
        ensures sent { IsOk result
            → (message.old, tag.now)
            ≡ seal Aegis256 32 self.now.key (self.now.prefix
            ++ to_le_bytes w64 number) header.now message.new }
    {
        Aegis256::<32>::new(&self.key, &self.nonce(number)).decrypt_in_place(message, tag, header)
    }
}
