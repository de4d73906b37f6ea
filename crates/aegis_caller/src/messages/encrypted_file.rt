//! An encrypted file, which is read and written by blocks. Each block is sealed in place under the file's key.

ghost use Rattle.std.specs.Prelude.{◌≡◌, ◌≤◌, IsOk, length};
ghost use Rattle.std.specs.Int.{to_le_bytes, w64};
ghost use Rattle.aegis_base.specs.Variant.{Aegis256X2};
ghost use Rattle.aegis_base.specs.Message.{seal};

use aegis::MAX_AEAD_BYTES;
use aegis::aegis256x2::{Aegis256X2, Error, Key, Nonce, Tag};

/// A block, as it lies in the file before its ciphertext. The nonce is new with each writing.
pub struct BlockHeader {
    pub nonce: Nonce,
    pub tag: Tag<16>,
}

/// Seals block `number`, whose number is its associated data.
pub fn write_block(key: &Key, number: u64, nonce: &Nonce, block: &mut [u8]) -> BlockHeader
    requires { length block.old ≤ MAX_AEAD_BYTES }
    ensures nonce { result.nonce ≡ nonce.now }
    ensures sealed { (block.new, result.tag)
        ≡ seal Aegis256X2 16 key.now nonce.now (to_le_bytes w64 number) block.old }
{
    let tag = Aegis256X2::new(key, nonce).encrypt_in_place(block, &number.to_le_bytes());
    BlockHeader { nonce: *nonce, tag }
}

/// Opens block `number` of the file: the block is then the one whose sealing under this key, nonce and number gives
/// these bytes.
pub fn read_block(
    key: &Key,
    number: u64,
    header: &BlockHeader,
    block: &mut [u8],
) -> Result<(), Error>
    requires { length block.old ≤ MAX_AEAD_BYTES }
    ensures { IsOk result
        → (block.old, header.now.tag)
        ≡ seal Aegis256X2 16 key.now header.now.nonce (to_le_bytes w64 number) block.new }
{
    Aegis256X2::new(key, &header.nonce).decrypt_in_place(block, &header.tag, &number.to_le_bytes())
}

/// Writes a block and reads it back: it is unchanged.
pub fn written_and_read(
    key: &Key,
    number: u64,
    nonce: &Nonce,
    block: &mut [u8],
) -> Result<(), Error>
    requires { length block.old ≤ MAX_AEAD_BYTES }
    ensures read { IsOk result }
    ensures same { block.new ≡ block.old }
{
    let tag = Aegis256X2::<16>::new(key, nonce).encrypt_in_place(block, &number.to_le_bytes());
    Aegis256X2::new(key, nonce).decrypt_in_place(block, &tag, &number.to_le_bytes())
}
