//! The header of a file.

ghost use Rattle.std.specs.Prelude.{◌≡◌, ◌+◌, ◌-◌, ◌<◌, ◌≤◌, ◌^◌, IfErr, IfNone, IfOk, IfSome, IsSome, Some, drop, length, replicate, ℕ};
ghost use Rattle.std.specs.Int.{to_le_bytes, w64};
ghost use Rattle.aegis_base.specs.Message.{erased_byte};
ghost use Rattle.aegis_base.specs.Variant.{key_length};
ghost use Rattle.aegis_storage.specs.Disk.{part_at};
ghost use Rattle.aegis_pages.specs.Commits.{IsStorageReadError, head_bytes};
ghost use Rattle.aegis_pages.specs.Layouts.{HasNoHeader, IsHeaderBlock, header_plaintext, IsPageSize, Layout, OpensAt, sealed_bytes, nonce_bytes, HasHeader, layout_of};

use crate::error::PagesError;
use crate::layout::{
    FileLayout, HEADER_BLOCK_BYTES, HEADER_NUMBER, HEADER_PLAINTEXT_BYTES, MAX_CONTENTS_BYTES,
    PLAINTEXT_HEADER_BYTES, TAG_BYTES,
};
use crate::page::open_page_at;
use aegis_base::LaneState;
use aegis_engine::ERASED;
use aegis_storage::Storage;
use aegis_storage::bytes::array_of;

/// What a header names.
#[derive(Clone, Copy)]
pub struct FileHeader {
    /// The page size, in bytes of contents.
    pub page_bytes: u32,
    /// The file's id.
    pub id: [u8; 24],
    /// How many commits were made before it.
    pub counter: u64,
    /// The length of the contents.
    pub len: u64,
}

/// Returns the block of a header: after the header it has zeros.
pub fn seal_header<L: LaneState, const KEY_BYTES: usize>(
    layout: &FileLayout<L, KEY_BYTES>,
    nonce: &[u8; KEY_BYTES],
    counter: u64,
    len: u64,
) -> [u8; HEADER_BLOCK_BYTES]
    requires { len ≤ MAX_CONTENTS_BYTES }
    ensures header { IsHeaderBlock layout.now counter len result }
    ensures nonce { part_at result PLAINTEXT_HEADER_BYTES (nonce_bytes layout.now) ≡ nonce.now }
    ensures padding { drop (head_bytes layout.now.variant) result
        ≡ replicate (HEADER_BLOCK_BYTES - head_bytes layout.now.variant) 0 }
{
    let used = PLAINTEXT_HEADER_BYTES
        + (HEADER_PLAINTEXT_BYTES + (layout.nonce_bytes() + TAG_BYTES));
    let padding = [0; HEADER_BLOCK_BYTES];
    let mut contents: [u8; HEADER_PLAINTEXT_BYTES] = array_of(&[
        &counter.to_le_bytes(),
        &len.to_le_bytes(),
    ]);
    let ad = layout.associated_data(HEADER_NUMBER);
    let tag = layout.cipher(nonce).encrypt_in_place(&mut contents, &ad);
    array_of(&[
        &layout.plaintext_header(),
        nonce,
        &contents,
        &tag,
        &padding[used..],
    ])
}

/// Returns the number that 8 bytes are, the lowest first.
pub fn number_of(bytes: &[u8]) -> u64
    requires { length bytes.now ≡ 8 }
    ensures { to_le_bytes w64 result ≡ bytes.now }
{
    let mut all = [0; 8];
    all.copy_from_slice(bytes);
    u64::from_le_bytes(all)
}

/// Opens the encrypted part of a header, and returns its counter and the length of the contents, or `None` if it is
/// none of this layout.
pub fn open_header<L: LaneState, const KEY_BYTES: usize>(
    layout: &FileLayout<L, KEY_BYTES>,
    sealed: &mut [u8],
) -> Option<(u64, u64)>
    requires { length sealed.old ≡ sealed_bytes layout.now HEADER_PLAINTEXT_BYTES }
    ensures opened { IfSome result (λ read.
        OpensAt layout.now HEADER_NUMBER sealed.old (header_plaintext read.0 read.1)) }
    ensures within { IfSome result (λ read. read.1 ≤ MAX_CONTENTS_BYTES) }
    ensures found { (counter len : ℕ) → counter < 2 ^ 64 → len ≤ MAX_CONTENTS_BYTES
        → OpensAt layout.now HEADER_NUMBER sealed.old (header_plaintext counter len)
        → result ≡ Some (counter, len) }
{
    if !open_page_at(layout, HEADER_NUMBER, sealed) {
        return None;
    }
    let contents = &sealed[layout.nonce_bytes()..];
    let counter = number_of(&contents[..8]);
    let len = number_of(&contents[8..16]);
    if len > MAX_CONTENTS_BYTES {
        return None;
    }
    Some((counter, len))
}

// Finds the header of a header block, and may leave any bytes in it.
fn found_header<L: LaneState, const KEY_BYTES: usize>(
    key: &[u8; KEY_BYTES],
    header_block: &mut [u8],
) -> Option<FileHeader>
    requires key_bytes { KEY_BYTES ≡ key_length L.VARIANT.family }
    requires long { length header_block.old ≡ HEADER_BLOCK_BYTES }
    ensures opened { IfSome result (λ header.
        IsHeaderBlock (layout_of L.VARIANT key.now header) header.counter header.len
        header_block.old) }
    ensures found { (layout : Layout) (counter len : ℕ) → layout.variant ≡ L.VARIANT
        → layout.key ≡ key.now → IsHeaderBlock layout counter len header_block.old → IsSome result }
{
    let (plaintext, rest) = header_block.split_at_mut(PLAINTEXT_HEADER_BYTES);
    let layout = FileLayout::<L, KEY_BYTES>::read(plaintext, key)?;
    let sealed_bytes = HEADER_PLAINTEXT_BYTES + (layout.nonce_bytes() + TAG_BYTES);
    let (counter, len) = open_header(&layout, &mut rest[..sealed_bytes])?;
    let (page_bytes, id) = layout.size_and_id();
    Some(FileHeader {
        page_bytes,
        id,
        counter,
        len,
    })
}

/// Opens a header block, and returns its header, or `None` if it has none that was sealed with this variant and under
/// the key. Every byte of the block is then [`ERASED`].
pub fn open_header_block<L: LaneState, const KEY_BYTES: usize>(
    key: &[u8; KEY_BYTES],
    header_block: &mut [u8],
) -> Option<FileHeader>
    requires key_bytes { KEY_BYTES ≡ key_length L.VARIANT.family }
    requires long { length header_block.old ≡ HEADER_BLOCK_BYTES }
    ensures opened { IfSome result (λ header.
        IsHeaderBlock (layout_of L.VARIANT key.now header) header.counter header.len
        header_block.old) }
    ensures found { (layout : Layout) (counter len : ℕ) → layout.variant ≡ L.VARIANT
        → layout.key ≡ key.now → IsHeaderBlock layout counter len header_block.old → IsSome result }
    ensures erased { IfNone result
        (header_block.new ≡ replicate (length header_block.old) erased_byte) }
{
    let found = found_header::<L, KEY_BYTES>(key, header_block);
    if found.is_none() {
        header_block.fill(ERASED);
    }
    found
}

/// Reads the header block of a file, or returns `None` if the file is shorter. Returns [`PagesError::Read`].
pub fn read_header_block<S: Storage>(
    storage: &S,
) -> Result<Option<[u8; HEADER_BLOCK_BYTES]>, PagesError>
    ensures read { IfOk result (λ found. IfSome found (λ header_block. IfSome (S.bytes storage.now)
        (λ file. (HEADER_BLOCK_BYTES ≤ length file)
        × (header_block ≡ part_at file 0 HEADER_BLOCK_BYTES)))) }
    ensures short { IfOk result (λ found. IfNone found (IfSome (S.bytes storage.now)
        (λ file. length file < HEADER_BLOCK_BYTES))) }
    ensures refused { IfErr result IsStorageReadError }
{
    match storage.size() {
        Ok(size) => {
            if size < HEADER_BLOCK_BYTES as u64 {
                return Ok(None);
            }
        }
        Err(error) => return Err(PagesError::Read(error)),
    }
    let mut header_block = [0; HEADER_BLOCK_BYTES];
    match storage.read_at(0, &mut header_block) {
        Ok(()) => Ok(Some(header_block)),
        Err(error) => Err(PagesError::Read(error)),
    }
}

/// Reads the header of a file, or returns `None` if it has none that was sealed with this variant and under the key.
/// Returns [`PagesError::Read`].
pub fn read_header<S: Storage, L: LaneState, const KEY_BYTES: usize>(
    storage: &S,
    key: &[u8; KEY_BYTES],
) -> Result<Option<FileHeader>, PagesError>
    requires { KEY_BYTES ≡ key_length L.VARIANT.family }
    ensures found { IfOk result (λ found. IfSome found (λ header.
        HasHeader L.VARIANT key.now header (S.bytes storage.now))) }
    ensures none { IfOk result (λ found. IfNone found
        (IfSome (S.bytes storage.now) (HasNoHeader L.VARIANT key.now))) }
    ensures refused { IfErr result IsStorageReadError }
{
    let Some(mut header_block) = read_header_block(storage)? else {
        return Ok(None);
    };
    Ok(open_header_block::<L, KEY_BYTES>(key, &mut header_block))
}
