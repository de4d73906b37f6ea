//! How a random-access file is laid out.

ghost use Rattle.std.specs.Prelude.{◌≡◌, ◌+◌, ◌*◌, ◌<◌, ◌≤◌, ◌↔◌, IfSome, IsSome, IsTrue, length, ℕ};
ghost use Rattle.aegis_base.specs.Variant.{key_length};
ghost use Rattle.aegis_pages.specs.Commits.{page_count};
ghost use Rattle.aegis_pages.specs.Layouts.{IsPageSize, Layout, page_associated_data, sealed_bytes, plaintext_header, journal_beginning, named, nonce_bytes, page_place, variant_byte};

use aegis_aes::Row;
use aegis_base::LaneState;
use aegis_engine::{Cipher, Once};
use aegis_storage::BEGINNING_BYTES;
use aegis_storage::bytes::array_of;
use std::marker::{Model, PhantomData};

/// The least page size, in bytes of contents.
pub const MIN_PAGE_BYTES: u32 = 256;

/// The greatest page size, in bytes of contents.
pub const MAX_PAGE_BYTES: u32 = 65_536;

/// The page size for most uses of the AEGIS-256 family, in bytes of contents: with its nonce of 32 bytes and its tag a
/// page has 4,096.
pub const DEFAULT_PAGE_BYTES: u32 = 4_032;

/// The page size for most uses of the AEGIS-128 family: with its nonce of 16 bytes and its tag a page has 4,096.
pub const DEFAULT_PAGE_BYTES_128: u32 = 4_048;

/// How many bytes contents may have, 2^60.
pub const MAX_CONTENTS_BYTES: u64 = 1_152_921_504_606_846_976;

/// The length of a tag.
pub const TAG_BYTES: usize = 32;

/// The length of the block of the header, with which a file begins.
pub const HEADER_BLOCK_BYTES: usize = 512;

/// The length of the plaintext part of a header: a magic number, the variant, the page size and the file's id.
pub const PLAINTEXT_HEADER_BYTES: usize = 33;

/// The length of the plaintext of a header's encrypted part.
pub const HEADER_PLAINTEXT_BYTES: usize = 16;

/// The number that stands for a header where a page has its own. No page has it.
pub const HEADER_NUMBER: u64 = 18_446_744_073_709_551_615;

/// Where the pages begin, after the block of the header.
pub const PAGES_PLACE: u64 = 4_096;

/// The first bytes of a file.
pub const MAGIC: [u8; 4] = *b"AGP1";

/// The first bytes of a journal.
pub const JOURNAL_MAGIC: [u8; 4] = *b"AGJ1";

// How many zeros follow the name of the file in the beginning of a journal.
const PADDING_BYTES: usize = BEGINNING_BYTES - PLAINTEXT_HEADER_BYTES;

/// What all sealed pages of a file are sealed under. The key is overwritten when it is dropped.
pub struct FileLayout<L: LaneState, const KEY_BYTES: usize> {
    key: [u8; KEY_BYTES],
    page_bytes: u32,
    id: [u8; 24],
    cipher: PhantomData<L>,
}

impl<L: LaneState, const KEY_BYTES: usize> Model for FileLayout<L, KEY_BYTES> {
    ghost use Rattle.std.specs.Prelude.{◌≡◌, length};
    ghost use Rattle.aegis_base.specs.Variant.{key_length};
    ghost use Rattle.aegis_pages.specs.Layouts.{IsPageSize, Layout};

    ghost Value = { Layout };

    ghost view = { λ l. record {
      variant = L.VARIANT;
      key = l.key;
      page_bytes = l.page_bytes;
      id = l.id;
    } };

    ghost invariant = { λ l. (KEY_BYTES ≡ key_length L.VARIANT.family)
        × IsPageSize l.page_bytes };
}

impl<L: LaneState, const KEY_BYTES: usize> Drop for FileLayout<L, KEY_BYTES> {
    fn drop(self) {
        let FileLayout {
            mut key,
            page_bytes: _,
            id: _,
            cipher: _,
        } = self;
        key = [0; KEY_BYTES];
    }
}

/// Returns whether a page may have so many bytes of contents.
pub fn is_page_size(page_bytes: u32) -> bool
    ensures { IsTrue result ↔ IsPageSize page_bytes }
{
    page_bytes >= MIN_PAGE_BYTES && page_bytes <= MAX_PAGE_BYTES
}

/// Returns the byte that stands for a variant.
pub fn variant_byte<L: LaneState, const KEY_BYTES: usize>() -> u8
    requires { KEY_BYTES ≡ key_length L.VARIANT.family }
    ensures { result ≡ variant_byte L.VARIANT }
{
    (KEY_BYTES + L::Row::LANES) as u8
}

impl<L: LaneState, const KEY_BYTES: usize> FileLayout<L, KEY_BYTES> {
    /// Makes a layout.
    pub fn new(key: &[u8; KEY_BYTES], page_bytes: u32, id: &[u8; 24]) -> Self
        requires key_bytes { KEY_BYTES ≡ key_length L.VARIANT.family }
        requires size { IsPageSize page_bytes }
        ensures { result ≡ record {
          variant = L.VARIANT;
          key = key.now;
          page_bytes = page_bytes;
          id = id.now;
        } }
    {
        FileLayout {
            key: *key,
            page_bytes,
            id: *id,
            cipher: PhantomData,
        }
    }

    /// Returns the page size, in bytes of contents.
    pub fn page_bytes(&self) -> u32
        ensures value { result ≡ self.now.page_bytes }
        ensures size { IsPageSize result }
    {
        self.page_bytes
    }

    /// Returns the page size and the file's id.
    pub fn size_and_id(&self) -> (u32, [u8; 24])
        ensures { result ≡ (self.now.page_bytes, self.now.id) }
    {
        (self.page_bytes, self.id)
    }

    /// Returns the length of a nonce.
    pub fn nonce_bytes(&self) -> usize
        ensures value { result ≡ nonce_bytes self.now }
        ensures key { result ≡ KEY_BYTES }
        ensures most { result ≤ 32 }
    {
        let _page_bytes = &self.page_bytes;
        KEY_BYTES
    }

    // What names the file, behind a magic number.
    fn named(&self, magic: &[u8; 4]) -> [u8; PLAINTEXT_HEADER_BYTES]
        ensures { result ≡ named magic.now self.now }
    {
        let page_bytes = self.page_bytes.to_le_bytes();
        let variant = [variant_byte::<L, KEY_BYTES>()];
        array_of(&[magic, &variant, &page_bytes, &self.id])
    }

    /// Returns the plaintext part of a header, which is the beginning of all associated data too.
    #[tactic(auto, unfolding(crate::specs::Layouts::plaintext_header))]
    pub fn plaintext_header(&self) -> [u8; PLAINTEXT_HEADER_BYTES]
        ensures plaintext { result ≡ plaintext_header self.now }
        ensures size { IsPageSize self.now.page_bytes }
    {
        let _page_bytes = &self.page_bytes;
        self.named(&MAGIC)
    }

    /// Returns the beginning of the file's journals, which names the file and fills a sector.
    #[tactic(auto, unfolding(crate::specs::Layouts::journal_beginning))]
    pub fn journal_beginning(&self) -> [u8; BEGINNING_BYTES]
        ensures { result ≡ journal_beginning self.now }
    {
        array_of(&[&self.named(&JOURNAL_MAGIC), &[0; PADDING_BYTES]])
    }

    /// Returns the associated data of the page of a number, or of a header.
    #[tactic(auto, unfolding(crate::specs::Layouts::page_associated_data))]
    pub fn associated_data(&self, number: u64) -> [u8; 41]
        ensures { result ≡ page_associated_data self.now number }
    {
        array_of(&[&self.plaintext_header(), &number.to_le_bytes()])
    }

    /// Returns the cipher of a nonce.
    pub fn cipher(&self, nonce: &[u8; KEY_BYTES]) -> Cipher<L, Once, KEY_BYTES, TAG_BYTES>
        ensures variant { self.now.variant ≡ L.VARIANT }
        ensures key { result.key ≡ self.now.key }
        ensures nonce { result.nonce ≡ nonce.now }
    {
        Cipher::new(&self.key, nonce)
    }

    /// Returns the key.
    pub fn key(&self) -> &[u8; KEY_BYTES]
        ensures key { result.now ≡ self.now.key }
        ensures variant { self.now.variant ≡ L.VARIANT }
        ensures long { KEY_BYTES ≡ nonce_bytes self.now }
    {
        &self.key
    }

    /// Returns how many pages contents of `len` bytes have.
    pub fn page_count(&self, len: u64) -> u64
        requires { len ≤ MAX_CONTENTS_BYTES }
        ensures count { result ≡ page_count self.now len }
        ensures within { (k : ℕ) → k < result → k * self.now.page_bytes < len }
        ensures all { (k : ℕ) → k * self.now.page_bytes < len → k < result }
        ensures few { MIN_PAGE_BYTES * result ≤ MAX_CONTENTS_BYTES + MAX_PAGE_BYTES }
    {
        let page_bytes = self.page_bytes as u64;
        (len + (page_bytes - 1)) / page_bytes
    }

    /// Returns the place of a page in the file.
    pub fn page_place(&self, number: u64) -> u64
        requires { number * self.now.page_bytes ≤ MAX_CONTENTS_BYTES + MAX_PAGE_BYTES }
        ensures place { result ≡ page_place self.now number }
        ensures within { result ≤ 4096 + 2 * (MAX_CONTENTS_BYTES + MAX_PAGE_BYTES) }
        ensures sealed_bytes { sealed_bytes self.now self.now.page_bytes ≤ MAX_PAGE_BYTES + 64 }
    {
        let sealed_bytes = self.page_bytes as u64 + (KEY_BYTES as u64 + TAG_BYTES as u64);
        PAGES_PLACE + number * sealed_bytes
    }

    /// Returns the layout that the plaintext part of a header names, for a key, or `None` if it names none of this
    /// variant.
    pub fn read(plaintext: &[u8], key: &[u8; KEY_BYTES]) -> Option<Self>
        requires key_bytes { KEY_BYTES ≡ key_length L.VARIANT.family }
        requires long { length plaintext.now ≡ PLAINTEXT_HEADER_BYTES }
        ensures plaintext { IfSome result (λ layout. plaintext.now ≡ plaintext_header layout) }
        ensures variant { IfSome result (λ layout. layout.variant ≡ L.VARIANT) }
        ensures key { IfSome result (λ layout. layout.key ≡ key.now) }
        ensures size { IfSome result (λ layout. IsPageSize layout.page_bytes) }
        ensures found { (layout : Layout) → layout.variant ≡ L.VARIANT
            → IsPageSize layout.page_bytes → plaintext.now ≡ plaintext_header layout
            → IsSome result }
    {
        let mut page_bytes = [0; 4];
        page_bytes.copy_from_slice(&plaintext[5..9]);
        let page_bytes = u32::from_le_bytes(page_bytes);
        if !is_page_size(page_bytes) {
            return None;
        }
        let mut id = [0; 24];
        id.copy_from_slice(&plaintext[9..]);
        let layout = FileLayout::new(key, page_bytes, &id);
        if layout.plaintext_header()[..] == plaintext[..] {
            Some(layout)
        } else {
            None
        }
    }
}
