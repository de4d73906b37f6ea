//! Sealing, one lane after the other.

ghost use Rattle.std.specs.Prelude.{◌<◌, ◌^◌, length};

use crate::reference::lane::{KeyBlocks, Lane, TwoBlocks, ZERO};
use crate::reference::round::{PlainBlock, SubstitutionTable, xor};
use aegis_variants::{AnyCipher, TagLength};

/// The places of the lanes' blocks in a rate block.
#[derive(Clone, Copy)]
pub struct Layout {
    pub lanes: u8,
    /// the bytes that all lanes take in at once
    pub rate: usize,
    /// Where the second blocks of the lanes begin, after all the first ones. AEGIS-256 has none.
    pub second: Option<u32>,
    ghost takes_bytes: { 0 < rate },
}

impl Layout {
    /// Returns the layout of a cipher's variant.
    pub fn new(cipher: &AnyCipher) -> Layout {
        match cipher {
            AnyCipher::Aegis128L(_) => Layout {
                lanes: 1,
                rate: 32,
                second: Some(16),
            },
            AnyCipher::Aegis128X2(_) => Layout {
                lanes: 2,
                rate: 64,
                second: Some(32),
            },
            AnyCipher::Aegis128X4(_) => Layout {
                lanes: 4,
                rate: 128,
                second: Some(64),
            },
            AnyCipher::Aegis256(_) => Layout {
                lanes: 1,
                rate: 16,
                second: None,
            },
            AnyCipher::Aegis256X2(_) => Layout {
                lanes: 2,
                rate: 32,
                second: None,
            },
            AnyCipher::Aegis256X4(_) => Layout {
                lanes: 4,
                rate: 64,
                second: None,
            },
        }
    }

    /// Returns the blocks that a lane takes in of a rate block.
    pub fn share(&self, index: u8, rate_block: &[u8]) -> TwoBlocks {
        let first = 16 * index as usize;
        let second = match self.second {
            Some(second) => block_at(rate_block, second as usize + first),
            None => ZERO,
        };
        [block_at(rate_block, first), second]
    }

    // Xors a lane's bytes of a rate block with its keystream.
    fn xor_share(&self, index: u8, rate_block: &mut [u8], keystream: &TwoBlocks) {
        let first = 16 * index as usize;
        xor_at(rate_block, first, &keystream[0]);
        if let Some(second) = self.second {
            xor_at(rate_block, second as usize + first, &keystream[1]);
        }
    }
}

// The block that begins at place `at`, with zeros past the end.
fn block_at(bytes: &[u8], at: usize) -> PlainBlock
    requires { at < 2 ^ 33 }
{
    let mut block = ZERO;
    for i in 0..16usize {
        if let Some(byte) = bytes.get(at + i) {
            block[i] = *byte;
        }
    }
    block
}

// Xors the block that begins at place `at`, as far as there are bytes.
fn xor_at(bytes: &mut [u8], at: usize, block: &PlainBlock)
    requires { at < 2 ^ 33 }
{
    for i in 0..16usize {
        if let Some(byte) = bytes.get_mut(at + i) {
            *byte ^= block[i];
        }
    }
}

/// The key and the nonce of a cipher.
pub fn keys(cipher: &AnyCipher) -> KeyBlocks {
    match cipher {
        AnyCipher::Aegis128L(keys) | AnyCipher::Aegis128X2(keys) | AnyCipher::Aegis128X4(keys) => {
            KeyBlocks::Aegis128 {
                key: keys.key,
                nonce: keys.nonce,
            }
        }
        AnyCipher::Aegis256(keys) | AnyCipher::Aegis256X2(keys) | AnyCipher::Aegis256X4(keys) => {
            KeyBlocks::Aegis256 {
                key: keys.key,
                nonce: keys.nonce,
            }
        }
    }
}

// Seals the bytes of one lane in place, and returns the lane at its end.
fn seal_lane(
    table: &SubstitutionTable,
    layout: Layout,
    start: Lane,
    index: u8,
    ad: &[u8],
    buffer: &mut [u8],
) -> Lane
    requires ad { length ad.now < 2 ^ 32 }
    requires message { length buffer.old < 2 ^ 32 }
{
    let ad_bits = 8 * ad.len() as u64;
    let message_bits = 8 * buffer.len() as u64;
    let mut lane = start;
    for rate_block in ad.chunks(layout.rate) {
        lane = lane.update(table, &layout.share(index, rate_block));
    }
    for rate_block in buffer.chunks_mut(layout.rate) {
        let plain = layout.share(index, rate_block);
        layout.xor_share(index, rate_block, &lane.keystream());
        lane = lane.update(table, &plain);
    }
    lane.finish(table, ad_bits, message_bits)
}

/// Seals a message in place, and returns the tag. A tag of 16 bytes has zeros after it.
pub fn slow_seal(
    table: &SubstitutionTable,
    cipher: &AnyCipher,
    tag_length: TagLength,
    ad: &[u8],
    buffer: &mut [u8],
) -> TwoBlocks
    requires ad { length ad.now < 2 ^ 32 }
    requires message { length buffer.old < 2 ^ 32 }
{
    let layout = Layout::new(cipher);
    let keys = keys(cipher);
    let mut tag = [ZERO; 2];
    for index in 0..layout.lanes {
        let start = Lane::start(table, &keys, index, layout.lanes);
        let lane = seal_lane(table, layout, start, index, ad, buffer);
        let lane_tag = lane.tag(tag_length);
        tag = [xor(&tag[0], &lane_tag[0]), xor(&tag[1], &lane_tag[1])];
    }
    tag
}
