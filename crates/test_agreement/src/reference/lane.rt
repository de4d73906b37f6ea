//! One lane, by itself.

use crate::reference::round::{PlainBlock, SubstitutionTable, and, xor};
use aegis_variants::TagLength;

/// The zero block.
pub const ZERO: PlainBlock = [0; 16];

const C0: PlainBlock = [
    0x00, 0x01, 0x01, 0x02, 0x03, 0x05, 0x08, 0x0d, 0x15, 0x22, 0x37, 0x59, 0x90, 0xe9, 0x79, 0x62,
];

const C1: PlainBlock = [
    0xdb, 0x3d, 0x18, 0x55, 0x6d, 0xc2, 0x2f, 0xf1, 0x20, 0x11, 0x31, 0x42, 0x73, 0xb5, 0x28, 0xdd,
];

/// The key and the nonce of a cipher.
#[derive(Drop)]
pub enum KeyBlocks {
    Aegis128 { key: [u8; 16], nonce: [u8; 16] },
    Aegis256 { key: [u8; 32], nonce: [u8; 32] },
}

/// The rows of a lane.
#[derive(Clone, Copy)]
pub enum Lane {
    Aegis128([PlainBlock; 8]),
    Aegis256([PlainBlock; 6]),
}

/// Two blocks: the input of an update of a lane, a piece of its keystream, or a tag. If there is only one block, the
/// second is zero.
pub type TwoBlocks = [PlainBlock; 2];

// The context block of a lane: its index and the last index. It is zero for a single lane.
fn context(index: u8, lanes: u8) -> PlainBlock {
    let mut block = ZERO;
    block[0] = index;
    block[1] = lanes.saturating_sub(1);
    block
}

/// The halves of 32 bytes.
pub fn halves(bytes: &[u8; 32]) -> TwoBlocks {
    let mut low = ZERO;
    let mut high = ZERO;
    low.copy_from_slice(&bytes[..16]);
    high.copy_from_slice(&bytes[16..]);
    [low, high]
}

fn start_128(
    table: &SubstitutionTable,
    key: &PlainBlock,
    nonce: &PlainBlock,
    context: &PlainBlock,
) -> Lane {
    let both = xor(key, nonce);
    let key_c0 = xor(key, &C0);
    let key_c1 = xor(key, &C1);
    let mut rows = [both, C1, C0, C1, both, key_c0, key_c1, key_c0];
    for _ in 0..10u8 {
        rows[3] = xor(&rows[3], context);
        rows[7] = xor(&rows[7], context);
        rows = update_128(table, &rows, nonce, key);
    }
    Lane::Aegis128(rows)
}

fn start_256(
    table: &SubstitutionTable,
    key: &TwoBlocks,
    nonce: &TwoBlocks,
    context: &PlainBlock,
) -> Lane {
    let low = xor(&key[0], &nonce[0]);
    let high = xor(&key[1], &nonce[1]);
    let mut rows = [low, high, C1, C0, xor(&key[0], &C0), xor(&key[1], &C1)];
    for _ in 0..4u8 {
        for input in [key[0], key[1], low, high] {
            rows[3] = xor(&rows[3], context);
            rows[5] = xor(&rows[5], context);
            rows = update_256(table, &rows, &input);
        }
    }
    Lane::Aegis256(rows)
}

fn update_128(
    table: &SubstitutionTable,
    old: &[PlainBlock; 8],
    first: &PlainBlock,
    second: &PlainBlock,
) -> [PlainBlock; 8] {
    let mut new = [ZERO; 8];
    for i in 0..8usize {
        new[i] = table.round(&old[(i + 7) % 8], &old[i]);
    }
    new[0] = xor(&new[0], first);
    new[4] = xor(&new[4], second);
    new
}

fn update_256(
    table: &SubstitutionTable,
    old: &[PlainBlock; 6],
    input: &PlainBlock,
) -> [PlainBlock; 6] {
    let mut new = [ZERO; 6];
    for i in 0..6usize {
        new[i] = table.round(&old[(i + 5) % 6], &old[i]);
    }
    new[0] = xor(&new[0], input);
    new
}

// The xor of rows.
fn sum(rows: &[PlainBlock]) -> PlainBlock {
    let mut total = ZERO;
    for row in rows {
        total = xor(&total, row);
    }
    total
}

// Two numbers, each in eight bytes, least first.
fn two_numbers(first: u64, second: u64) -> PlainBlock {
    let mut block = ZERO;
    block[..8].copy_from_slice(&first.to_le_bytes());
    block[8..].copy_from_slice(&second.to_le_bytes());
    block
}

impl Lane {
    /// Returns the lane of this index, of so many lanes, after its start.
    pub fn start(table: &SubstitutionTable, keys: &KeyBlocks, index: u8, lanes: u8) -> Lane {
        let context = context(index, lanes);
        match keys {
            KeyBlocks::Aegis128 { key, nonce } => start_128(table, key, nonce, &context),
            KeyBlocks::Aegis256 { key, nonce } => start_256(
                table,
                &halves(key),
                &halves(nonce),
                &context,
            ),
        }
    }

    /// Returns the lane after one update.
    pub fn update(self, table: &SubstitutionTable, share: &TwoBlocks) -> Lane {
        match self {
            Lane::Aegis128(rows) => Lane::Aegis128(update_128(table, &rows, &share[0], &share[1])),
            Lane::Aegis256(rows) => Lane::Aegis256(update_256(table, &rows, &share[0])),
        }
    }

    /// Returns the next piece of the lane's keystream.
    pub fn keystream(&self) -> TwoBlocks {
        match self {
            Lane::Aegis128(s) => [
                sum(&[s[6], s[1], and(&s[2], &s[3])]),
                sum(&[s[2], s[5], and(&s[6], &s[7])]),
            ],
            Lane::Aegis256(s) => [sum(&[s[1], s[4], s[5], and(&s[2], &s[3])]), ZERO],
        }
    }

    /// Returns the lane after its end, which takes in two numbers.
    pub fn finish(self, table: &SubstitutionTable, first: u64, second: u64) -> Lane {
        let row = match self {
            Lane::Aegis128(rows) => rows[2],
            Lane::Aegis256(rows) => rows[3],
        };
        let last = xor(&row, &two_numbers(first, second));
        let mut lane = self;
        for _ in 0..7u8 {
            lane = lane.update(table, &[last, last]);
        }
        lane
    }

    // The lane's tag of 16 bytes. In AEGIS-128 the last row does not enter it.
    fn short_tag(&self) -> PlainBlock {
        match self {
            Lane::Aegis128(rows) => sum(&rows[..7]),
            Lane::Aegis256(rows) => sum(rows),
        }
    }

    /// Returns the lane's tag. A tag of 16 bytes has zeros after it.
    pub fn tag(&self, tag_length: TagLength) -> TwoBlocks {
        match tag_length {
            TagLength::Short => [self.short_tag(), ZERO],
            TagLength::Long => self.long_tag(),
        }
    }

    // The halves of the lane's tag of 32 bytes.
    fn long_tag(&self) -> TwoBlocks {
        match self {
            Lane::Aegis128(rows) => [sum(&rows[..4]), sum(&rows[4..])],
            Lane::Aegis256(rows) => [sum(&rows[..3]), sum(&rows[3..])],
        }
    }
}
