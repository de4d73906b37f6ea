//! The round of FIPS 197 at known blocks: a plain round, and each round of the library, of blocks, rows and pairs,
//! whose blocks in the other places differ.

ghost use Rattle.std.specs.Prelude.{ℕ, ◌+◌, ◌*◌, ◌<◌, ◌≤◌};

mod rows;

use aegis_aes::field::power_254;
use aegis_aes::{AesBlock, AesBlock2, AesBlock4, Pair, Row, Rows2};
use std::fmt::Debug;
use std::process::Abort;
use std::simd::prelude::*;

// Asserts that bytes are the expected ones, and names the case otherwise.
fn assert_bytes<R: Abort, C: Debug>(rt: &R, bytes: &[u8], expected: &[u8], case: &C) {
    assert_eq!(rt; bytes, expected, "{case:?}");
}

// Blocks, their keys, and the blocks after a round.
const KNOWN: [(u128, u128, u128); 4] = [
    (0, 0, 0x63636363636363636363636363636363),
    (
        0x000102030405060708090a0b0c0d0e0f,
        0x101112131415161718191a1b1c1d1e1f,
        0x7a7b4e5638782546a8c0477a3b813f43,
    ),
    // The first rounds of FIPS 197's appendices B and C.1.
    (
        0x193de3bea0f4e22b9ac68d2ae9f84808,
        0xa0fafe1788542cb123a339392a6c7605,
        0xa49c7ff2689f352b6b5bea43026a5049,
    ),
    (
        0x00102030405060708090a0b0c0d0e0f0,
        0xd6aa74fdd2af72fadaa678f1d6ab76fe,
        0x89d810e8855ace682d1843d8cb128fe4,
    ),
];

// The block of the sixteen bytes that a number has, its highest byte first.
fn block(bytes: u128) -> AesBlock {
    AesBlock::from_bytes(&bytes.to_be_bytes())
}

// Asserts that a block is the one of a number's bytes.
fn assert_block<R: Abort>(rt: &R, found: AesBlock, expected: u128) {
    assert_bytes(rt, &found.to_bytes(), &expected.to_be_bytes(), &expected);
}

#[test]
fn rounds_of_known_blocks(rt: HostRuntime) {
    for (start, key, end) in KNOWN {
        let plain = plain_round(start.to_be_bytes(), key.to_be_bytes());
        assert_block(&rt, AesBlock::from_bytes(&plain), end);
        assert_block(&rt, block(start).round(block(key)), end);
    }
}

// The product of two bytes (FIPS 197, section 4.2).
fn product(a: u8, b: u8) -> u8 {
    let mut power = a;
    let mut sum = 0;
    for i in 0..8u32 {
        if b >> i & 1 == 1 {
            sum ^= power;
        }
        let reduction = if power < 0x80 { 0 } else { 0x1b };
        power = power << 1 ^ reduction;
    }
    sum
}

// The inverse, by trying all bytes.
fn plain_inverse(a: u8) -> u8 {
    for b in 0..=255 {
        if product(a, b) == 1 {
            return b;
        }
    }
    0
}

// SubBytes of one byte (FIPS 197, section 5.1.1).
fn plain_substitute(a: u8) -> u8 {
    let b = plain_inverse(a);
    b ^ b.rotate_left(1) ^ b.rotate_left(2) ^ b.rotate_left(3) ^ b.rotate_left(4) ^ 0x63
}

// A round with the key added last (FIPS 197, sections 5.1.1 to 5.1.4).
fn plain_round(block: [u8; 16], key: [u8; 16]) -> [u8; 16] {
    let mut shifted = [0; 16];
    for c in 0..4usize {
        for r in 0..4usize {
            shifted[4 * c + r] = plain_substitute(block[4 * ((c + r) % 4) + r]);
        }
    }
    let mut end = key;
    for c in 0..4usize {
        for r in 0..4usize {
            end[4 * c + r] ^= product(2, shifted[4 * c + r])
                ^ product(3, shifted[4 * c + (r + 1) % 4])
                ^ shifted[4 * c + (r + 2) % 4]
                ^ shifted[4 * c + (r + 3) % 4];
        }
    }
    end
}

// For each byte, the products of its substitute with the first column of the matrix of MixColumns (FIPS 197, section
// 5.1.3). The products with the others are the same, rotated.
fn first_columns() -> [[u8; 4]; 256] {
    let mut columns = [[0; 4]; 256];
    for a in 0..=255u8 {
        let s = plain_substitute(a);
        columns[a as usize] = [product(2, s), s, s, product(3, s)];
    }
    columns
}

// A round by this table.
fn round_by_columns(columns: &[[u8; 4]; 256], block: [u8; 16], key: [u8; 16]) -> [u8; 16] {
    let mut end = key;
    for c in 0..4usize {
        for i in 0..4usize {
            let column = columns[block[4 * ((c + i) % 4) + i] as usize];
            for r in 0..4usize {
                end[4 * c + r] ^= column[(r + 4 - i) % 4];
            }
        }
    }
    end
}

// Asserts that both rounds of a block are those by the table.
fn check_by_columns<R: Abort>(rt: &R, columns: &[[u8; 4]; 256], start: u128) {
    let (_, key, _) = KNOWN[1];
    let end = u128::from_be_bytes(round_by_columns(
        columns,
        start.to_be_bytes(),
        key.to_be_bytes(),
    ));
    assert_block(rt, block(start).round(block(key)), end);
    assert_block(
        rt,
        block(start).sub_bytes_row().complete_row(block(key)),
        end,
    );
}

// Blocks of sixteen equal bytes, and the rotations of one whose bytes differ.
#[test]
fn rounds_beside_a_table(rt: HostRuntime) {
    let columns = first_columns();
    assert_bytes(&rt, &columns[0x00], &[0xc6, 0x63, 0x63, 0xa5], &0x00);
    assert_bytes(&rt, &columns[0x01], &[0xf8, 0x7c, 0x7c, 0x84], &0x01);
    assert_bytes(&rt, &columns[0x53], &[0xc1, 0xed, 0xed, 0x2c], &0x53);
    assert_bytes(&rt, &columns[0xff], &[0x2c, 0x16, 0x16, 0x3a], &0xff);
    for byte in 0..=255u8 {
        check_by_columns(&rt, &columns, u128::from_be_bytes([byte; 16]));
    }
    let (start, _, _) = KNOWN[1];
    for turn in 0..16u32 {
        check_by_columns(&rt, &columns, start.rotate_left(8 * turn));
    }
}

#[test]
fn inverses_and_substitutes_of_known_bytes(rt: HostRuntime) {
    let known = [0x53, 0x01, 0x00, 0xca];
    let inverses = power_254(u8x4::from_array(known)).to_array();
    assert_bytes(&rt, &inverses, &[0xca, 0x01, 0x00, 0x53], &known);
    for (byte, substitute) in [(0x53, 0xed), (0x01, 0x7c), (0x00, 0x63)] {
        // MixColumns leaves a column of equal bytes as it is.
        let start = AesBlock::from_bytes(&[byte; 16]);
        let key = AesBlock::default();
        for end in [start.round(key), start.sub_bytes_row().complete_row(key)] {
            assert_bytes(&rt, &end.to_bytes(), &[substitute; 16], &byte);
        }
    }
}

// The bytes of eight blocks, as many as two rows of four lanes have.
const BYTES: usize = 128;

// How many cases there are: sixteen that have each byte once, and the known blocks.
const CASES: usize = 16 + KNOWN.len();

// A block and its key.
fn case(number: usize) -> (u128, u128)
    requires { number < 20 }
{
    if number < 16 {
        let counted = 0x000102030405060708090a0b0c0d0e0f;
        return (counted ^ u128::from_be_bytes([16 * number as u8; 16]), 0);
    }
    let (start, key, _) = KNOWN[number - 16];
    (start, key)
}

// Eight blocks and their keys, no two of them alike, and the ends of their rounds.
#[derive(Drop)]
struct Places {
    blocks: [u8; BYTES],
    keys: [u8; BYTES],
    ends: [u8; BYTES],
}

impl Places {
    // The first block and key are those of a case, and each other place changes all of their bytes.
    fn of_case(number: usize) -> Places
        requires { number < 20 }
    {
        let (start, key) = case(number);
        let mut places = Places {
            blocks: [0; BYTES],
            keys: [0; BYTES],
            ends: [0; BYTES],
        };
        for place in 0..8usize {
            let change = u128::from_be_bytes([17 * place as u8; 16]);
            let block = (start ^ change).to_be_bytes();
            let key = (key ^ change).to_be_bytes();
            let at = 16 * place;
            places.blocks[at..at + 16].copy_from_slice(&block);
            places.keys[at..at + 16].copy_from_slice(&key);
            places.ends[at..at + 16].copy_from_slice(&plain_round(block, key));
        }
        places
    }

    // Asserts that the lanes of a row are the first places after their rounds.
    fn check<R: Row>(&self, rt: &impl Abort, end: R)
        requires { R.LANES ≤ 4 }
    {
        let mut bytes = [0; BYTES];
        end.store(&mut bytes, 0);
        let count = 16 * R::LANES;
        assert_bytes(rt, &bytes[..count], &self.ends[..count], &"a row");
    }
}

#[test]
fn rounds_of_blocks(rt: HostRuntime) {
    for number in 0..CASES {
        let places = Places::of_case(number);
        let (blocks, keys) = (&places.blocks, &places.keys);
        let two = <AesBlock2 as Row>::load(blocks, 0);
        places.check(
            &rt,
            AesBlock2::round(&two, <AesBlock2 as Row>::load(keys, 0)),
        );
        let four = AesBlock4::load(blocks, 0);
        places.check(&rt, AesBlock4::round(&four, AesBlock4::load(keys, 0)));
    }
}

fn check_round_row<R: Row>(rt: &impl Abort)
    requires { R.LANES ≤ 4 }
{
    for number in 0..CASES {
        let places = Places::of_case(number);
        let key = R::load(&places.keys, 0);
        places.check(
            rt,
            R::load(&places.blocks, 0).sub_bytes_row().complete_row(key),
        );
    }
}

#[test]
fn rounds_of_rows(rt: HostRuntime) {
    check_round_row::<AesBlock>(&rt);
    check_round_row::<AesBlock2>(&rt);
    check_round_row::<AesBlock4>(&rt);
}

// The round of a pair, whose rows are the first places.
fn check_round_pair<P: Pair>(rt: &impl Abort)
    requires { P.Row.LANES ≤ 4 }
{
    for number in 0..CASES {
        let places = Places::of_case(number);
        let mut end = P::load(&places.keys, 0);
        end.update_from(&P::load(&places.blocks, 0));
        let mut bytes = [0; BYTES];
        end.store(&mut bytes, 0);
        let count = 32 * P::Row::LANES;
        assert_bytes(rt, &bytes[..count], &places.ends[..count], &number);
    }
}

#[test]
fn rounds_of_pairs(rt: HostRuntime) {
    check_round_pair::<AesBlock2>(&rt);
    check_round_pair::<Rows2<AesBlock2>>(&rt);
    check_round_pair::<Rows2<AesBlock4>>(&rt);
}
