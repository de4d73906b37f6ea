//! Rows of one, two and four blocks, and pairs of rows: each operation but the round, once at each type.

ghost use Rattle.std.specs.Prelude.{ℕ, ◌+◌, ◌*◌, ◌<◌, ◌≤◌};

use crate::tests::assert_bytes;
use aegis_aes::{AesBlock, AesBlock2, AesBlock4, Pair, Row, Rows2};
use std::process::Abort;

fn filled(byte: u8) -> AesBlock {
    AesBlock::from_bytes(&[byte; 16])
}

// The bytes 0, 1, 2 and so on.
fn counted() -> [u8; 128] {
    let mut bytes = [0; 128];
    for (i, byte) in bytes.iter_mut().enumerate() {
        *byte = (i % 256) as u8;
    }
    bytes
}

// The bytes of a row, and zeros.
fn stored<R: Row>(row: R) -> [u8; 64]
    requires { R.LANES ≤ 4 }
{
    let mut out = [0; 64];
    row.store(&mut out, 0);
    out
}

// Each operation at a type of row, whose lanes are loaded from bytes that count up.
fn works<A: Abort, R: Row>(rt: &A)
    requires { R.LANES ≤ 4 }
{
    let row = R::load(&counted(), 0);
    let mask = R::splat(filled(0x0f));
    let loaded = stored(row);
    let sum = stored(row.xor_row(mask));
    let masked = stored(row.and_row(mask));
    for i in 0..16 * R::LANES {
        let byte = i as u8;
        let found = [loaded[i], sum[i], masked[i]];
        assert_bytes(rt, &found, &[byte, byte ^ 0x0f, byte % 16], &i);
    }
    // The numbers of the first lane and of the last one.
    assert_bytes(
        rt,
        &stored(R::contexts())[..2],
        &[0, R::LANES as u8 - 1],
        &"contexts",
    );
}

// The bytes of a pair, and zeros.
fn stored_pair<P: Pair>(pair: P) -> [u8; 128]
    requires { P.Row.LANES ≤ 4 }
{
    let mut out = [0; 128];
    pair.store(&mut out, 0);
    out
}

// Each operation at a type of pair, whose rows are loaded from bytes that count up.
fn works_in_pairs<A: Abort, P: Pair>(rt: &A)
    requires { P.Row.LANES ≤ 4 }
{
    let row_bytes = 16 * P::Row::LANES;
    let pair = P::load(&counted(), 0);
    let mask = P::Row::splat(filled(0x0f));
    let joined = stored_pair(P::of(pair.first(), pair.second()));
    let swapped = stored_pair(pair.swap());
    let sum = stored_pair(pair.xor_pair(P::of(mask, mask)));
    let first_sum = stored_pair(pair.xor_first_row(mask));
    let masked = stored_pair(pair.and_pair(P::of(mask, mask)));
    for i in 0..row_bytes {
        let (first, second) = (i as u8, (row_bytes + i) as u8);
        let found = [joined[i], swapped[i], sum[i], first_sum[i], masked[i]];
        let expected = [first, second, first ^ 0x0f, first ^ 0x0f, first % 16];
        assert_bytes(rt, &found, &expected, &i);
        let at = row_bytes + i;
        let found = [joined[at], swapped[at], sum[at], first_sum[at], masked[at]];
        let expected = [second, first, second ^ 0x0f, second, second % 16];
        assert_bytes(rt, &found, &expected, &at);
    }
}

// The xor of lanes that are filled with 1, 2, 4 and 8.
fn xor_of_powers<R: Row>() -> [u8; 16]
    requires { R.LANES ≤ 4 }
{
    let mut bytes = [0; 64];
    for (i, byte) in bytes.iter_mut().enumerate() {
        *byte = 1 << (i / 16 % 4);
    }
    R::load(&bytes, 0).xor_of_lanes().to_bytes()
}

#[test]
fn rows_work_lane_by_lane(rt: HostRuntime) {
    works::<_, AesBlock>(&rt);
    works::<_, AesBlock2>(&rt);
    works::<_, AesBlock4>(&rt);
    assert_eq!(rt; xor_of_powers::<AesBlock>(), [1; 16]);
    assert_eq!(rt; xor_of_powers::<AesBlock2>(), [3; 16]);
    assert_eq!(rt; xor_of_powers::<AesBlock4>(), [15; 16]);
}

#[test]
fn pairs_work_row_by_row(rt: HostRuntime) {
    works_in_pairs::<_, AesBlock2>(&rt);
    works_in_pairs::<_, Rows2<AesBlock2>>(&rt);
    works_in_pairs::<_, Rows2<AesBlock4>>(&rt);
}
