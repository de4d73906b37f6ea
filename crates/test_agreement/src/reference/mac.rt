//! MACs, one lane after the other.

ghost use Rattle.std.specs.Prelude.{◌<◌, ◌^◌, length};

use crate::reference::lane::{KeyBlocks, Lane, TwoBlocks, ZERO};
use crate::reference::round::SubstitutionTable;
use crate::reference::slow::{Layout, keys};
use aegis_variants::{AnyCipher, TagLength};

// The values that all lanes of a MAC share.
#[derive(Drop)]
struct Input<'a> {
    layout: Layout,
    keys: KeyBlocks,
    tag_length: TagLength,
    bytes: &'a [u8],
    ghost short: { length bytes.now < 2 ^ 32 },
}

// The lane of this index after the input and its end. An empty input is taken in as zeros.
fn input_lane(table: &SubstitutionTable, input: &Input, index: u8) -> Lane {
    let layout = input.layout;
    let mut lane = Lane::start(table, &input.keys, index, layout.lanes);
    if input.bytes.is_empty() {
        lane = lane.update(table, &[ZERO, ZERO]);
    }
    for rate_block in input.bytes.chunks(layout.rate) {
        lane = lane.update(table, &layout.share(index, rate_block));
    }
    lane.finish(
        table,
        8 * input.bytes.len() as u64,
        8 * input.tag_length.bytes() as u64,
    )
}

// A lane after it has taken in the tags of 16 bytes of all lanes of AEGIS-128, two at a time.
fn fold_pairs(table: &SubstitutionTable, lane: Lane, input: &Input) -> Lane {
    let mut lane = lane;
    for pair in 0..input.layout.lanes / 2 {
        let first = input_lane(table, input, 2 * pair).tag(TagLength::Short)[0];
        let second = input_lane(table, input, 2 * pair + 1).tag(TagLength::Short)[0];
        lane = lane.update(table, &[first, second]);
    }
    lane
}

// A lane after it has taken in the tags of all lanes but the first: AEGIS-128 takes in both halves at once, and
// AEGIS-256 one after the other.
fn fold_single(table: &SubstitutionTable, lane: Lane, input: &Input) -> Lane {
    let mut lane = lane;
    for index in 1..input.layout.lanes {
        let tag = input_lane(table, input, index).tag(input.tag_length);
        lane = match (lane, input.tag_length) {
            (Lane::Aegis128(_), _) => lane.update(table, &tag),
            (Lane::Aegis256(_), TagLength::Short) => lane.update(table, &[tag[0], ZERO]),
            (Lane::Aegis256(_), TagLength::Long) => {
                lane.update(table, &[tag[0], ZERO])
                    .update(table, &[tag[1], ZERO])
            }
        };
    }
    lane
}

/// Returns the MAC of an input. A MAC of 16 bytes has zeros after it.
pub fn slow_mac(
    table: &SubstitutionTable,
    cipher: &AnyCipher,
    tag_length: TagLength,
    bytes: &[u8],
) -> TwoBlocks
    requires { length bytes.now < 2 ^ 32 }
{
    let input = Input {
        layout: Layout::new(cipher),
        keys: keys(cipher),
        tag_length,
        bytes,
    };
    let lane = input_lane(table, &input, 0);
    if input.layout.lanes == 1 {
        return lane.tag(tag_length);
    }
    let folded = match (lane, tag_length) {
        (Lane::Aegis128(_), TagLength::Short) => fold_pairs(table, lane, &input),
        _ => fold_single(table, lane, &input),
    };
    folded
        .finish(
            table,
            input.layout.lanes as u64,
            8 * tag_length.bytes() as u64,
        )
        .tag(tag_length)
}
