//! Saved lanes: their rows as bytes, which a caller may keep between two calls.

ghost use Rattle.std.specs.Prelude.{◌≡◌, ℕ, ◌<◌};
ghost use Rattle.aegis_base.specs.SavedLanes.{saved_lane};

use crate::state::LaneState;

/// The rows of up to four lanes, in pairs. Each array begins with the blocks of the pair's first row, lane after lane,
/// and then those of its second row. Its other bytes have no meaning. A variant of the family 256 has three pairs, and
/// does not use `fourth_pair`.
#[repr(C)]
#[derive(Clone, Copy)]
pub struct SavedRows {
    pub first_pair: [u8; 128],
    pub second_pair: [u8; 128],
    pub third_pair: [u8; 128],
    pub fourth_pair: [u8; 128],
}

/// States whose lanes can be written to bytes and read back.
pub trait SavedLanes: LaneState {
    /// Writes the lanes' rows into `rows`.
    fn save(self, rows: &mut SavedRows)
        ensures { (j : ℕ) → j < Self.VARIANT.lanes
            → saved_lane Self.VARIANT rows.new j ≡ Self.lane self j };

    /// Returns the lanes that `rows` holds, with `count` updates since initialization.
    fn restore(rows: &SavedRows, count: u64) -> Self
        ensures lanes { (j : ℕ) → j < Self.VARIANT.lanes
            → Self.lane result j ≡ saved_lane Self.VARIANT rows.now j }
        ensures updates { Self.updates result ≡ count };
}
