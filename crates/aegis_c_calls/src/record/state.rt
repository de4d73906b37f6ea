//! The state of a record stream, which C owns between two calls.

ghost use Rattle.std.specs.Prelude.{◌≡◌};
ghost use Rattle.aegis_c_calls.specs.Codes.{position_of};

use aegis::record::{RecordPosition, Version};

/// A record stream between two calls: its key and prefix, and the position of its next record.
#[repr(C)]
#[derive(Clone, Copy)]
pub struct RecordState {
    /// [`SEALING`] or [`OPENING`].
    pub mark: u64,
    /// The next record's number, from 0.
    pub number: u64,
    /// How many bytes the messages before it have.
    pub before: u64,
    pub key: [u8; 32],
    pub prefix: [u8; 24],
}

/// The mark of a stream that is sealed. Other bytes are unlikely to have it by chance.
pub const SEALING: u64 = 0x6165_6769_735f_7273;

/// The mark of a stream that is opened.
pub const OPENING: u64 = 0x6165_6769_735f_726f;

/// A state after its end: zeros.
pub const ENDED: RecordState = RecordState {
    mark: 0,
    number: 0,
    before: 0,
    key: [0; 32],
    prefix: [0; 24],
};

/// Returns the position of the next record of a state's stream.
pub fn position(st: &RecordState) -> RecordPosition
    ensures { result ≡ position_of st.now }
{
    RecordPosition {
        version: Version::Second,
        number: st.number,
        before: st.before,
    }
}

// The size of a state in the header.
const _: () = prove!(size_of::<RecordState>() == 80);
