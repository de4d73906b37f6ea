//! Laws: functions that do nothing, and whose contracts are facts about the definitions that the other contracts cite.
//!
//! A function that calls a law may use its fact:
//!
//! ```
//! pub fn open_records_of_its_length<A: Allocator + Copy>(
//!     alloc: A,
//!     key: &[u8; 32],
//!     prefix: &[u8; 24],
//!     context: &[u8],
//!     stream: &[u8],
//! ) -> Result<Vec<Vec<u8, A>, A>, RecordError>
//!     requires { length context.now ≤ MAX_CONTEXT_BYTES }
//!     ensures { IfOk result (λ opened. length stream.now ≡ records_length (messages opened.items)) }
//! {
//!     record_stream_lengths();
//!     open_records(alloc, key, prefix, context, stream)
//! }
//! ```

ghost use Rattle.std.specs.Prelude.{◌≡◌};
ghost use Rattle.aegis_base.specs.Variant as base;
ghost use Rattle.aegis_base.specs.Variant.{Variant};

use crate::aegis128l::{Aegis128L, Aegis128LMac};
use crate::aegis128x2::{Aegis128X2, Aegis128X2Mac};
use crate::aegis128x4::{Aegis128X4, Aegis128X4Mac};
use crate::aegis256::{Aegis256, Aegis256Mac};
use crate::aegis256x2::{Aegis256X2, Aegis256X2Mac};
use crate::aegis256x4::{Aegis256X4, Aegis256X4Mac};
pub use crate::record::laws::{
    damaged_within, erased_message, one_fault, one_record_stream, record_limits,
    record_stream_lengths,
};
use aegis_base::LaneState;
pub use aegis_base::laws::{
    bijection, ciphertext_prefix, init_of_one_lane, keystream_is_sealed_zeros, keystream_prefix,
    keystream_shared, keystream_xor_twice, lane_independence, limits, mac_of_tags, tag_lengths,
};
use aegis_engine::{Cipher, Mac};

/// A type that has a variant, such as [`Cipher`]. Only contracts name it.
pub trait HasVariant {
    // The variant.
    ghost VARIANT: { Variant };
}

impl<S: LaneState, U, const KEY_BYTES: usize, const TAG_BYTES: usize> HasVariant
    for Cipher<S, U, KEY_BYTES, TAG_BYTES> {
    // In the contracts of a cipher it is `S.VARIANT`.
    ghost VARIANT = { S.VARIANT };
}

impl<S: LaneState, const KEY_BYTES: usize, const TAG_BYTES: usize> HasVariant
    for Mac<S, KEY_BYTES, TAG_BYTES> {
    // In the contracts of a MAC it is `S.VARIANT`.
    ghost VARIANT = { S.VARIANT };
}

/// The variant of each cipher, and of its MAC, is the one of its name.
pub fn variants<const TAG_BYTES: usize>()
    ensures aegis128l { (⟦<Aegis128L<TAG_BYTES> as HasVariant>⟧.VARIANT ≡ base.Aegis128L)
        × (⟦<Aegis128LMac<TAG_BYTES> as HasVariant>⟧.VARIANT ≡ base.Aegis128L) }
    ensures aegis128x2 { (⟦<Aegis128X2<TAG_BYTES> as HasVariant>⟧.VARIANT ≡ base.Aegis128X2)
        × (⟦<Aegis128X2Mac<TAG_BYTES> as HasVariant>⟧.VARIANT ≡ base.Aegis128X2) }
    ensures aegis128x4 { (⟦<Aegis128X4<TAG_BYTES> as HasVariant>⟧.VARIANT ≡ base.Aegis128X4)
        × (⟦<Aegis128X4Mac<TAG_BYTES> as HasVariant>⟧.VARIANT ≡ base.Aegis128X4) }
    ensures aegis256 { (⟦<Aegis256<TAG_BYTES> as HasVariant>⟧.VARIANT ≡ base.Aegis256)
        × (⟦<Aegis256Mac<TAG_BYTES> as HasVariant>⟧.VARIANT ≡ base.Aegis256) }
    ensures aegis256x2 { (⟦<Aegis256X2<TAG_BYTES> as HasVariant>⟧.VARIANT ≡ base.Aegis256X2)
        × (⟦<Aegis256X2Mac<TAG_BYTES> as HasVariant>⟧.VARIANT ≡ base.Aegis256X2) }
    ensures aegis256x4 { (⟦<Aegis256X4<TAG_BYTES> as HasVariant>⟧.VARIANT ≡ base.Aegis256X4)
        × (⟦<Aegis256X4Mac<TAG_BYTES> as HasVariant>⟧.VARIANT ≡ base.Aegis256X4) }
{}
