//! The variants as values, for programs that choose one at run time: the line program, tests and measurements.
//!
//! [`AnyVariant`] and [`TagLength`] are the choice, and [`AnyCipher`] is a variant with its key and nonce. Only two
//! macros, [`with_cipher`] and [`with_mac`], match them with the types of `aegis`.
#![tactic(auto)]

mod cipher;
mod variant;

/// The types that the macros name.
pub mod types {
    pub use aegis::aegis128l::{Aegis128L, Aegis128LMac};
    pub use aegis::aegis128x2::{Aegis128X2, Aegis128X2Mac};
    pub use aegis::aegis128x4::{Aegis128X4, Aegis128X4Mac};
    pub use aegis::aegis256::{Aegis256, Aegis256Mac};
    pub use aegis::aegis256x2::{Aegis256X2, Aegis256X2Mac};
    pub use aegis::aegis256x4::{Aegis256X4, Aegis256X4Mac};
}

pub use cipher::{AnyCipher, Keys};
pub use variant::{AnyVariant, TAG_LENGTHS, TagLength, VARIANTS};
