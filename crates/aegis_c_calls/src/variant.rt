//! The variants by the numbers that C has for them.

ghost use Rattle.std.specs.Prelude.{◌≡◌};
ghost use Rattle.aegis_c_calls.specs.Codes.{key_bytes_of, variant_numbered};

pub const AEGIS128L: u32 = 0;

pub const AEGIS128X2: u32 = 1;

pub const AEGIS128X4: u32 = 2;

pub const AEGIS256: u32 = 3;

pub const AEGIS256X2: u32 = 4;

pub const AEGIS256X4: u32 = 5;

/// Returns the length of the variant's keys, and of its nonces, in bytes. Returns 0 if no variant has this number.
pub fn key_bytes(variant: u32) -> usize
    ensures { result ≡ key_bytes_of (variant_numbered variant) }
{
    match variant {
        AEGIS128L | AEGIS128X2 | AEGIS128X4 => 16,
        AEGIS256 | AEGIS256X2 | AEGIS256X4 => 32,
        _ => 0,
    }
}
