//! The constant blocks of AEGIS, and the block of two lengths.

ghost use Rattle.std.specs.Prelude.{◌≡◌};
ghost use Rattle.aegis_base.specs.Lane.{bit_lengths};

/// The constant C0 of AEGIS: the first sixteen Fibonacci numbers, modulo 256.
pub const C0: [u8; 16] = [
    0x00, 0x01, 0x01, 0x02, 0x03, 0x05, 0x08, 0x0d, 0x15, 0x22, 0x37, 0x59, 0x90, 0xe9, 0x79, 0x62,
];

/// The constant C1 of AEGIS: the next sixteen Fibonacci numbers, modulo 256.
pub const C1: [u8; 16] = [
    0xdb, 0x3d, 0x18, 0x55, 0x6d, 0xc2, 0x2f, 0xf1, 0x20, 0x11, 0x31, 0x42, 0x73, 0xb5, 0x28, 0xdd,
];

/// Returns the block of two lengths in bits, each in eight bytes, least significant first (AEGIS, Finalize).
pub fn bit_lengths(first: u64, second: u64) -> [u8; 16]
    ensures { result ≡ bit_lengths first second }
{
    let mut block = [0; 16];
    block[..8].copy_from_slice(&first.to_le_bytes());
    block[8..].copy_from_slice(&second.to_le_bytes());
    block
}
