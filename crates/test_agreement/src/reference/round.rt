//! The round of AES, step by step as FIPS 197 defines it.

/// Sixteen bytes: byte `4c + r` is row r of column c.
pub type PlainBlock = [u8; 16];

// A byte as a polynomial over GF(2), times x.
fn xtime(a: u8) -> u8 {
    if a < 0x80 {
        a << 1
    } else {
        ((a & 0x7f) << 1) ^ 0x1b
    }
}

// The product of two polynomials, as bytes.
fn product(a: u8, b: u8) -> u8 {
    let mut sum = 0;
    let mut shifted = a;
    for i in 0..8u32 {
        if (b >> i) & 1 == 1 {
            sum ^= shifted;
        }
        shifted = xtime(shifted);
    }
    sum
}

// The byte whose product with `a` is 1, found by trying all bytes, or 0 if there is none.
fn inverse(a: u8) -> u8 {
    for b in 0..=255u8 {
        if product(a, b) == 1 {
            return b;
        }
    }
    0
}

fn bit(a: u8, i: u32) -> u8 {
    (a >> (i % 8)) & 1
}

// The inverse and then the affine step, bit by bit.
fn substitute(a: u8) -> u8 {
    let b = inverse(a);
    let mut substituted = 0;
    for i in 0..8u32 {
        let sum = bit(b, i)
            ^ bit(b, i + 4)
            ^ bit(b, i + 5)
            ^ bit(b, i + 6)
            ^ bit(b, i + 7)
            ^ bit(0x63, i);
        if sum == 1 {
            substituted |= 1 << i;
        }
    }
    substituted
}

/// SubBytes of each byte, computed once.
#[derive(Drop)]
pub struct SubstitutionTable {
    bytes: [u8; 256],
}

impl SubstitutionTable {
    /// Computes the table.
    pub fn new() -> SubstitutionTable {
        let mut bytes = [0; 256];
        for a in 0..=255u8 {
            bytes[a as usize] = substitute(a);
        }
        SubstitutionTable { bytes }
    }

    fn substitute_block(&self, block: &PlainBlock) -> PlainBlock {
        let mut substituted = *block;
        for byte in substituted.iter_mut() {
            *byte = self.bytes[*byte as usize];
        }
        substituted
    }

    /// One round. The key is added last.
    pub fn round(&self, block: &PlainBlock, key: &PlainBlock) -> PlainBlock {
        xor(
            &mix_columns(&shift_rows(&self.substitute_block(block))),
            key,
        )
    }
}

// Row r moves left by r columns.
fn shift_rows(block: &PlainBlock) -> PlainBlock {
    let mut shifted = [0; 16];
    for column in 0..4usize {
        for row in 0..4usize {
            shifted[4 * column + row] = block[4 * ((column + row) % 4) + row];
        }
    }
    shifted
}

fn mix_columns(block: &PlainBlock) -> PlainBlock {
    let mut mixed = [0; 16];
    for column in 0..4usize {
        let start = 4 * column;
        for row in 0..4usize {
            let a = block[start + row];
            let b = block[start + (row + 1) % 4];
            let c = block[start + (row + 2) % 4];
            let d = block[start + (row + 3) % 4];
            // the matrix has 2, 3, 1, 1 from the diagonal on
            mixed[start + row] = xtime(a) ^ (xtime(b) ^ b) ^ c ^ d;
        }
    }
    mixed
}

/// Returns the bitwise xor of two blocks.
pub fn xor(a: &PlainBlock, b: &PlainBlock) -> PlainBlock {
    let mut sum = [0; 16];
    for i in 0..16usize {
        sum[i] = a[i] ^ b[i];
    }
    sum
}

/// Returns the bitwise and of two blocks.
pub fn and(a: &PlainBlock, b: &PlainBlock) -> PlainBlock {
    let mut both = [0; 16];
    for i in 0..16usize {
        both[i] = a[i] & b[i];
    }
    both
}
