//! The library beside the slow functions of `reference`, one lane at a time: ciphertexts, tags and MACs.

ghost use Rattle.std.specs.Prelude.{◌<◌, ◌^◌, ◌≤◌, length};

use crate::reference::{SubstitutionTable, TwoBlocks, halves, slow_mac, slow_seal};
use aegis_variants::{AnyCipher, AnyVariant, Keys, TAG_LENGTHS, TagLength, VARIANTS};
use std::{fmt, io};

// The longest message or associated data: one byte more than two rate blocks of 128 bytes.
const LONGEST: usize = 257;

// The key and the nonce of the AEGIS-128 ciphers.
const SHORT_KEYS: Keys<16> = Keys {
    key: *b"lane by lane 128",
    nonce: *b"one nonce, once.",
};

// The key and the nonce of the AEGIS-256 ciphers.
const LONG_KEYS: Keys<32> = Keys {
    key: *b"lane by lane, one after another.",
    nonce: *b"a longer nonce, also used once..",
};

// The length of the message as the associated data grows, and the other way round.
const FIXED: usize = 17;

// Seals a message in place. A tag of 16 bytes has zeros after it.
fn library_seal(
    cipher: &AnyCipher,
    tag_length: TagLength,
    ad: &[u8],
    buffer: &mut [u8],
) -> TwoBlocks
    requires ad { length ad.now < 2 ^ 32 }
    requires message { length buffer.old < 2 ^ 32 }
{
    match tag_length {
        TagLength::Short => [cipher.encrypt_in_place(buffer, ad), [0; 16]],
        TagLength::Long => halves(&cipher.encrypt_in_place(buffer, ad)),
    }
}

// Returns the MAC of an input. A MAC of 16 bytes has zeros after it.
fn library_mac(cipher: &AnyCipher, tag_length: TagLength, input: &[u8]) -> TwoBlocks
    requires { length input.now < 2 ^ 32 }
{
    match tag_length {
        TagLength::Short => [cipher.mac_chunks(&[input]), [0; 16]],
        TagLength::Long => halves(&cipher.mac_chunks(&[input])),
    }
}

// Lengths at which the library and the slow functions differ.
#[derive(Clone, Copy)]
struct Difference {
    what: &'static str,
    message_bytes: usize,
    ad_bytes: usize,
}

impl fmt::Display for Difference {
    fn fmt<W: fmt::Write>(&self, f: &mut fmt::Formatter<W>) -> fmt::Result {
        let what = self.what;
        let message_bytes = self.message_bytes;
        let ad_bytes = self.ad_bytes;
        write!(
            f,
            "the {what} differs at a message of {message_bytes} bytes with associated data of {ad_bytes} bytes"
        )
    }
}

// Bytes that look random: the high bytes of a linear congruential generator.
fn filler(seed: u16) -> [u8; LONGEST] {
    let mut bytes = [0; LONGEST];
    let mut state = seed;
    for byte in bytes.iter_mut() {
        state = state.wrapping_mul(25173).wrapping_add(13849);
        *byte = state.to_be_bytes()[0];
    }
    bytes
}

fn compare_one(
    table: &SubstitutionTable,
    cipher: &AnyCipher,
    tag_length: TagLength,
    message_bytes: usize,
    ad_bytes: usize,
) -> Result<(), Difference>
    requires message { message_bytes ≤ 257 }
    requires ad { ad_bytes ≤ 257 }
{
    let ad = filler(29);
    let ad = &ad[..ad_bytes];
    let mut expected = filler(71);
    let expected = &mut expected[..message_bytes];
    let mut sealed = filler(71);
    let sealed = &mut sealed[..message_bytes];
    let expected_tag = slow_seal(table, cipher, tag_length, ad, expected);
    let tag = library_seal(cipher, tag_length, ad, sealed);
    let what = if *sealed != *expected {
        "ciphertext"
    } else if tag != expected_tag {
        "tag"
    } else {
        return Ok(());
    };
    Err(Difference {
        what,
        message_bytes,
        ad_bytes,
    })
}

fn compare_mac(
    table: &SubstitutionTable,
    cipher: &AnyCipher,
    tag_length: TagLength,
    message_bytes: usize,
) -> Result<(), Difference>
    requires { message_bytes ≤ 257 }
{
    let input = filler(71);
    let input = &input[..message_bytes];
    if library_mac(cipher, tag_length, input) == slow_mac(table, cipher, tag_length, input) {
        return Ok(());
    }
    Err(Difference {
        what: "MAC",
        message_bytes,
        ad_bytes: 0,
    })
}

// Compares at each length of the message, of the associated data and of a MAC's input, up to one byte more than two
// rate blocks. Returns the number of comparisons, or the first difference.
fn compare(
    table: &SubstitutionTable,
    variant: AnyVariant,
    tag_length: TagLength,
) -> Result<usize, Difference> {
    let cipher = AnyCipher::with_keys(variant, SHORT_KEYS, LONG_KEYS);
    let longest = 2 * variant.rate() + 1;
    for message_bytes in 0..=longest {
        compare_one(table, &cipher, tag_length, message_bytes, FIXED)?;
    }
    for ad_bytes in 0..=longest {
        compare_one(table, &cipher, tag_length, FIXED, ad_bytes)?;
    }
    for message_bytes in 0..=longest {
        compare_mac(table, &cipher, tag_length, message_bytes)?;
    }
    Ok(3 * (longest + 1))
}

/// Compares each variant with tags of either length, and prints at how many lengths it agrees, or the first at which it
/// does not. Returns whether all agree.
pub fn all_agree(rt: &HostRuntime, table: &SubstitutionTable) -> io::Result<bool> {
    for variant in VARIANTS {
        for tag_length in TAG_LENGTHS {
            let name = variant.name();
            let tag_bytes = tag_length.bytes();
            match compare(table, variant, tag_length) {
                Ok(count) => println!(rt; "{name}, tag of {tag_bytes} bytes: {count} agree")?,
                Err(difference) => {
                    println!(rt; "{name}, tag of {tag_bytes} bytes: {difference}")?;
                    return Ok(false);
                }
            }
        }
    }
    Ok(true)
}
