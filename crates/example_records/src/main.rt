//! Seals the blocks of its input as the records of a stream, and opens them again.
//!
//! The key, the prefix and the context are constants only so that the example is complete. A program must draw its key
//! at random, and a new prefix for each stream.
#![tactic(auto)]

mod blocks;

use aegis::record::{MAX_CONTEXT_BYTES, RecordError, open_records, records_len, seal_records};
use blocks::blocks_of;
use std::alloc::Allocator;
use std::io;
use std::io::Read;

const KEY: [u8; 32] = *b"a key that nobody else can guess";

const PREFIX: [u8; 24] = *b"once under a key, always";

const CONTEXT: [u8; 7] = *b"example";

// Opens a stream, and joins its messages.
fn opened<A: Allocator + Copy>(alloc: A, stream: &[u8]) -> Result<Vec<u8, A>, RecordError> {
    let mut bytes = Vec::new(alloc);
    for message in &open_records(alloc, &KEY, &PREFIX, &CONTEXT, stream)? {
        bytes.extend_from_slice(message)?;
    }
    Ok(bytes)
}

fn main(rt: HostRuntime) -> io::Result<()> {
    let mut input = Vec::new(rt.alloc());
    rt.stdin().read_to_end(&mut input)?;
    let blocks = blocks_of(rt.alloc(), &input)?;
    let Some(length) = records_len(&blocks) else {
        return println!(rt; "{} bytes are too many for a stream", input.len());
    };
    let stream = match seal_records(rt.alloc(), &KEY, &PREFIX, &CONTEXT, &blocks) {
        Ok(stream) => stream,
        Err(error) => return println!(rt; "not sealed: {error}"),
    };
    match opened(rt.alloc(), &stream) {
        Ok(bytes) if bytes == input => {
            println!(rt;
                "{} blocks sealed to {length} bytes, and opened again",
                blocks.len()
            )
        }
        Ok(_) => println!(rt; "other blocks were opened"),
        Err(error) => println!(rt; "not opened: {error}"),
    }
}
