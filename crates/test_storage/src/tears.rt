//! What a crash leaves of a disk of the tests.

use crate::disk::{TestDisk, change};
use crate::pending::PendingChange;
use aegis_storage::{PendingWrite, Storage};
use std::alloc::Global;
use std::io;

// How many bytes are written at once, or not at all, by a disk that fails.
const HEADER_BLOCK_BYTES: usize = 512;

// Writes the bytes of a write from `from` up to `to`, if it has them.
fn write_part(
    bytes: &mut Vec<u8>,
    write: &PendingWrite<Global>,
    from: usize,
    to: usize,
) -> io::Result<()> {
    if from <= to && to <= write.bytes.len() {
        bytes.write_at(write.place + from as u64, &write.bytes[from..to])?;
    }
    Ok(())
}

// Writes other bytes than those of a write from `from` up to `to`, if it has them.
fn write_others(
    alloc: Global,
    bytes: &mut Vec<u8>,
    write: &PendingWrite<Global>,
    from: usize,
    to: usize,
) -> io::Result<()> {
    if from <= to && to <= write.bytes.len() {
        let others = vec![in alloc; 0xee; to - from]?;
        bytes.write_at(write.place + from as u64, &others)?;
    }
    Ok(())
}

// Leaves what a crash may of a change: none of it, a beginning and other bytes after it, other bytes in every other
// sector, or all.
fn tear(alloc: Global, bytes: &mut Vec<u8>, pending: &PendingChange, part: u32) -> io::Result<()> {
    let PendingChange::Write(write) = pending else {
        return if part % 2 == 0 {
            Ok(())
        } else {
            change(bytes, pending)
        };
    };
    let size = write.bytes.len();
    match part {
        0 => Ok(()),
        1 => {
            write_part(bytes, write, 0, size / 2)?;
            write_others(alloc, bytes, write, size / 2, size / 2 + size / 4)
        }
        2 => {
            write_others(alloc, bytes, write, 0, size.min(HEADER_BLOCK_BYTES))?;
            write_part(
                bytes,
                write,
                HEADER_BLOCK_BYTES,
                size.min(2 * HEADER_BLOCK_BYTES),
            )?;
            write_others(
                alloc,
                bytes,
                write,
                2 * HEADER_BLOCK_BYTES,
                size.min(3 * HEADER_BLOCK_BYTES),
            )
        }
        _ => change(bytes, pending),
    }
}

/// What a crash leaves of a disk. Each digit of `parts`, in base 4, is the part of a pending change that is there; they
/// come in order, from the last one, or from the middle on.
pub fn left_of(disk: &TestDisk, parts: u32, order: usize) -> io::Result<Vec<u8>> {
    let mut bytes = disk.synced.to_vec(disk.alloc)?;
    let count = disk.pending.len();
    let mut parts = parts;
    for turn in 0..count {
        let index = match order {
            0 => turn,
            1 => count - 1 - turn,
            _ => turn.wrapping_add(count / 2) % count,
        };
        if let Some(pending) = disk.pending.get(index) {
            tear(disk.alloc, &mut bytes, pending, parts % 4)?;
        }
        parts /= 4;
    }
    Ok(bytes)
}

// Writes the bytes of `beginning` over the first bytes of a disk, as far as the first `len` bytes of a write lie there.
fn write_beginning(
    bytes: &mut Vec<u8>,
    write: &PendingWrite<Global>,
    len: usize,
    beginning: &[u8],
) -> io::Result<()> {
    let place = write.place as usize;
    let end = beginning
        .len()
        .min(place.saturating_add(len.min(write.bytes.len())));
    if place < end {
        bytes.write_at(place as u64, &beginning[place..end])?;
    }
    Ok(())
}

/// What a crash leaves of a disk if the first `len` bytes of each pending write are there, but where one was to come
/// within the first bytes of the disk there are those of `beginning`.
pub fn left_with_beginning(disk: &TestDisk, len: usize, beginning: &[u8]) -> io::Result<Vec<u8>> {
    let mut bytes = disk.synced.to_vec(disk.alloc)?;
    for pending in &disk.pending {
        if let PendingChange::Write(write) = pending {
            write_part(&mut bytes, write, 0, len.min(write.bytes.len()))?;
            write_beginning(&mut bytes, write, len, beginning)?;
        }
    }
    Ok(bytes)
}
