//! Blocks of bytes.

ghost use Rattle.std.specs.Prelude.{◌≤◌, ◌<◌, IfOk, length};
ghost use Rattle.aegis_base.specs.Chunks.{texts};
ghost use Rattle.aegis.specs.RecordStream.{AreWithin};
ghost use Rattle.aegis.specs.declared.record.version.Version.TheVariants.{Second};

use std::alloc::{AllocError, Allocator};

/// The length of a block in bytes. The last block may be shorter.
pub const BLOCK_BYTES: usize = 64;

/// Returns the blocks of some bytes. There is at least one, which may be empty.
pub fn blocks_of<A: Allocator>(alloc: A, bytes: &[u8]) -> Result<Vec<&[u8], A>, AllocError>
    ensures some { IfOk result (λ blocks. 0 < length blocks.items) }
    ensures within { IfOk result (λ blocks. AreWithin Second (texts blocks.items)) }
{
    let mut blocks = Vec::new(alloc);
    let mut rest = bytes;
    'cuts: while rest.len() > BLOCK_BYTES {
        let (block, after) = rest.split_at(BLOCK_BYTES);
        blocks.push(block)?;
        rest = after;
    }
    blocks.push(rest)?;
    Ok(blocks)
}
