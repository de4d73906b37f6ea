//! Vectors as slices.

ghost use Rattle.std.specs.Prelude.{◌≡◌, IfOk, map, vec_items};
ghost use Rattle.std.specs.List.{concat};
ghost use Rattle.aegis_base.specs.Chunks.{joined, texts};

use std::alloc::{AllocError, Allocator};

/// Returns a list of each vector as a slice, in order. The only error is that there is no memory for the list.
pub fn slices<A: Allocator + Copy>(
    alloc: A,
    vectors: &[Vec<u8, A>],
) -> Result<Vec<&[u8], A>, AllocError>
    ensures each { IfOk result (λ slices. texts slices.items ≡ map vec_items vectors.now) }
    ensures joined { IfOk result
        (λ slices. joined slices.items ≡ concat (map vec_items vectors.now)) }
{
    let mut slices = Vec::with_capacity(alloc, vectors.len())?;
    for vector in vectors {
        slices.push(vector.as_slice())?;
    }
    Ok(slices)
}
