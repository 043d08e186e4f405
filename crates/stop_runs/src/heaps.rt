// The heap of an arena, as stops compare it.

use arena_variants::Variant;
use heap_model::Block;
use pmem_lines::OutOfMemory;
use std::alloc::Global;

/// A block that a root names, with a sum over its words that tells of their places.
#[derive(Clone, Copy, Debug, PartialEq, Eq)]
pub(crate) struct Held {
    block: Block,
    sum: u64,
}

/// What the roots below a number hold, by rising root.
pub(crate) fn heap_of<V: Variant>(
    alloc: Global,
    arena: &V,
    roots: u32,
) -> Result<Vec<Held>, OutOfMemory> {
    let mut heap = Vec::new(alloc);
    for root in 0..roots {
        if let Some(block) = arena.named(root) {
            let sum = sum_of(arena.words(root));
            heap.push(Held { block, sum })?;
        }
    }
    Ok(heap)
}

// A sum over words.
fn sum_of(words: &[u64]) -> u64 {
    let mut sum: u64 = 0;
    for word in words {
        sum = sum.wrapping_mul(31).wrapping_add(*word);
    }
    sum
}
