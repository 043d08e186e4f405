// What the search says of an image.
use crate::images::ONE_BLOCK;
use check_tests::{Put, image};
use gc_search::{GcFault, check_gc_arena};
use pmem_lines::OutOfMemory;
use pool_layout::Defect;
use std::alloc::Global;

/// What the search says of these words: the first defect, if there is one.
pub fn answer_of(alloc: Global, words: &[u64]) -> Result<Option<Defect>, OutOfMemory> {
    match check_gc_arena(alloc, words) {
        Ok(_image) => Ok(None),
        Err(GcFault::Defect(defect)) => Ok(Some(defect)),
        Err(GcFault::Memory(error)) => Err(error),
    }
}

/// What it says of the arena with one block with the words of a row over its own.
pub fn answer(alloc: Global, changes: &[Put]) -> Result<Option<Defect>, OutOfMemory> {
    answer_of(alloc, &image(alloc, &ONE_BLOCK, changes)?)
}

/// The slab at a granule has a bad state word, which is this one.
pub fn bad_slab(start: u32, value: u64) -> Option<Defect> {
    Some(Defect::BadSlab { start, value })
}

/// The word of a root names no block that may stand.
pub fn stray_root(root: u32, at: u64) -> Option<Defect> {
    Some(Defect::StrayRoot { root, at })
}

/// The blocks of two roots share a byte.
pub fn shared(first: u32, second: u32) -> Option<Defect> {
    Some(Defect::SharedBlock { first, second })
}

/// So many large extents are loose, and so many slabs.
pub fn too_many_loose(large: u32, empty: u32) -> Option<Defect> {
    Some(Defect::TooManyLoose {
        large,
        empty,
        morphing: 0,
        done: 0,
    })
}
