// What the checker says of an image.
use crate::images::{Base, Put, image};
use crate::values::same;
use image_check::{CheckFault, check_arena};
use image_defects::Summary;
use pmem_lines::OutOfMemory;
use pool_layout::Defect;
use std::alloc::Global;
use std::process::Abort;
use std::test::Fail;

/// What the checker says of these words.
pub fn answer_of(alloc: Global, words: &[u64]) -> Result<Result<Summary, Defect>, OutOfMemory> {
    match check_arena(alloc, words) {
        Ok(summary) => Ok(Ok(summary)),
        Err(CheckFault::Defect(defect)) => Ok(Err(defect)),
        Err(CheckFault::Memory(error)) => Err(error),
    }
}

/// The checker says this of these words.
pub fn answer_is<R: Abort>(
    rt: &R,
    alloc: Global,
    words: &[u64],
    wanted: Result<Summary, Defect>,
) -> Result<(), Fail> {
    same(rt, &answer_of(alloc, words)?, &wanted);
    Ok(())
}

/// What the checker says of an arena with the words of a row over its own.
pub fn answer(
    alloc: Global,
    base: &Base,
    changes: &[Put],
) -> Result<Result<Summary, Defect>, OutOfMemory> {
    answer_of(alloc, &image(alloc, base, changes)?)
}

/// A summary with these counts.
pub fn counts(large: u32, slabs: u32, blocks: u32, loose: u32) -> Result<Summary, Defect> {
    Ok(Summary {
        large,
        slabs,
        blocks,
        loose,
    })
}

/// The slab at a granule has a bad header, by this word.
pub fn bad_slab(start: u32, value: u64) -> Defect {
    Defect::BadSlab { start, value }
}

/// A write-ahead line has a bad entry, which is this word.
pub fn bad_wal(line: u8, value: u64) -> Defect {
    Defect::BadWal { line, value }
}

/// The blocks of two roots share a byte.
pub fn shared(first: u32, second: u32) -> Defect {
    Defect::SharedBlock { first, second }
}
