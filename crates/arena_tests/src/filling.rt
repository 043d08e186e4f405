// Arenas of version 2 that are filled until there is no space: the least one, of 25 granules, and the largest, of 4096. The heap
// begins at granule 13.
ghost use Rattle.std.specs.Prelude.{◌≤◌};

use crate::arenas::{moved, second_arena, write};
use crate::values::same;
use arena_core::{Arena, BlockRefusal, FreeRefusal, MallocRefusal, MoveRefusal, Placed};
use pmem_lines::SimPmem;
use std::alloc::Global;
use std::process::Abort;
use std::test::Fail;

// Gives each root from 0 on a block of so many bytes, up to the first that is refused: which one that is, and why.
fn fill(arena: &mut Arena<SimPmem>, size: u64) -> (u32, Option<MallocRefusal>) {
    for root in 0..16384 {
        if let Err(refusal) = arena.malloc_to(0, root, size) {
            return (root, Some(refusal));
        }
    }
    (16384, None)
}

// Where the block of a root is.
fn place_of(arena: &Arena<SimPmem>, root: u32) -> Option<u32> {
    match arena.block(root) {
        Some(block) => Some(block.at),
        None => None,
    }
}

// So many roots are given a block of so many bytes, the last of them there, and then there is no space.
fn holds<R: Abort>(
    rt: &R,
    arena: &mut Arena<SimPmem>,
    size: u64,
    count: u32,
    last: u32,
) -> Result<(), Fail> {
    assert_eq!(rt;
        fill(arena, size),
        (count, Some(MallocRefusal::NoSpace)),
        "of {size} bytes"
    );
    assert_eq!(rt;
        place_of(arena, count.saturating_sub(1)),
        Some(last),
        "of {size} bytes"
    );
    Ok(())
}

// So it is in a new arena of so many granules.
fn new_arena_holds<R: Abort>(
    rt: &R,
    alloc: Global,
    granules: u32,
    size: u64,
    count: u32,
    last: u32,
) -> Result<(), Fail>
    requires least { 25 ≤ granules }
    requires most { granules ≤ 4096 }
{
    let mut arena = second_arena(alloc, granules)?;
    let tested = holds(rt, &mut arena, size, count, last);
    drop(arena);
    tested
}

// The heap has 12 granules: six blocks of two, three slabs of three blocks of 16384 bytes, or one block of all.
#[test]
fn the_least_arena(rt: HostRuntime) -> Result<(), Fail> {
    for (size, count, last) in [
        (20_000, 6, 376_832),
        (16_384, 9, 378_880),
        (196_608, 1, 212_992),
    ] {
        new_arena_holds(&rt, rt.alloc(), 25, size, count, last)?;
    }
    Ok(())
}

// The heap has 4083 granules: 2041 blocks of two, 1020 slabs of three blocks of 16384 bytes, or one block of all.
#[test]
fn the_largest_arena(rt: HostRuntime) -> Result<(), Fail> {
    for (size, count, last) in [
        (20_000, 2041, 67_059_712),
        (16_384, 3060, 67_028_992),
        (66_895_872, 1, 212_992),
    ] {
        new_arena_holds(&rt, rt.alloc(), 4096, size, count, last)?;
    }
    Ok(())
}

// Root 16383 is the last one, and 196608 bytes are the heap's.
fn end_where_they_end<R: Abort>(rt: &R, arena: &mut Arena<SimPmem>) -> Result<(), Fail> {
    same(
        rt,
        &arena.malloc_to(0, 16383, 100),
        &Ok(Placed {
            at: 215_040,
            size: 112,
        }),
    );
    same(
        rt,
        &arena.malloc_to(0, 16384, 100),
        &Err(MallocRefusal::NoRoot),
    );
    same(
        rt,
        &arena.malloc_to(0, 1, 196_609),
        &Err(MallocRefusal::TooLarge),
    );
    same(rt, &arena.free_from(0, 16384), &Err(FreeRefusal::NoRoot));
    same(rt, &write(arena, 16383, 13, &[9]), &Ok(()));
    same(
        rt,
        &write(arena, 16384, 0, &[9]),
        &Err(BlockRefusal::NoRoot),
    );
    assert!(rt; matches!(arena.view(16384), Err(BlockRefusal::NoRoot)));
    same(rt, &moved(arena, 16383, 16384), &Err(MoveRefusal::NoRoot));
    same(rt, &moved(arena, 16384, 16383), &Err(MoveRefusal::NoRoot));
    assert!(rt; moved(arena, 16383, 4096).is_ok());
    same(rt, &place_of(arena, 4096), &Some(215_040));
    Ok(())
}

#[test]
fn ends_of_ranges(rt: HostRuntime) -> Result<(), Fail> {
    let mut arena = second_arena(rt.alloc(), 25)?;
    let tested = end_where_they_end(&rt, &mut arena);
    drop(arena);
    tested
}
