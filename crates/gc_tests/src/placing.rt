// Which blocks are given, in an arena of 16 granules: they are those that an arena of the other variant gives.
use crate::arenas::{frees, gives, gives_all, gives_none, new_arena};
use arena_core::MallocRefusal;
use gc_heap::GcArena;
use pmem_lines::SimPmem;
use std::test::Fail;

// What was freed last comes first.
fn stacked(arena: &mut GcArena<SimPmem>) -> bool {
    gives(arena, 1, 64, 67584, 64)
        && gives(arena, 2, 64, 67648, 64)
        && gives(arena, 3, 64, 67712, 64)
        && frees(arena, 1, 67584, 64)
        && frees(arena, 2, 67648, 64)
        && gives(arena, 4, 64, 67648, 64)
        && gives(arena, 5, 64, 67584, 64)
}

#[test]
fn order_of_a_stack(rt: HostRuntime) -> Result<(), Fail> {
    let mut arena = new_arena(rt.alloc())?;
    let right = stacked(&mut arena);
    drop(arena);
    assert!(&rt; right);
    Ok(())
}

// The slab takes another class while so many blocks of the first live in it, or there is no space for the other one.
fn fits(
    arena: &mut GcArena<SimPmem>,
    first: u64,
    blocks: u32,
    second: u64,
    at: u32,
    size: u32,
) -> bool {
    gives(arena, 0, 131072, 65536, 131072)
        && gives_all(arena, 1, 1 + blocks % 100, first)
        && gives(arena, 2000, second, at, size)
}

fn fits_not(arena: &mut GcArena<SimPmem>, first: u64, blocks: u32, second: u64) -> bool {
    gives(arena, 0, 131072, 65536, 131072)
        && gives_all(arena, 1, 1 + blocks % 100, first)
        && gives_none(arena, 2000, second, MallocRefusal::NoSpace)
}

#[test]
fn many_small_blocks_are_few(rt: HostRuntime) -> Result<(), Fail> {
    let mut arena = new_arena(rt.alloc())?;
    let right = fits(&mut arena, 64, 64, 1000, 202752, 1024);
    drop(arena);
    assert!(&rt; right);
    Ok(())
}

#[test]
fn one_small_block_more_is_too_many(rt: HostRuntime) -> Result<(), Fail> {
    let mut arena = new_arena(rt.alloc())?;
    let right = fits_not(&mut arena, 64, 65, 1000);
    drop(arena);
    assert!(&rt; right);
    Ok(())
}

#[test]
fn a_fifth_of_the_slab_is_few(rt: HostRuntime) -> Result<(), Fail> {
    let mut arena = new_arena(rt.alloc())?;
    let right = fits(&mut arena, 1000, 12, 64, 210944, 64);
    drop(arena);
    assert!(&rt; right);
    Ok(())
}

#[test]
fn more_than_a_fifth_is_too_many(rt: HostRuntime) -> Result<(), Fail> {
    let mut arena = new_arena(rt.alloc())?;
    let right = fits_not(&mut arena, 1000, 13, 64);
    drop(arena);
    assert!(&rt; right);
    Ok(())
}

// The old block goes, and what it covered may be given out behind the stack's blocks.
fn covered(arena: &mut GcArena<SimPmem>) -> bool {
    gives(arena, 0, 131072, 65536, 131072)
        && gives(arena, 1, 64, 198656, 64)
        && gives(arena, 2, 1000, 199680, 1024)
        && frees(arena, 1, 198656, 64)
        && gives(arena, 3, 1000, 200704, 1024)
        && gives_all(arena, 4, 9, 1000)
        && gives(arena, 9, 1000, 206848, 1024)
        && gives(arena, 10, 1000, 198656, 1024)
}

#[test]
fn a_transition_ends(rt: HostRuntime) -> Result<(), Fail> {
    let mut arena = new_arena(rt.alloc())?;
    let right = covered(&mut arena);
    drop(arena);
    assert!(&rt; right);
    Ok(())
}
