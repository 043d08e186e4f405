// The worked rows of the GC variant: a first small block, and a slab that takes another class; and what frees, refusals and writes
// leave.
use crate::arenas::{
    frees, frees_none, gives, gives_none, had, names, new_arena, reads, writes_none,
};
use arena_core::{BlockRefusal, FreeRefusal, MallocRefusal};
use gc_heap::GcArena;
use pmem_lines::{Event, SimPmem};
use std::test::Fail;

// A word that is stored and made durable.
fn word(at: u32, value: u64) -> [Event; 3] {
    [
        Event::Store { at, value },
        Event::Flush { line: at / 64 },
        Event::Fence,
    ]
}

// One word behind another.
fn two(first: [Event; 3], second: [Event; 3]) -> [Event; 6] {
    [
        first[0], first[1], first[2], second[0], second[1], second[2],
    ]
}

// One behind two others.
fn three(first: [Event; 3], second: [Event; 3], third: [Event; 3]) -> [Event; 9] {
    [
        first[0], first[1], first[2], second[0], second[1], second[2], third[0], third[1], third[2],
    ]
}

// A new slab of class 6 is made on granules 4 to 7, its extent goes into the log, and root 5 gets its first block: nine events.
fn first_block(arena: &mut GcArena<SimPmem>) -> bool {
    gives(arena, 5, 100, 67584, 112)
        && had(
            arena,
            &three(
                word(65536, 1537),
                word(49216, 1026),
                word(16424, 67584 + (7 << 32)),
            ),
        )
        && names(arena, 5, 67584, 112)
}

#[test]
fn ordinary_use(rt: HostRuntime) -> Result<(), Fail> {
    let mut arena = new_arena(rt.alloc())?;
    let right = first_block(&mut arena);
    drop(arena);
    assert!(&rt; right);
    Ok(())
}

// Eight granules go to root 0: six events.
fn large_block(arena: &mut GcArena<SimPmem>) -> bool {
    gives(arena, 0, 131072, 65536, 131072)
        && had(
            arena,
            &two(word(49216, 1 + (4 << 8) + (8 << 24)), word(16384, 65536)),
        )
}

// A slab of class 3 is made for root 1: nine.
fn small_block(arena: &mut GcArena<SimPmem>) -> bool {
    gives(arena, 1, 64, 198656, 64)
        && had(
            arena,
            &three(
                word(196608, 769),
                word(49280, 2 + (12 << 8)),
                word(16392, 198656 + (4 << 32)),
            ),
        )
}

// It takes class 19 for root 2, whose block 0 overlaps the old one: six.
fn block_of_a_class(arena: &mut GcArena<SimPmem>) -> bool {
    gives(arena, 2, 1000, 199680, 1024)
        && had(
            arena,
            &two(word(196608, 4865), word(16400, 199680 + (20 << 32))),
        )
}

fn morphed(arena: &mut GcArena<SimPmem>) -> bool {
    large_block(arena) && small_block(arena) && block_of_a_class(arena)
}

#[test]
fn a_slab_takes_a_class(rt: HostRuntime) -> Result<(), Fail> {
    let mut arena = new_arena(rt.alloc())?;
    let right = morphed(&mut arena);
    drop(arena);
    assert!(&rt; right);
    Ok(())
}

// The old block keeps its 64 bytes, and goes in three events while another block lives in its slab. The last one takes the slab with
// it, and the large block its granules, in six.
fn all_go(arena: &mut GcArena<SimPmem>) -> bool {
    frees(arena, 1, 198656, 64)
        && had(arena, &word(16392, 0))
        && frees(arena, 2, 199680, 1024)
        && had(arena, &two(word(16400, 0), word(49344, 3 + (12 << 8))))
        && frees(arena, 0, 65536, 131072)
        && had(arena, &two(word(16384, 0), word(49408, 3 + (4 << 8))))
}

fn come_and_go(arena: &mut GcArena<SimPmem>) -> bool {
    morphed(arena) && all_go(arena)
}

#[test]
fn blocks_go(rt: HostRuntime) -> Result<(), Fail> {
    let mut arena = new_arena(rt.alloc())?;
    let right = come_and_go(&mut arena);
    drop(arena);
    assert!(&rt; right);
    Ok(())
}

// The refusals of each call, in their order, none of which has an event.
fn refusals(arena: &mut GcArena<SimPmem>) -> bool {
    gives_none(arena, 4096, 0, MallocRefusal::NoRoot)
        && gives_none(arena, 7, 0, MallocRefusal::Occupied { at: 65536 })
        && gives_none(arena, 8, 0, MallocRefusal::ZeroSize)
        && gives_none(arena, 8, 196609, MallocRefusal::TooLarge)
        && gives_none(arena, 8, 196608, MallocRefusal::NoSpace)
        && frees_none(arena, 4096, FreeRefusal::NoRoot)
        && frees_none(arena, 8, FreeRefusal::Empty)
        && writes_none(arena, 4096, 0, BlockRefusal::NoRoot)
        && writes_none(arena, 8, 0, BlockRefusal::Empty)
        && writes_none(arena, 7, 4096, BlockRefusal::OutOfRange)
}

fn refused_beside_a_block(arena: &mut GcArena<SimPmem>) -> bool {
    gives(arena, 7, 20000, 65536, 32768) && refusals(arena)
}

#[test]
fn nothing_is_done(rt: HostRuntime) -> Result<(), Fail> {
    let mut arena = new_arena(rt.alloc())?;
    let right = refused_beside_a_block(&mut arena);
    drop(arena);
    assert!(&rt; right);
    Ok(())
}

// Two words are written into a large block under one fence, and read in place.
fn written(arena: &mut GcArena<SimPmem>) -> bool {
    let events = [
        Event::Store {
            at: 65544,
            value: 3,
        },
        Event::Store {
            at: 65552,
            value: 4,
        },
        Event::Flush { line: 1024 },
        Event::Fence,
    ];
    arena.write(7, 1, &[3, 4]).is_ok()
        && had(arena, &events)
        && reads(arena, 7, 0, 0)
        && reads(arena, 7, 1, 3)
        && reads(arena, 7, 2, 4)
}

fn given_and_written(arena: &mut GcArena<SimPmem>) -> bool {
    gives(arena, 7, 20000, 65536, 32768) && written(arena)
}

#[test]
fn words_of_a_block(rt: HostRuntime) -> Result<(), Fail> {
    let mut arena = new_arena(rt.alloc())?;
    let right = given_and_written(&mut arena);
    drop(arena);
    assert!(&rt; right);
    Ok(())
}
