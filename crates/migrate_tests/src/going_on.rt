// The calls of an arena that was migrated.
use crate::images::migrated_arena;
use crate::values::same;
use arena_core::{Arena, Freed, Moved, Placed};
use check_tests::{IN_TRANSITION, Put, image};
use pmem_lines::{OutOfMemory, SimPmem};
use std::alloc::Global;
use std::test::Fail;

// The arena of a migrated image of a slab in transition, with the words of a row over its own. `None` where there is none.
fn arena_with(alloc: Global, changes: &[Put]) -> Result<Option<Arena<SimPmem>>, OutOfMemory> {
    let words = image(alloc, &IN_TRANSITION, changes)?;
    migrated_arena(alloc, &words)
}

// How many words a block has, and the first and the last one.
type Ends = (usize, u64, u64);

// These of a root's block. `None` where it has no block.
fn ends_of(arena: &Arena<SimPmem>, root: u32) -> Option<Ends> {
    let block = arena.view(root).ok()?;
    Some((block.len(), *block.first()?, *block.last()?))
}

// The same of the blocks of roots 0, 1 and 2.
fn ends(arena: &Arena<SimPmem>) -> [Option<Ends>; 3] {
    [ends_of(arena, 0), ends_of(arena, 1), ends_of(arena, 2)]
}

// The same of an arena that was migrated. `None` where there is none.
fn migrated_ends(alloc: Global, written: &[Put]) -> Result<Option<[Option<Ends>; 3]>, OutOfMemory> {
    match arena_with(alloc, written)? {
        Some(arena) => Ok(Some(ends(&arena))),
        None => Ok(None),
    }
}

// Each block has its words: a large one, an old one and one of the class of its slab.
#[test]
fn words_of_blocks(rt: HostRuntime) -> Result<(), Fail> {
    let written: [Put; 6] = [
        (8192, 1),
        (24575, 2),
        (24832, 3),
        (24839, 4),
        (24960, 5),
        (25087, 6),
    ];
    same(
        &rt,
        &migrated_ends(rt.alloc(), &written)?,
        &Some([Some((16384, 1, 2)), Some((8, 3, 4)), Some((128, 5, 6))]),
    );
    Ok(())
}

// What an arena answers to a malloc for a root that version 1 does not have, to a move of an old block to another such root,
// and to a free of it from there; and how many events the free has.
#[derive(Clone, Copy, Debug, PartialEq, Eq)]
struct Answered {
    placed: Option<Placed>,
    moved: Option<Moved>,
    freed: Option<Freed>,
    events: u32,
}

fn goes_on(arena: &mut Arena<SimPmem>) -> Answered {
    let placed = arena.malloc_to(0, 16383, 1000).ok();
    let moved = arena.move_to(1, 4096).ok();
    let freed = arena.free_from(0, 4096).ok();
    Answered {
        placed,
        moved,
        freed,
        events: arena.pmem().event_count(),
    }
}

// The same of an arena that was migrated. `None` where there is none.
fn migrated_goes_on(alloc: Global) -> Result<Option<Answered>, OutOfMemory> {
    match arena_with(alloc, &[])? {
        Some(mut arena) => Ok(Some(goes_on(&mut arena))),
        None => Ok(None),
    }
}

// A slab that took another class goes on as it would have: block 0 of the class overlaps the old block and is not given out,
// and block 1 is held. With the old block goes the slab's transition, by 3 events behind the 11 of the free.
#[test]
fn old_block_goes(rt: HostRuntime) -> Result<(), Fail> {
    let wanted = Answered {
        placed: Some(Placed {
            at: 348_160,
            size: 1024,
        }),
        moved: Some(Moved {
            at: 346_112,
            size: 64,
        }),
        freed: Some(Freed {
            at: 346_112,
            size: 64,
        }),
        events: 14,
    };
    same(&rt, &migrated_goes_on(rt.alloc())?, &Some(wanted));
    Ok(())
}
