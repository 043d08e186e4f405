// Arenas that are no dictionary, and the root that is told of each.
ghost use Rattle.std.specs.Prelude.{◌≤◌, length};

use crate::calls::new_arena;
use crate::values::same;
use arena_core::Arena;
use attach_dict::{Dict, OpenFault};
use pmem_lines::SimPmem;
use std::alloc::Global;
use std::test::Fail;

// A block of so many bytes at a root, and the words that it begins with.
#[derive(Clone, Copy)]
struct Laid<'a> {
    root: u32,
    size: u64,
    words: &'a [u64],
}

// A block comes to a root by the arena's own calls.
fn lay(arena: &mut Arena<SimPmem>, root: u32, size: u64, words: &[u64]) -> Result<(), Fail>
    requires { length words.now ≤ 512 }
{
    arena.malloc_to(0, root, size)?;
    arena.write(root, 0, words)?;
    Ok(())
}

// All of these come, one behind another.
fn lay_all(arena: &mut Arena<SimPmem>, blocks: &[Laid<'_>]) -> Result<(), Fail> {
    for block in blocks {
        if block.words.len() > 512 {
            return Err(Fail::from("more words than a write takes"));
        }
        lay(arena, block.root, block.size, block.words)?;
    }
    Ok(())
}

// The root that is told of an arena, where it is no dictionary.
fn told(alloc: Global, arena: Arena<SimPmem>) -> Result<Option<u32>, Fail> {
    match Dict::open(alloc, arena) {
        Ok(dict) => {
            drop(dict);
            Ok(None)
        }
        Err((fault, arena)) => {
            drop(arena);
            root_of(fault)
        }
    }
}

fn root_of(fault: OpenFault) -> Result<Option<u32>, Fail> {
    match fault {
        OpenFault::NotDict { root } => Ok(Some(root)),
        OpenFault::Memory(_) => Err(Fail::from("no memory")),
    }
}

// An arena with these blocks.
fn arena_with(alloc: Global, blocks: &[Laid<'_>]) -> Result<Arena<SimPmem>, Fail> {
    let mut arena = new_arena(alloc)?;
    match lay_all(&mut arena, blocks) {
        Ok(()) => Ok(arena),
        Err(fail) => {
            drop(arena);
            Err(fail)
        }
    }
}

// What is told of it.
fn told_of(alloc: Global, blocks: &[Laid<'_>]) -> Result<Option<u32>, Fail> {
    let arena = arena_with(alloc, blocks)?;
    told(alloc, arena)
}

// A block of 48 bytes.
fn pair(root: u32, words: &[u64]) -> Laid<'_> {
    Laid {
        root,
        size: 48,
        words,
    }
}

// The same, with a count that a block of 48 bytes lacks the words for.
fn wide(root: u32) -> Laid<'static> {
    pair(root, &[9, 9, 4])
}

#[test]
fn pairs_are_taken_and_the_stage_may_have_anything(rt: HostRuntime) -> Result<(), Fail> {
    let blocks = [
        wide(0),
        pair(2, &[1, 1, 3]),
        pair(5, &[1, 2, 0]),
        pair(7, &[2, 1, 0]),
    ];
    same(&rt, &told_of(rt.alloc(), &blocks)?, &None);
    Ok(())
}

#[test]
fn a_block_without_room_for_a_head_is_told(rt: HostRuntime) -> Result<(), Fail> {
    let small = Laid {
        root: 3,
        size: 16,
        words: &[1, 1],
    };
    same(&rt, &told_of(rt.alloc(), &[small])?, &Some(3));
    Ok(())
}

#[test]
fn a_count_of_510_is_told(rt: HostRuntime) -> Result<(), Fail> {
    let large = Laid {
        root: 3,
        size: 16_384,
        words: &[1, 1, 510],
    };
    same(&rt, &told_of(rt.alloc(), &[large])?, &Some(3));
    Ok(())
}

#[test]
fn the_lowest_of_two_is_told(rt: HostRuntime) -> Result<(), Fail> {
    same(&rt, &told_of(rt.alloc(), &[wide(6), wide(4)])?, &Some(4));
    Ok(())
}

#[test]
fn a_number_of_a_lower_root_is_told(rt: HostRuntime) -> Result<(), Fail> {
    let twice = [pair(2, &[1, 1, 0]), pair(5, &[1, 1, 0])];
    same(&rt, &told_of(rt.alloc(), &twice)?, &Some(5));
    Ok(())
}

#[test]
fn a_number_of_a_stale_root_is_told(rt: HostRuntime) -> Result<(), Fail> {
    let stale = [
        pair(2, &[1, 1, 0]),
        pair(5, &[1, 1, 0]),
        pair(7, &[1, 2, 0]),
    ];
    same(&rt, &told_of(rt.alloc(), &stale)?, &Some(5));
    Ok(())
}

#[test]
fn a_misfit_below_a_number_twice_is_told(rt: HostRuntime) -> Result<(), Fail> {
    let below = [pair(2, &[1, 1, 0]), pair(5, &[1, 1, 0]), wide(4)];
    same(&rt, &told_of(rt.alloc(), &below)?, &Some(4));
    let above = [pair(2, &[1, 1, 0]), pair(5, &[1, 1, 0]), wide(6)];
    same(&rt, &told_of(rt.alloc(), &above)?, &Some(5));
    Ok(())
}
