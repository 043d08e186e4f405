// Arenas of recovered images, which go on with what their roots name.
ghost use Rattle.std.specs.Prelude.{◌≡◌, ◌≤◌, ◌%◌, length};

use crate::outcomes::ROOM;
use check_tests::{Put, image, put};
use gc_heap::GcArena;
use gc_recover::gc_recover;
use gc_search::GcFault;
use gc_search_tests::{ONE_BLOCK, small_word};
use pmem_lines::{OutOfMemory, SimPmem};
use std::alloc::Global;
use std::process::Abort;
use std::test::Fail;

// The arena with one block, with the words of a row over its own, recovered. `None` where it is refused.
fn arena_of(alloc: Global, changes: &[Put]) -> Result<Option<GcArena<SimPmem>>, OutOfMemory> {
    let words = image(alloc, &ONE_BLOCK, changes)?;
    arena_over(alloc, &words)
}

// The arena of these words, recovered. `None` where it is refused.
fn arena_over(alloc: Global, words: &[u64]) -> Result<Option<GcArena<SimPmem>>, OutOfMemory>
    requires whole { length words.now % 8 ≡ 0 }
    requires some { 8 ≤ length words.now }
    requires few { length words.now ≤ 8388608 }
{
    let device = SimPmem::from_image(alloc, words, ROOM)?;
    match gc_recover(alloc, device) {
        Ok(arena) => Ok(Some(arena)),
        Err((GcFault::Memory(error), _)) => Err(error),
        Err((GcFault::Defect(_), _)) => Ok(None),
    }
}

// The root names the block at this address, of this size.
fn names(arena: &GcArena<SimPmem>, root: u32, at: u32, size: u32) -> bool {
    match arena.block(root) {
        Some(block) => block.at == at && block.size == size,
        None => false,
    }
}

// Seat 0 gives the root a block for so many bytes: it is the one at this address.
fn gives(arena: &mut GcArena<SimPmem>, root: u32, bytes: u64, at: u32) -> bool {
    match arena.malloc_to(0, root, bytes) {
        Ok(placed) => placed.at == at,
        Err(_) => false,
    }
}

// Seat 0 takes the root its block, which had this size.
fn frees(arena: &mut GcArena<SimPmem>, root: u32, size: u32) -> bool {
    match arena.free_from(0, root) {
        Ok(freed) => freed.size == size,
        Err(_) => false,
    }
}

// The slab of class 6 has blocks of two other classes. Its own blocks are given beside them; no other class takes the slab, so that a
// request of one opens a slab; and each block goes with its own size.
fn has_two_old_classes<R: Abort>(rt: &R, arena: &mut GcArena<SimPmem>) {
    let right = names(arena, 5, 67584, 112)
        && names(arena, 6, 67776, 64)
        && names(arena, 7, 67904, 32)
        && gives(arena, 8, 112, 68032)
        && gives(arena, 9, 200, 133120)
        && frees(arena, 7, 32)
        && frees(arena, 6, 64)
        && frees(arena, 5, 112);
    assert!(rt; right);
}

#[test]
fn blocks_of_two_old_classes(rt: HostRuntime) -> Result<(), Fail> {
    let changes: [Put; 2] = [(2054, small_word(67776, 3)), (2055, small_word(67904, 1))];
    match arena_of(rt.alloc(), &changes)? {
        None => {
            assert!(rt; false);
        }
        Some(mut arena) => has_two_old_classes(&rt, &mut arena),
    }
    Ok(())
}

// Roots from 52 on name a hundred blocks of 16 bytes.
fn name_a_hundred(words: &mut [u64]) {
    for k in 0..100u32 {
        let word = small_word(67776 + 16 * u64::from(k), 0);
        put(words, &[(2100 + k as usize, word)]);
    }
}

// The arena with one block and those, recovered. `None` where it is refused.
fn arena_of_a_hundred(alloc: Global) -> Result<Option<GcArena<SimPmem>>, OutOfMemory> {
    let mut words = image(alloc, &ONE_BLOCK, &[])?;
    name_a_hundred(&mut words);
    arena_over(alloc, &words)
}

// Each of them goes with its own size.
fn frees_a_hundred(arena: &mut GcArena<SimPmem>) -> bool {
    for k in 0..100u32 {
        if !frees(arena, 52 + k, 16) {
            return false;
        }
    }
    true
}

// The slab of class 6 has those blocks besides its own. The first of its own blocks that none of
// them covers is given, and each of them goes with its own size.
fn has_a_hundred_old_blocks<R: Abort>(rt: &R, arena: &mut GcArena<SimPmem>) {
    let right = gives(arena, 8, 112, 69376)
        && frees_a_hundred(arena)
        && names(arena, 5, 67584, 112)
        && names(arena, 8, 69376, 112);
    assert!(rt; right);
}

#[test]
fn a_hundred_old_blocks(rt: HostRuntime) -> Result<(), Fail> {
    match arena_of_a_hundred(rt.alloc())? {
        None => {
            assert!(rt; false);
        }
        Some(mut arena) => has_a_hundred_old_blocks(&rt, &mut arena),
    }
    Ok(())
}

// A large extent that no root names has gone, so that all granules but those of the slab are free.
fn has_room<R: Abort>(rt: &R, arena: &mut GcArena<SimPmem>) {
    let right = gives(arena, 0, 8 * 16384, 131072)
        && frees(arena, 5, 112)
        && gives(arena, 1, 4 * 16384, 65536);
    assert!(rt; right);
}

#[test]
fn granules_of_a_loose_extent(rt: HostRuntime) -> Result<(), Fail> {
    match arena_of(rt.alloc(), &[(6160, 33556481)])? {
        None => {
            assert!(rt; false);
        }
        Some(mut arena) => has_room(&rt, &mut arena),
    }
    Ok(())
}
