// The largest arenas of both versions, whose heap is one free run.
ghost use Rattle.std.specs.Prelude.{◌≡◌, ◌≤◌, ◌%◌, length};

use crate::images::arena_of;
use crate::values::same;
use arena_core::{Arena, ArenaRoom, Placed};
use check_tests::{Base, Put, image, put};
use pmem_lines::{OutOfMemory, Pmem, SimPmem};
use std::alloc::Global;
use std::process::Abort;
use std::test::Fail;

// A block of all 1020 granules of the heap.
const WHOLE: Placed = Placed {
    at: 65536,
    size: 16_711_680,
};

fn formatted(alloc: Global) -> Result<Arena<SimPmem>, OutOfMemory> {
    let device = SimPmem::zeroed(alloc, 262_144, 2048)?;
    let room = ArenaRoom::new(alloc, 1024)?;
    Ok(Arena::format(room, device, 0, 1))
}

// An arena that was formatted, by five events, gives a root all of its heap.
fn gives_all<R: Abort>(
    rt: &R,
    arena: &mut Arena<SimPmem>,
    granules: u32,
    root: u32,
    whole: Placed,
) {
    same(
        rt,
        &(arena.granules(), arena.pmem().event_count()),
        &(granules, 5),
    );
    same(
        rt,
        &arena.malloc_to(0, root, u64::from(whole.size)).ok(),
        &Some(whole),
    );
}

#[test]
fn is_formatted(rt: HostRuntime) -> Result<(), Fail> {
    let mut arena = formatted(rt.alloc())?;
    gives_all(&rt, &mut arena, 1024, 4095, WHOLE);
    drop(arena);
    Ok(())
}

// An arena whose log says that all of its heap is one large extent, which no root has: 1020 granules from 4 on.
const LOOSE: Base = Base {
    granules: 1024,
    words: &[
        (0, 3550894020320384590),
        (1, 0x0001_0400_0000_0001),
        (2, 1),
        (6152, 0x0003_fc00_0401),
    ],
};

// The log of an arena with these words gets a Tomb, by three events, and a root is given all of the heap.
fn gives_all_again<R: Abort>(
    rt: &R,
    alloc: Global,
    words: &mut [u64],
    tomb: Put,
    root: u32,
    whole: Placed,
) -> Result<(), Fail>
    requires lines { length words.old % 8 ≡ 0 }
    requires some { 8 ≤ length words.old }
    requires few { length words.old ≤ 8388608 }
{
    match arena_of(alloc, words)? {
        Some(mut arena) => has_tomb(rt, &mut arena, words, tomb, root, whole),
        None => panic!(rt; "not recovered"),
    }
    Ok(())
}

// The same of the arena that the words were recovered to.
fn has_tomb<R: Abort>(
    rt: &R,
    arena: &mut Arena<SimPmem>,
    words: &mut [u64],
    tomb: Put,
    root: u32,
    whole: Placed,
) {
    put(words, &[tomb]);
    same(rt, &arena.pmem().event_count(), &3);
    assert!(rt; has_words(arena.pmem(), words));
    same(
        rt,
        &arena.malloc_to(0, root, u64::from(whole.size)).ok(),
        &Some(whole),
    );
}

fn has_words(device: &SimPmem, words: &[u64]) -> bool {
    device.words(0, device.size_words()) == words
}

// The log gets a Tomb, by three events, and the heap can be given out again.
#[test]
fn comes_back(rt: HostRuntime) -> Result<(), Fail> {
    let mut words = image(rt.alloc(), &LOOSE, &[])?;
    gives_all_again(&rt, rt.alloc(), &mut words, (6160, 1027), 4095, WHOLE)
}

// The same of version 2, of 4096 granules: the heap has 4083 from 13 on.
const WHOLE_SECOND: Placed = Placed {
    at: 212_992,
    size: 66_895_872,
};

#[tactic(auto, using(arena_core::proofs::Readiness::second_room, arena_core::proofs::Readiness::second_least, arena_core::proofs::Readiness::second_most), unfolding(pool_layout::specs::Layout::all_granules))]
fn formatted_in_version_2(alloc: Global) -> Result<Arena<SimPmem>, OutOfMemory> {
    let device = SimPmem::zeroed(alloc, 1_048_576, 4096)?;
    let room = ArenaRoom::new(alloc, 4096)?;
    Ok(Arena::format_v2(room, device, 0, 1))
}

#[test]
fn is_formatted_in_version_2(rt: HostRuntime) -> Result<(), Fail> {
    let mut arena = formatted_in_version_2(rt.alloc())?;
    gives_all(&rt, &mut arena, 4096, 16383, WHOLE_SECOND);
    drop(arena);
    Ok(())
}

const LOOSE_SECOND: Base = Base {
    granules: 4096,
    words: &[
        (0, 3550894020320384590),
        (1, 0x0001_1000_0000_0002),
        (2, 1),
        (18440, 0x000f_f300_0d01),
    ],
};

#[test]
fn comes_back_in_version_2(rt: HostRuntime) -> Result<(), Fail> {
    let mut words = image(rt.alloc(), &LOOSE_SECOND, &[])?;
    gives_all_again(
        &rt,
        rt.alloc(),
        &mut words,
        (18448, 3331),
        16383,
        WHOLE_SECOND,
    )
}
