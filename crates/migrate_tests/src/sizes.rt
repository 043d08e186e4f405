// The smallest and the largest arenas, as empty and as full as they may be.
ghost use Rattle.std.specs.Prelude.{◌<◌};

use crate::images::{exact, migrated_arena, outcome_of, outcome_with};
use crate::values::same;
use arena_core::{Arena, MallocRefusal, Placed};
use check_tests::{Put, blank, put};
use heap_model::Block;
use pmem_lines::{OutOfMemory, SimPmem};
use std::alloc::Global;
use std::process::Abort;
use std::test::Fail;

// The text of a header line.
const TEXT: Put = (0, 3_550_894_020_320_384_590);

// The second word of the header line of an arena of 16 and of 1024 granules, of the last arena of a pool of sixteen, and of
// the only one of a pool.
const LAST_SMALL: u64 = 0x0010_0010_000f_0001;

const LAST_LARGE: u64 = 0x0010_0400_000f_0001;

const ONLY_LARGE: u64 = 0x0001_0400_0000_0001;

// Arenas without a block.
#[test]
fn empty(rt: HostRuntime) -> Result<(), Fail> {
    for (second, granules) in [(LAST_SMALL, 16), (LAST_LARGE, 1024)] {
        let size = 2048 * granules as usize;
        same(
            &rt,
            &outcome_with(rt.alloc(), size, &[TEXT, (1, second), (2, 1)])?,
            &exact(15, 16, granules + 9, 0, 0, 0),
        );
    }
    Ok(())
}

// Puts an entry of the log's list, of which each chunk has 120, into its place.
fn put_entry(words: &mut [u64], number: usize, entry: u64)
    requires { number < 960 }
{
    let own = number % 120;
    let at = 6152 + 128 * (number / 120) + 8 * (own % 15) + own / 15;
    put(words, &[(at, entry)]);
}

// An arena of 1024 granules whose eight chunks are full: 450 Tombs, and then 510 large extents of two granules, which is the
// most that there may be. Root k holds the extent that starts at granule 4 + 2k.
fn fill(words: &mut [u64]) {
    put(words, &[TEXT, (1, ONLY_LARGE), (2, 0x0807_0605_0403_0201)]);
    for number in 0..450usize {
        put_entry(words, number, 3 + 256 * (4 + number as u64));
    }
    for extent in 0..510usize {
        let start = 4 + 2 * extent as u64;
        put_entry(words, 450 + extent, 1 + 256 * start + 0x0200_0000);
        put(words, &[(2048 + extent, 16384 * start)]);
    }
}

fn full(alloc: Global) -> Result<Vec<u64>, OutOfMemory> {
    let mut words = blank(alloc, 2_097_152)?;
    fill(&mut words);
    Ok(words)
}

// The arena has all of these extents, as blocks of as much higher addresses.
fn is_full(arena: &Arena<SimPmem>) -> bool {
    for root in 0..510u32 {
        let block = Block {
            root,
            at: 212_992 + 32768 * root,
            size: 32768,
        };
        if arena.block(root) != Some(block) {
            return false;
        }
    }
    true
}

// Whether an arena is full, and what it answers to a malloc, and to the same one once the last block was freed.
type Filled = (bool, Option<MallocRefusal>, Option<Placed>);

fn fills_again(arena: &mut Arena<SimPmem>) -> Filled {
    let full = is_full(arena);
    let refused = arena.malloc_to(0, 16383, 20000).err();
    let _ = arena.free_from(0, 509);
    (full, refused, arena.malloc_to(0, 16383, 20000).ok())
}

// The same of the arena that these words are migrated to. `None` where there is none.
fn migrated_fills_again(alloc: Global, words: &[u64]) -> Result<Option<Filled>, OutOfMemory> {
    match migrated_arena(alloc, words)? {
        Some(mut arena) => Ok(Some(fills_again(&mut arena))),
        None => Ok(None),
    }
}

fn stay_full<R: Abort>(rt: &R, alloc: Global, words: &[u64]) -> Result<(), Fail> {
    same(
        rt,
        &outcome_of(alloc, words)?,
        &exact(0, 1, 1033, 510, 0, 510),
    );
    let last = Placed {
        at: 16_891_904,
        size: 32768,
    };
    same(
        rt,
        &migrated_fills_again(alloc, words)?,
        &Some((true, Some(MallocRefusal::NoSpace), Some(last))),
    );
    Ok(())
}

// Its heap is full in version 2 too, and there is space again where a block was freed.
#[test]
fn full_log(rt: HostRuntime) -> Result<(), Fail> {
    let words = full(rt.alloc())?;
    stay_full(&rt, rt.alloc(), &words)
}
