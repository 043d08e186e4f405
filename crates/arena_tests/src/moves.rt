// Blocks that move from a root to another, in an arena of 16 granules: root 5 has the block of 112 bytes at 67584, and root
// 7 the two granules at 131072.
ghost use Rattle.std.specs.Prelude.{◌≤◌, length};

use crate::arenas::{freed, gave, had, moved, new_arena, write};
use crate::values::same;
use arena_core::{Arena, MoveRefusal, Moved};
use heap_model::Block;
use pmem_lines::{Event, OutOfMemory, Pmem, SimPmem};
use rand_core::SeedableRng;
use rand_xoshiro::SplitMix64;
use std::alloc::Global;
use std::process::Abort;
use std::test::Fail;

const SMALL: Moved = Moved {
    at: 67584,
    size: 112,
};

const LARGE: Moved = Moved {
    at: 131072,
    size: 32768,
};

// A new arena gives both blocks. The small one takes write-ahead line 0.
fn gave_both(arena: &mut Arena<SimPmem>) -> bool {
    let small = gave(arena, 0, 5, 100);
    let large = gave(arena, 0, 7, 20000);
    small && large
}

// The entry of a move stands on a line; a root's word is on line 256 where the root is one of the first eight, and on
// line 257 where it is one of the next eight.
fn events_of(line: u32, entry: u64, from: u32, to: u32, at: u64) -> [Event; 12] {
    let from_at = 16384 + 8 * (from % 16);
    let to_at = 16384 + 8 * (to % 16);
    let entry_at = 512 + 64 * (line % 8);
    [
        Event::Store {
            at: entry_at,
            value: entry,
        },
        Event::Flush {
            line: entry_at / 64,
        },
        Event::Fence,
        Event::Store {
            at: to_at,
            value: at,
        },
        Event::Flush { line: to_at / 64 },
        Event::Fence,
        Event::Store {
            at: from_at,
            value: 0,
        },
        Event::Flush { line: from_at / 64 },
        Event::Fence,
        Event::Store {
            at: entry_at,
            value: 0,
        },
        Event::Flush {
            line: entry_at / 64,
        },
        Event::Fence,
    ]
}

// The address and size of a root's block.
fn block_of(arena: &Arena<SimPmem>, root: u32) -> Option<Moved> {
    match arena.block(root) {
        Some(Block { root: _, at, size }) => Some(Moved { at, size }),
        None => None,
    }
}

// A small block, that one again, and a large one: on lines 1, 2 and 3. The arena is lent to what is tested of it, here and
// below: who has one in hand lets it go at each way out, and each of these is dear to prove.
fn all_move<R: Abort>(rt: &R, arena: &mut Arena<SimPmem>) -> Result<(), Fail> {
    let table = [
        (5, 9, SMALL, 1, 0x0009_0005_0005),
        (9, 2, SMALL, 2, 0x0002_0009_0005),
        (7, 5, LARGE, 3, 0x0005_0007_0005),
    ];
    assert!(rt; gave_both(arena), "no arena of two blocks");
    same(rt, &write(arena, 5, 0, &[31, 32]), &Ok(()));
    for (from, to, block, line, entry) in table {
        assert_eq!(rt; moved(arena, from, to), Ok(block), "from {from} to {to}");
        let events = events_of(line, entry, from, to, u64::from(block.at));
        assert!(rt; had(arena, &events), "events from {from} to {to}");
        same(
            rt,
            &(block_of(arena, from), block_of(arena, to)),
            &(None, Some(block)),
        );
    }
    let first = match arena.view(2) {
        Ok(view) => view.get(1).copied(),
        Err(_) => None,
    };
    same(rt, &first, &Some(32));
    assert!(rt; freed(arena, 0, 2));
    assert!(rt; freed(arena, 0, 5));
    same(rt, &arena.pmem().event_count(), &6);
    Ok(())
}

#[test]
fn blocks_move(rt: HostRuntime) -> Result<(), Fail> {
    let mut arena = new_arena(rt.alloc())?;
    let tested = all_move(&rt, &mut arena);
    drop(arena);
    tested
}

const REFUSED: [(u32, u32, MoveRefusal); 10] = [
    (4096, 4096, MoveRefusal::NoRoot),
    (4096, 5, MoveRefusal::NoRoot),
    (5, 4096, MoveRefusal::NoRoot),
    (6, 4096, MoveRefusal::NoRoot),
    (6, 5, MoveRefusal::Empty),
    (6, 6, MoveRefusal::Empty),
    (4095, 9, MoveRefusal::Empty),
    (5, 5, MoveRefusal::Occupied { at: 67584 }),
    (5, 7, MoveRefusal::Occupied { at: 131072 }),
    (7, 5, MoveRefusal::Occupied { at: 67584 }),
];

// Of two reasons the first is answered. A refusal has no event.
fn all_refused<R: Abort>(rt: &R, arena: &mut Arena<SimPmem>) -> Result<(), Fail> {
    assert!(rt; gave_both(arena), "no arena of two blocks");
    for &(from, to, refusal) in &REFUSED {
        assert_eq!(rt; moved(arena, from, to), Err(refusal), "from {from} to {to}");
        same(rt, &arena.pmem().event_count(), &0);
    }
    same(
        rt,
        &(block_of(arena, 5), block_of(arena, 7)),
        &(Some(SMALL), Some(LARGE)),
    );
    Ok(())
}

#[test]
fn refusals_in_their_order(rt: HostRuntime) -> Result<(), Fail> {
    let mut arena = new_arena(rt.alloc())?;
    let tested = all_refused(&rt, &mut arena);
    drop(arena);
    tested
}

// A word, where there is one.
fn word(words: &[u64], i: usize) -> u64 {
    match words.get(i) {
        Some(word) => *word,
        None => 0,
    }
}

// The root that holds the block by the words of an image: 5 or 9. A move entry that is open says it where both have the
// address.
fn holder(words: &[u64], at: u64) -> Option<u32> {
    let open = word(words, 72) == 0x0009_0005_0005;
    let first = word(words, 2053) == at;
    let second = word(words, 2057) == at;
    if (first && !second) || (first && second && !open) {
        Some(5)
    } else if second && (!first || open) {
        Some(9)
    } else {
        None
    }
}

// The holder by an image of a device behind the first `k` events of its last call, as a generator from `seed` picks.
fn holder_behind(
    alloc: Global,
    device: &SimPmem,
    k: u32,
    seed: u64,
) -> Result<Option<u32>, OutOfMemory>
    requires { k ≤ length device.now.events }
{
    let mut picks = SplitMix64::from_seed(seed.to_le_bytes());
    let words = device.image(alloc, k, &mut picks)?;
    Ok(holder(&words, 67584))
}

// After each number of events: the first three are of the entry, and after the sixth the new root's word is durable.
fn held_after_each<R: Abort>(
    rt: &R,
    alloc: Global,
    arena: &mut Arena<SimPmem>,
) -> Result<(), Fail> {
    assert!(rt; gave_both(arena), "no arena of two blocks");
    same(rt, &moved(arena, 5, 9), &Ok(SMALL));
    for k in 0..=12 {
        for seed in 0..16u64 {
            let device = arena.pmem();
            if k <= device.event_count() {
                let held = holder_behind(alloc, device, k, seed)?;
                let before = k <= 5 && held == Some(5);
                let after = k >= 4 && held == Some(9);
                assert!(rt; before || after, "seed {seed}, after {k}");
            }
        }
    }
    Ok(())
}

#[test]
fn crashes_within(rt: HostRuntime) -> Result<(), Fail> {
    let mut arena = new_arena(rt.alloc())?;
    let tested = held_after_each(&rt, rt.alloc(), &mut arena);
    drop(arena);
    tested
}
