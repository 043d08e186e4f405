// Calls that a generator draws, of an arena that is full most of the time.
use arena_variants::Variant;
use heap_model::Call;
use pmem_lines::OutOfMemory;
use rand_core::SeedableRng;
use rand_core::utils::NextWord;
use rand_xoshiro::SplitMix64;
use std::alloc::Global;

const CALLS: u32 = 200;

const ROOTS: u32 = 30;

const SEATS: u64 = 5;

const SEED: u64 = 4;

/// The calls: five seats ask for blocks for 30 roots of an arena of 16 granules, free them, move them where that may be, and write to
/// them.
pub(crate) fn full_arena<V: Variant>(alloc: Global) -> Result<Vec<(u32, Call)>, OutOfMemory> {
    let mut arena = V::new_arena(alloc, 1, 16)?;
    calls_on(alloc, &mut arena)
}

// The calls, as they are made.
fn calls_on<V: Variant>(alloc: Global, arena: &mut V) -> Result<Vec<(u32, Call)>, OutOfMemory> {
    let mut picks = SplitMix64::seed_from_u64(SEED);
    let mut calls = Vec::new(alloc);
    for _ in 0..CALLS {
        let seat = (picks.next_word() % SEATS) as u32;
        let call = drawn(arena, picks.next_word(), picks.next_word());
        arena.make(seat, call);
        calls.push((seat, call))?;
    }
    Ok(calls)
}

// What two drawn words ask for: at half of them a block for a root that has none.
fn drawn<V: Variant>(arena: &V, one: u64, other: u64) -> Call {
    let from = (one / 8 % u64::from(ROOTS)) as u32;
    let full = root_from(arena, from, true);
    let empty = root_from(arena, from, false);
    match one % 8 {
        0..=3 => Call::Malloc {
            root: empty,
            size: size_of(other),
        },
        4 | 5 => Call::Free { root: full },
        6 if V::MOVES => Call::Move {
            from: full,
            to: empty,
        },
        _ => Call::Write {
            root: full,
            index: 0,
            value: other,
        },
    }
}

// The first root from one on, and then from 0 on, that has a block, or that has none; the one where there is no such root.
fn root_from<V: Variant>(arena: &V, from: u32, has_block: bool) -> u32 {
    for root in (from..ROOTS).chain(0..from) {
        if arena.named(root).is_some() == has_block {
            return root;
        }
    }
    from
}

// Of eight blocks one is large, of two to five granules. The others have up to 512 bytes, or up to 1, 2, 4 or 8 KiB.
fn size_of(word: u64) -> u64 {
    let drawn = word / 1024;
    if word % 8 == 0 {
        16_385 + drawn % 65_536
    } else {
        1 + drawn % (512 << (word / 8 % 5))
    }
}
