// Blocks that move from a root to another: an old one of a slab that took another class, and what recovery finds once a
// crash came within a move.
use crate::images::{Passed, crash_in_a_move, freed, passes};
use crate::values::same;
use arena_core::Moved;
use check_tests::{IN_TRANSITION, ONE_BLOCK};
use std::test::Fail;

// The old block goes from its new root as it would from the old one: with it goes the slab's transition.
#[test]
fn old_block_moves(rt: HostRuntime) -> Result<(), Fail> {
    let wanted = Passed {
        moved: Some(Moved {
            at: 198656,
            size: 64,
        }),
        moving: 12,
        freed: freed(198656, 64),
        freeing: 14,
    };
    same(
        &rt,
        &passes(rt.alloc(), &IN_TRANSITION, 1, 9)?,
        &Some(wanted),
    );
    Ok(())
}

// Of a small block, an old one and a large one: up to the third event it is the old root's, and from the sixth on the new
// one's.
#[test]
fn crashes_within(rt: HostRuntime) -> Result<(), Fail> {
    for k in 0..=12 {
        for seed in 0..4u64 {
            let small = crash_in_a_move(rt.alloc(), &ONE_BLOCK, 5, 9, k, seed)?;
            let old = crash_in_a_move(rt.alloc(), &IN_TRANSITION, 1, 9, k, seed)?;
            let large = crash_in_a_move(rt.alloc(), &IN_TRANSITION, 0, 4095, k, seed)?;
            for (left, at) in [(small, 67584), (old, 198656), (large, 65536)] {
                let before = k <= 5 && left == Some((at, 0));
                let after = k >= 4 && left == Some((0, at));
                assert!(rt; before || after, "at {at}, seed {seed}, after {k}");
            }
        }
    }
    Ok(())
}
