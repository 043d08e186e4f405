// The words of blocks, in an arena of 16 granules. Root 5 has the block of 112 bytes at 67584, which are 14 words on lines
// 1056 and 1057.
use crate::arenas::{freed, gave, had, new_arena, write};
use crate::values::same;
use arena_core::{Arena, BlockRefusal};
use pmem_lines::{Event, SimPmem};
use std::process::Abort;
use std::test::Fail;

// The words that a root's block has.
fn has(arena: &Arena<SimPmem>, root: u32, words: &[u64]) -> bool {
    match arena.view(root) {
        Ok(view) => view == words,
        Err(_) => false,
    }
}

// Four words on two lines. An arena is lent to what is tested of it, here and below: who has one in hand lets it go at each way
// out, and each of these is dear to prove.
fn lie_across_two_lines<R: Abort>(rt: &R, arena: &mut Arena<SimPmem>) -> Result<(), Fail> {
    assert!(rt; gave(arena, 0, 5, 100), "no block");
    same(rt, &write(arena, 5, 6, &[1, 2, 3, 4]), &Ok(()));
    assert!(rt;
        had(
            arena,
            &[
                Event::Store {
                    at: 67632,
                    value: 1
                },
                Event::Store {
                    at: 67640,
                    value: 2
                },
                Event::Store {
                    at: 67648,
                    value: 3
                },
                Event::Store {
                    at: 67656,
                    value: 4
                },
                Event::Flush { line: 1056 },
                Event::Flush { line: 1057 },
                Event::Fence,
            ],
        )
    );
    assert!(rt; has(arena, 5, &[0, 0, 0, 0, 0, 0, 1, 2, 3, 4, 0, 0, 0, 0]));
    Ok(())
}

#[test]
fn across_two_lines(rt: HostRuntime) -> Result<(), Fail> {
    let mut arena = new_arena(rt.alloc())?;
    let tested = lie_across_two_lines(&rt, &mut arena);
    drop(arena);
    tested
}

// What lies past the end is refused, with no event, also where no words are written.
fn end_with_their_block<R: Abort>(rt: &R, arena: &mut Arena<SimPmem>) -> Result<(), Fail> {
    assert!(rt; gave(arena, 0, 5, 100), "no block");
    same(rt, &write(arena, 5, 12, &[8, 9]), &Ok(()));
    assert!(rt;
        had(
            arena,
            &[
                Event::Store {
                    at: 67680,
                    value: 8
                },
                Event::Store {
                    at: 67688,
                    value: 9
                },
                Event::Flush { line: 1057 },
                Event::Fence,
            ],
        )
    );
    for (from, count, wanted) in [
        (13, 2, Err(BlockRefusal::OutOfRange)),
        (14, 1, Err(BlockRefusal::OutOfRange)),
        (4294967295, 1, Err(BlockRefusal::OutOfRange)),
        (14, 0, Ok(())),
        (15, 0, Err(BlockRefusal::OutOfRange)),
    ] {
        assert_eq!(rt;
            write(arena, 5, from, &[1, 2][..count]),
            wanted,
            "{count} at {from}"
        );
        assert!(rt; had(arena, &[]), "{count} at {from}");
    }
    assert!(rt; has(arena, 5, &[0, 0, 0, 0, 0, 0, 0, 0, 0, 0, 0, 0, 8, 9]));
    Ok(())
}

#[test]
fn at_the_end(rt: HostRuntime) -> Result<(), Fail> {
    let mut arena = new_arena(rt.alloc())?;
    let tested = end_with_their_block(&rt, &mut arena);
    drop(arena);
    tested
}

fn have_no_block<R: Abort>(rt: &R, arena: &mut Arena<SimPmem>) -> Result<(), Fail> {
    same(rt, &write(arena, 4096, 0, &[1]), &Err(BlockRefusal::NoRoot));
    same(
        rt,
        &write(arena, 4095, 4294967295, &[1]),
        &Err(BlockRefusal::Empty),
    );
    assert!(rt; matches!(arena.view(4096), Err(BlockRefusal::NoRoot)));
    assert!(rt; matches!(arena.view(4095), Err(BlockRefusal::Empty)));
    assert!(rt; had(arena, &[]));
    Ok(())
}

#[test]
fn no_block(rt: HostRuntime) -> Result<(), Fail> {
    let mut arena = new_arena(rt.alloc())?;
    let tested = have_no_block(&rt, &mut arena);
    drop(arena);
    tested
}

fn are_the_longest<R: Abort>(rt: &R, arena: &mut Arena<SimPmem>) -> Result<(), Fail> {
    assert!(rt; gave(arena, 0, 7, 20000));
    same(rt, &write(arena, 7, 1, &[3; 512]), &Ok(()));
    same(rt, &arena.pmem().event_count(), &578);
    match arena.view(7) {
        Ok(view) => {
            same(rt, &view.len(), &4096);
            let first = (view.get(0).copied(), view.get(1).copied());
            same(rt, &first, &(Some(0), Some(3)));
            let last = (view.get(512).copied(), view.get(513).copied());
            same(rt, &last, &(Some(3), Some(0)));
        }
        Err(_) => assert!(rt; false),
    }
    Ok(())
}

#[test]
fn the_longest(rt: HostRuntime) -> Result<(), Fail> {
    let mut arena = new_arena(rt.alloc())?;
    let tested = are_the_longest(&rt, &mut arena);
    drop(arena);
    tested
}

fn stay_while_others_come_and_go<R: Abort>(rt: &R, arena: &mut Arena<SimPmem>) -> Result<(), Fail> {
    assert!(rt; gave(arena, 0, 5, 16));
    same(rt, &write(arena, 5, 0, &[11, 12]), &Ok(()));
    assert!(rt; gave(arena, 1, 6, 16));
    same(rt, &write(arena, 6, 0, &[13, 14]), &Ok(()));
    assert!(rt; gave(arena, 0, 7, 40000));
    assert!(rt; freed(arena, 0, 6));
    assert!(rt; gave(arena, 0, 8, 16));
    same(rt, &write(arena, 8, 1, &[15]), &Ok(()));
    assert!(rt; freed(arena, 0, 7));
    assert!(rt; has(arena, 5, &[11, 12]));
    assert!(rt; has(arena, 8, &[13, 15]));
    assert!(rt; matches!(arena.view(6), Err(BlockRefusal::Empty)));
    Ok(())
}

#[test]
fn others_come_and_go(rt: HostRuntime) -> Result<(), Fail> {
    let mut arena = new_arena(rt.alloc())?;
    let tested = stay_while_others_come_and_go(&rt, &mut arena);
    drop(arena);
    tested
}
