// The log of an arena of the GC variant gets room: its entries are those of large blocks, so that a call has as many events as in the
// other variant.
use crate::arenas::{arena_of, counts, gives, gives_and_frees, new_arena};
use gc_heap::GcArena;
use pmem_lines::SimPmem;
use std::test::Fail;

// The malloc of pair 61 finds chunk 0 full, drops it and takes chunk 1.
fn rolls(arena: &mut GcArena<SimPmem>) -> bool {
    gives_and_frees(arena, 0, 20000, 60)
        && gives(arena, 0, 20000, 65536, 32768)
        && counts(arena, 145)
}

#[test]
fn a_log_rolls(rt: HostRuntime) -> Result<(), Fail> {
    let mut arena = new_arena(rt.alloc())?;
    let right = rolls(&mut arena);
    drop(arena);
    assert!(&rt; right);
    Ok(())
}

// Eight chunks are full, of which each has a live extent.
fn fills(arena: &mut GcArena<SimPmem>) -> bool {
    for k in 0..8 {
        let first = 65536 * (k + 1);
        let filled = gives(arena, 2 * k, 20000, first, 32768)
            && gives_and_frees(arena, 100, 20000, 59)
            && gives(arena, 2 * k + 1, 20000, first + 32768, 32768);
        if !filled {
            return false;
        }
    }
    true
}

// The next entry has the log rewritten, into one chunk.
fn rewrites(arena: &mut GcArena<SimPmem>) -> bool {
    fills(arena) && gives(arena, 101, 20000, 589824, 32768) && counts(arena, 145)
}

#[test]
fn a_log_is_rewritten(rt: HostRuntime) -> Result<(), Fail> {
    let mut arena = arena_of(rt.alloc(), 64)?;
    let right = rewrites(&mut arena);
    drop(arena);
    assert!(&rt; right);
    Ok(())
}
