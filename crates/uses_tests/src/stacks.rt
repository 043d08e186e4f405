// A stack's calls, and a push that is stopped at every event.
use crate::values::same;
use arena_core::{Arena, ArenaRoom};
use pmem_lines::{OutOfMemory, Pmem, SimPmem};
use rand_core::SeedableRng;
use rand_xoshiro::SplitMix64;
use std::alloc::Global;
use std::process::Abort;
use std::test::Fail;
use uses::{PopRefusal, PushRefusal, Record, RecordStack, ReopenFault, reopen};

const LOW: Record = [1, 2, 3, 4, 5, 6, 7, 8];

const HIGH: Record = [9, 10, 11, 12, 13, 14, 15, u64::MAX];

// An arena of 16 to 1024 granules in which no root names a block.
fn new_arena(alloc: Global, granules: u32) -> Result<Arena<SimPmem>, OutOfMemory> {
    let granules = granules.clamp(16, 1024);
    let device = SimPmem::zeroed(alloc, 256 * granules, 2048)?;
    let room = ArenaRoom::new(alloc, granules)?;
    Ok(Arena::format(room, device, 0, 1))
}

// An arena of version 2 of 25 granules, in which no root names a block.
#[tactic(auto, using(arena_core::proofs::Readiness::second_room, arena_core::proofs::Readiness::second_least, arena_core::proofs::Readiness::second_most), unfolding(pool_layout::specs::Layout::all_granules))]
fn second_arena(alloc: Global) -> Result<Arena<SimPmem>, OutOfMemory> {
    let device = SimPmem::zeroed(alloc, 6400, 4096)?;
    let room = ArenaRoom::new(alloc, 25)?;
    Ok(Arena::format_v2(room, device, 0, 1))
}

fn new_stack(alloc: Global, granules: u32) -> Result<RecordStack<SimPmem>, Fail> {
    over(new_arena(alloc, granules)?)
}

// The stack of an arena that is one.
fn over(arena: Arena<SimPmem>) -> Result<RecordStack<SimPmem>, Fail> {
    match RecordStack::over(arena) {
        Ok(stack) => Ok(stack),
        Err(arena) => {
            drop(arena);
            Err(Fail::from("no stack"))
        }
    }
}

// Two records come to a stack without any and go again. Who has a stack in hand lets it go at each way out, which is dear to
// prove: so it is lent to the calls that are tested, here and below.
fn come_and_go<R: Abort>(rt: &R, stack: &mut RecordStack<SimPmem>) -> Result<(), Fail> {
    assert!(rt; stack.is_empty());
    same(rt, &stack.pop(), &Err(PopRefusal::Empty));
    assert!(rt; stack.top().is_none());
    stack.push(&LOW)?;
    stack.push(&HIGH)?;
    go_again(rt, stack)
}

// The one that came last goes first.
fn go_again<R: Abort>(rt: &R, stack: &mut RecordStack<SimPmem>) -> Result<(), Fail> {
    same(rt, &stack.len(), &2);
    same(rt, &stack.top(), &Some(HIGH.as_slice()));
    stack.pop()?;
    same(rt, &stack.top(), &Some(LOW.as_slice()));
    stack.pop()?;
    same(rt, &stack.len(), &0);
    Ok(())
}

#[test]
fn the_last_record_comes_first(rt: HostRuntime) -> Result<(), Fail> {
    let mut stack = new_stack(rt.alloc(), 16)?;
    let tested = come_and_go(&rt, &mut stack);
    drop(stack);
    tested
}

// So many records come to a stack of an arena of so many granules, and then this refusal.
fn fills<R: Abort>(
    rt: &R,
    stack: &mut RecordStack<SimPmem>,
    records: u32,
    refusal: PushRefusal,
) -> Result<(), Fail> {
    for _ in 0..records {
        stack.push(&LOW)?;
    }
    same(rt, &stack.push(&HIGH), &Err(refusal));
    same(rt, &stack.len(), &records);
    same(rt, &stack.top(), &Some(LOW.as_slice()));
    Ok(())
}

// Twelve granules are three slabs of 992 blocks of 64 bytes.
#[test]
fn the_heap_has_no_place(rt: HostRuntime) -> Result<(), Fail> {
    let mut stack = new_stack(rt.alloc(), 16)?;
    let tested = fills(&rt, &mut stack, 2976, PushRefusal::NoSpace);
    drop(stack);
    tested
}

#[test]
fn every_root_has_a_record(rt: HostRuntime) -> Result<(), Fail> {
    let mut stack = new_stack(rt.alloc(), 24)?;
    let tested = fills(&rt, &mut stack, 4095, PushRefusal::Full);
    drop(stack);
    tested
}

#[test]
fn another_heap_is_no_stack(rt: HostRuntime) -> Result<(), Fail> {
    let mut arena = new_arena(rt.alloc(), 16)?;
    let given = arena.malloc_to(0, 1, 64);
    let refused = match RecordStack::over(arena) {
        Ok(stack) => {
            drop(stack);
            false
        }
        Err(arena) => {
            drop(arena);
            true
        }
    };
    assert!(rt; given.is_ok() && refused);
    Ok(())
}

// A stack in an arena of version 2 has the roots up to its stage, and leaves those behind it alone.
fn leaves_root_4096<R: Abort>(rt: &R, stack: &mut RecordStack<SimPmem>) -> Result<(), Fail> {
    come_and_go(rt, stack)?;
    assert!(rt; stack.arena().block(4096).is_some());
    Ok(())
}

#[test]
fn other_roots_are_left(rt: HostRuntime) -> Result<(), Fail> {
    let mut arena = second_arena(rt.alloc())?;
    let given = arena.malloc_to(0, 4096, 64);
    let mut stack = over(arena)?;
    let tested = leaves_root_4096(&rt, &mut stack);
    drop(stack);
    assert!(rt; given.is_ok());
    tested
}

// The stack that is reopened from the image behind the first `k` events of a device, as a generator from `seed` picks.
fn reopened(
    alloc: Global,
    device: &SimPmem,
    k: u32,
    seed: u64,
) -> Result<RecordStack<SimPmem>, ReopenFault> {
    if k > device.event_count() {
        return Err(ReopenFault::NoStack);
    }
    let mut picks = SplitMix64::seed_from_u64(seed);
    let image = device
        .image(alloc, k, &mut picks)
        .map_err(ReopenFault::Memory)?;
    if image.len() % 8 != 0 || image.len() < 8 || image.len() > 8_388_608 {
        return Err(ReopenFault::NoStack);
    }
    match SimPmem::from_image(alloc, &image, 4096) {
        Ok(device) => match reopen(alloc, device) {
            Ok(stack) => Ok(stack),
            Err((fault, _)) => Err(fault),
        },
        Err(error) => Err(ReopenFault::Memory(error)),
    }
}

// After a stop at each event of the last call of an arena, for the seeds 0, 1 and 2, the stack has LOW alone with an empty
// stage, or HIGH above it where the call may show that.
fn all_stop<R: Abort>(
    rt: &R,
    alloc: Global,
    arena: &Arena<SimPmem>,
    shows: bool,
) -> Result<(), Fail> {
    let device = arena.pmem();
    let events = device.event_count();
    for k in 0..=events {
        for seed in 0..3 {
            let stack = reopened(alloc, device, k, seed)?;
            let stood = stands(rt, &stack, !(shows && k == events), shows && k > 0);
            drop(stack);
            stood?;
        }
    }
    Ok(())
}

// A stack has LOW alone where it may be the old one, or HIGH above it where it may be the new one, and its stage is empty.
fn stands<R: Abort>(
    rt: &R,
    stack: &RecordStack<SimPmem>,
    old: bool,
    new: bool,
) -> Result<(), Fail> {
    let top = stack.top().ok_or("no record")?;
    let is_old = stack.len() == 1 && top == LOW.as_slice();
    let is_new = stack.len() == 2 && top == HIGH.as_slice();
    assert!(rt; is_old && old || is_new && new);
    assert!(rt; stack.arena().block(4095).is_none());
    Ok(())
}

// The three calls of a push, one by one.
fn push_by_steps<R: Abort>(rt: &R, alloc: Global, arena: &mut Arena<SimPmem>) -> Result<(), Fail> {
    arena.malloc_to(0, 4095, 64)?;
    all_stop(rt, alloc, arena, false)?;
    arena.write(4095, 0, &HIGH)?;
    all_stop(rt, alloc, arena, false)?;
    arena.move_to(4095, 1)?;
    all_stop(rt, alloc, arena, true)
}

// The arena of a stack that has LOW alone.
fn arena_with_low(alloc: Global) -> Result<Arena<SimPmem>, Fail> {
    let mut stack = new_stack(alloc, 16)?;
    match stack.push(&LOW) {
        Ok(()) => Ok(stack.into_arena()),
        Err(refusal) => {
            drop(stack);
            Err(refusal.into())
        }
    }
}

#[test]
fn a_push_is_stopped(rt: HostRuntime) -> Result<(), Fail> {
    let mut arena = arena_with_low(rt.alloc())?;
    let tested = push_by_steps(&rt, rt.alloc(), &mut arena);
    drop(arena);
    tested
}

// The device of a whole push has the events of its last call.
fn push_both<R: Abort>(
    rt: &R,
    alloc: Global,
    stack: &mut RecordStack<SimPmem>,
) -> Result<(), Fail> {
    stack.push(&LOW)?;
    stack.push(&HIGH)?;
    all_stop(rt, alloc, stack.arena(), true)
}

#[test]
fn a_push_ends_with_a_move(rt: HostRuntime) -> Result<(), Fail> {
    let mut stack = new_stack(rt.alloc(), 16)?;
    let tested = push_both(&rt, rt.alloc(), &mut stack);
    drop(stack);
    tested
}
