// Journals, receipts and lengths of a pool, on one thread and on two.
//
// A test lends its pool to what makes the calls, and lets it go in one place: whatever holds a pool has it to let go at each of
// its ways out, arena by arena.
ghost use Rattle.std.specs.Prelude.{◌≡◌, ◌<◌, [], ◌∷◌, length, IfOk};
ghost use Rattle.shared_pool.specs.Passes.{IsPassOf};
ghost use Rattle.pool_tests.specs.CallsLeft.{CanCall};

use crate::callers::{
    Caller, TriedCall, arena_lock_of_two, close, empty_arena, one_arena, pool_of, start_and_close,
};
use crate::threads::try_beside_a_store;
use crate::watched::{Flags, Watched};
use arena_core::{Arena, ArenaRoom};
use arena_lock::{ArenaLock, LockSeat};
use heap_model::{Call, Reply};
use lock_tests::LookBeside;
use pmem_lines::{OutOfMemory, SimPmem};
use shared_pool::{ClosedArena, PoolArena, PoolJob, Receipt, SharedPool, TryRefusal};
use std::alloc::Global;
use std::fmt::Debug;
use std::process::Abort;
use std::sync::{Arc, Wait};
use std::thread::Threads;

// Replies of the first block of 112 bytes of an empty arena.
const PLACED: Reply = Reply::Placed {
    at: 67584,
    size: 112,
};

const OCCUPIED: Reply = Reply::Occupied { at: 67584 };

const FREED: Reply = Reply::Freed {
    at: 67584,
    size: 112,
};

// The value that is there is the one that is wanted. To the prover a call costs a fifth of an `assert_eq!` in the test itself.
fn same<R: Abort, T: PartialEq + Debug>(rt: &R, there: &T, wanted: &T) {
    assert_eq!(rt; there, wanted);
}

fn malloc(root: u32, size: u64) -> Call {
    Call::Malloc { root, size }
}

fn write(root: u32, index: u32, value: u64) -> Call {
    Call::Write { root, index, value }
}

// The receipt of a try, which was not busy.
fn made<R: Abort>(rt: &R, tried: Result<Receipt, TryRefusal>) -> Result<Receipt, OutOfMemory> {
    match tried {
        Ok(receipt) => Ok(receipt),
        Err(TryRefusal::Memory(error)) => Err(error),
        Err(TryRefusal::Busy) => panic!(rt; "busy"),
    }
}

// Two passes ask for one root: the second receipt is behind the first, and its entry has the refusal. Then it is freed.
#[test]
fn one_root_for_two_passes(rt: HostRuntime) -> Result<(), OutOfMemory> {
    let alloc = rt.alloc();
    let (pool, mut zero, mut one) = pool_of(alloc, one_arena(alloc)?)?;
    let asked = ask_for_one_root(&rt, alloc, &pool, &mut zero, &mut one);
    drop(pool);
    asked
}

fn ask_for_one_root<R: Abort + Wait>(
    rt: &R,
    alloc: Global,
    pool: &SharedPool<SimPmem>,
    zero: &mut Caller,
    one: &mut Caller,
) -> Result<(), OutOfMemory>
    requires arena { 0 < length pool.now.locks }
    requires zero { CanCall pool.now zero.old }
    requires one { CanCall pool.now one.old }
{
    let first = zero.call(rt, alloc, pool, 0, malloc(5, 100))?;
    let second = one.call(rt, alloc, pool, 0, malloc(5, 100))?;
    same(rt, &first.place, &0);
    same(rt, &first.entry.reply, &PLACED);
    same(rt, &second.place, &1);
    same(rt, &second.entry.seat, &1);
    same(rt, &second.entry.reply, &OCCUPIED);
    same(rt, &zero.seen(pool, 0), &1);
    same(rt, &one.seen(pool, 0), &2);
    let third = zero.call(rt, alloc, pool, 0, Call::Free { root: 5 })?;
    same(rt, &third.place, &2);
    same(rt, &third.entry.reply, &FREED);
    Ok(())
}

// What one pass did is published, and a pass that has seen nothing reads it.
#[test]
fn lengths_of_a_journal(rt: HostRuntime) -> Result<(), OutOfMemory> {
    let alloc = rt.alloc();
    let (pool, mut zero, mut one) = pool_of(alloc, one_arena(alloc)?)?;
    let asked = ask_for_lengths(&rt, alloc, &pool, &mut zero, &mut one);
    drop(pool);
    asked
}

fn ask_for_lengths<R: Abort + Wait>(
    rt: &R,
    alloc: Global,
    pool: &SharedPool<SimPmem>,
    zero: &mut Caller,
    one: &mut Caller,
) -> Result<(), OutOfMemory>
    requires arena { 0 < length pool.now.locks }
    requires zero { CanCall pool.now zero.old }
    requires one { CanCall pool.now one.old }
{
    zero.call(rt, alloc, pool, 0, malloc(1, 64))?;
    zero.call(rt, alloc, pool, 0, malloc(2, 64))?;
    same(rt, &zero.published(pool, 0), &2);
    same(rt, &one.published(pool, 0), &2);
    same(rt, &one.seen(pool, 0), &0);
    Ok(())
}

// The same at a lock over one arena, where the other seat reads while the turn is held.
#[test]
fn length_inside_a_turn_of_an_arena(rt: HostRuntime) -> Result<(), OutOfMemory> {
    let (lock, mut zero, one) = arena_lock_of_two(rt.alloc())?;
    match make_two_calls(&rt, &lock, &mut zero) {
        Ok(()) => {
            read_in_a_turn(&rt, &lock, &mut zero, one);
            Ok(())
        }
        Err(error) => Err(error),
    }
}

fn make_two_calls<R: Wait>(
    rt: &R,
    lock: &ArenaLock<PoolArena<SimPmem>>,
    zero: &mut LockSeat,
) -> Result<(), OutOfMemory>
    requires lock { zero.old.lock ≡ lock.now.id }
    requires number { zero.old.numbers ≡ 0 ∷ [] }
    requires left { 2 < zero.old.turns }
    ensures lock { zero.new.lock ≡ lock.now.id }
    ensures number { zero.new.numbers ≡ 0 ∷ [] }
    ensures left { 0 < zero.new.turns }
{
    let call = Call::Malloc { root: 1, size: 64 };
    lock.with_turn(rt, zero, PoolJob { seat: 0, call })?;
    let call = Call::Malloc { root: 2, size: 64 };
    lock.with_turn(rt, zero, PoolJob { seat: 0, call })?;
    Ok(())
}

fn read_in_a_turn<R: Abort + Wait>(
    rt: &R,
    lock: &ArenaLock<PoolArena<SimPmem>>,
    zero: &mut LockSeat,
    one: LockSeat,
)
    requires lock { zero.old.lock ≡ lock.now.id }
    requires number { zero.old.numbers ≡ 0 ∷ [] }
    requires left { 0 < zero.old.turns }
    requires other { one.lock ≡ lock.now.id }
{
    let beside = LookBeside {
        seat: 0,
        lock,
        other: one,
    };
    let (count, _one) = lock.with_turn(rt, zero, beside);
    same(rt, &count, &2);
}

// Tries where nobody else has the turn are made, and the journal has them.
#[test]
fn tries_on_one_thread(rt: HostRuntime) -> Result<(), OutOfMemory> {
    let alloc = rt.alloc();
    let (pool, mut zero, one) = pool_of(alloc, one_arena(alloc)?)?;
    let tries = try_one_root(&rt, alloc, &pool, &mut zero);
    close_behind_tries(&rt, alloc, pool, zero, one, tries)
}

// Tries 100 bytes for root 5, and to free it again.
fn try_one_root<R: Abort>(
    rt: &R,
    alloc: Global,
    pool: &SharedPool<SimPmem>,
    zero: &mut Caller,
) -> Result<(Receipt, Receipt), OutOfMemory>
    requires arena { 0 < length pool.now.locks }
    requires can { CanCall pool.now zero.old }
    ensures can { CanCall pool.now zero.new }
    ensures number { zero.new.pass.number ≡ zero.old.pass.number }
{
    let tried = zero.try_call(alloc, pool, 0, TriedCall::Malloc { root: 5, size: 100 });
    let placed = made(rt, tried)?;
    let tried = zero.try_call(alloc, pool, 0, TriedCall::Free { root: 5 });
    let freed = made(rt, tried)?;
    Ok((placed, freed))
}

// Ends the pool, and looks at what these tries left.
fn close_behind_tries<R: Abort>(
    rt: &R,
    alloc: Global,
    pool: SharedPool<SimPmem>,
    zero: Caller,
    one: Caller,
    tries: Result<(Receipt, Receipt), OutOfMemory>,
) -> Result<(), OutOfMemory>
    requires seats { pool.seats ≡ 2 }
    requires zero { IsPassOf pool zero.pass × (zero.pass.number ≡ 0) }
    requires one { IsPassOf pool one.pass × (one.pass.number ≡ 1) }
{
    let closed = close(alloc, pool, zero, one)?;
    are_in_the_journal(rt, &closed, tries)
}

fn are_in_the_journal<R: Abort>(
    rt: &R,
    closed: &[ClosedArena<SimPmem>],
    tries: Result<(Receipt, Receipt), OutOfMemory>,
) -> Result<(), OutOfMemory> {
    let (placed, freed) = tries?;
    same(rt, &(placed.place, placed.entry.reply), &(0, PLACED));
    same(rt, &(freed.place, freed.entry.reply), &(1, FREED));
    same(rt, &closed.len(), &1);
    for arena in closed {
        same(
            rt,
            &arena.journal.as_slice(),
            &[placed.entry, freed.entry].as_slice(),
        );
        same(rt, &arena.arena.block(5), &None);
    }
    Ok(())
}

// One pass writes a word and another reads it: the journal has both, and the read leaves the memory behind the write.
#[test]
fn a_word_for_two_passes(rt: HostRuntime) -> Result<(), OutOfMemory> {
    let alloc = rt.alloc();
    let (pool, mut zero, mut one) = pool_of(alloc, one_arena(alloc)?)?;
    let passed = pass_a_word(&rt, alloc, &pool, &mut zero, &mut one);
    close_behind_a_word(&rt, alloc, pool, zero, one, passed)
}

fn pass_a_word<R: Abort + Wait>(
    rt: &R,
    alloc: Global,
    pool: &SharedPool<SimPmem>,
    zero: &mut Caller,
    one: &mut Caller,
) -> Result<(), OutOfMemory>
    requires arena { 0 < length pool.now.locks }
    requires zero { CanCall pool.now zero.old }
    requires one { CanCall pool.now one.old }
    ensures zero { CanCall pool.now zero.new × (zero.new.pass.number ≡ zero.old.pass.number) }
    ensures one { CanCall pool.now one.new × (one.new.pass.number ≡ one.old.pass.number) }
{
    zero.call(rt, alloc, pool, 0, malloc(5, 100))?;
    let none = one.call(rt, alloc, pool, 0, write(6, 13, 77))?;
    let wrote = zero.call(rt, alloc, pool, 0, write(5, 13, 77))?;
    let read = one.call(rt, alloc, pool, 0, Call::Read { root: 5, index: 13 })?;
    let past = one.call(rt, alloc, pool, 0, Call::Read { root: 5, index: 14 })?;
    same(rt, &(none.place, none.entry.reply), &(1, Reply::Empty));
    same(rt, &(wrote.place, wrote.entry.reply), &(2, Reply::Wrote));
    same(
        rt,
        &(read.place, read.entry.reply),
        &(3, Reply::Value { word: 77 }),
    );
    same(rt, &(past.place, past.entry.reply), &(4, Reply::OutOfRange));
    Ok(())
}

// Ends the pool, and looks at what is left, if the word was passed.
fn close_behind_a_word<R: Abort>(
    rt: &R,
    alloc: Global,
    pool: SharedPool<SimPmem>,
    zero: Caller,
    one: Caller,
    passed: Result<(), OutOfMemory>,
) -> Result<(), OutOfMemory>
    requires seats { pool.seats ≡ 2 }
    requires zero { IsPassOf pool zero.pass × (zero.pass.number ≡ 0) }
    requires one { IsPassOf pool one.pass × (one.pass.number ≡ 1) }
{
    let closed = close(alloc, pool, zero, one)?;
    has_five_entries(rt, &closed, passed)
}

fn has_five_entries<R: Abort>(
    rt: &R,
    closed: &[ClosedArena<SimPmem>],
    passed: Result<(), OutOfMemory>,
) -> Result<(), OutOfMemory> {
    passed?;
    for arena in closed {
        same(rt, &arena.journal.len(), &5);
        same(rt, &arena.arena.pmem().event_count(), &3);
    }
    Ok(())
}

#[tactic(auto, using(arena_core::proofs::Readiness::first_room, arena_core::proofs::Readiness::first_most))]
fn watched_arena(
    alloc: Global,
    number: u32,
    flags: Arc<Flags>,
) -> Result<Arena<Watched>, OutOfMemory>
    requires { number < 2 }
{
    let memory = Watched::new(SimPmem::zeroed(alloc, 4096, 2048)?, flags);
    let room = ArenaRoom::new(alloc, 16)?;
    Ok(Arena::format(room, memory, number, 2))
}

// Two arenas of a pool, of which the first one's memory has these flags.
fn watched_arenas(alloc: Global, flags: &Arc<Flags>) -> Result<Vec<Arena<Watched>>, OutOfMemory>
    ensures { IfOk result (λ arenas. length arenas.items ≡ 2) }
{
    let mut arenas = Vec::new(alloc);
    arenas.push(watched_arena(alloc, 0, flags.clone()?)?)?;
    arenas.push(watched_arena(alloc, 1, Arc::new(alloc, Flags::new())?)?)?;
    Ok(arenas)
}

// A call stops in the middle of its stores, in its turn at one arena. A try at the other arena is made meanwhile.
#[test]
fn two_arenas_have_two_locks(rt: HostRuntime) -> Result<(), OutOfMemory> {
    let alloc = rt.alloc();
    let flags = Arc::new(alloc, Flags::new())?;
    let (pool, mut zero, mut one) = pool_of(alloc, watched_arenas(alloc, &flags)?)?;
    let tried = try_while_a_call_stops(&rt, alloc, &pool, &mut zero, &mut one, &flags);
    drop(pool);
    tried
}

fn try_while_a_call_stops<R: Abort + Threads + Wait + Sync>(
    rt: &R,
    alloc: Global,
    pool: &SharedPool<Watched>,
    zero: &mut Caller,
    one: &mut Caller,
    flags: &Flags,
) -> Result<(), OutOfMemory>
    requires arenas { 1 < length pool.now.locks }
    requires zero { CanCall pool.now zero.old }
    requires one { CanCall pool.now one.old }
{
    flags.arm();
    let (called, tried) = try_beside_a_store(rt, alloc, pool, zero, one, flags);
    same(rt, &called?.entry.reply, &PLACED);
    same(rt, &made(rt, tried)?.entry.reply, &PLACED);
    assert!(rt; flags.all_met());
    Ok(())
}

// With ample memory a pool has as many arenas and passes as it may: the passes are numbered in order, and each arena comes
// back with what it had, and with an empty journal. Arena n has a block at root n.
#[test]
fn sixteen_arenas_and_sixty_four_passes(rt: HostRuntime) -> Result<(), OutOfMemory> {
    let alloc = rt.alloc();
    let (numbers, closed) = start_and_close(alloc, sixteen_arenas(&rt, alloc)?, 64)?;
    come_back(&rt, &numbers, &closed);
    Ok(())
}

fn sixteen_arenas<R: Abort>(rt: &R, alloc: Global) -> Result<Vec<Arena<SimPmem>>, OutOfMemory> {
    let mut arenas = Vec::new(alloc);
    push_sixteen(rt, alloc, &mut arenas)?;
    Ok(arenas)
}

fn push_sixteen<R: Abort>(
    rt: &R,
    alloc: Global,
    arenas: &mut Vec<Arena<SimPmem>>,
) -> Result<(), OutOfMemory> {
    for number in 0..16 {
        arenas.push(arena_of_sixteen(rt, alloc, number)?)?;
    }
    Ok(())
}

fn arena_of_sixteen<R: Abort>(
    rt: &R,
    alloc: Global,
    number: u32,
) -> Result<Arena<SimPmem>, OutOfMemory>
    requires { number < 16 }
{
    let mut arena = empty_arena(alloc, number, 16)?;
    give_root(rt, &mut arena, number);
    Ok(arena)
}

fn give_root<R: Abort>(rt: &R, arena: &mut Arena<SimPmem>, root: u32) {
    assert!(rt; arena.malloc_to(0, root, 100).is_ok());
}

fn come_back<R: Abort>(rt: &R, numbers: &[u32], closed: &[ClosedArena<SimPmem>]) {
    same(rt, &numbers.len(), &64);
    for (i, number) in numbers.iter().enumerate() {
        same(rt, &(*number as usize), &i);
    }
    same(rt, &closed.len(), &16);
    for (i, one) in closed.iter().enumerate() {
        assert_eq!(rt; one.journal.len(), 0, "arena {i}");
        for root in 0..16 {
            assert_eq!(rt;
                one.arena.block(root).is_some(),
                root as usize == i,
                "arena {i}"
            );
        }
    }
}
