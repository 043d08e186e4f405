// A pool with two passes, which count the calls that they may still make.
ghost use Rattle.std.specs.Prelude.{◌≡◌, ◌^◌, ◌<◌, ◌≤◌, [], ◌∷◌, length, IfOk};
ghost use Rattle.arena_lock.specs.Known.{seat_at};
ghost use Rattle.shared_pool.specs.Passes.{IsPassOf};
ghost use Rattle.pool_tests.specs.CallsLeft.{CallerState, CanCall};

use arena_core::{Arena, ArenaRoom};
use arena_lock::{ArenaLock, LockSeat};
use heap_model::Call;
use lock_tests::lock_over;
use pmem_lines::{OutOfMemory, Pmem, SimPmem};
use shared_pool::{ClosedArena, Pass, PoolArena, Receipt, SharedPool, Started, TryRefusal};
use std::alloc::Global;
use std::marker::Model;
use std::sync::Wait;

/// A pass, and how many calls it may make at most.
#[derive(Drop)]
pub(crate) struct Caller {
    pass: Pass,
    left: u32,
}

impl Model for Caller {
    ghost use Rattle.pool_tests.specs.CallsLeft.{CallerState};

    ghost Value = { CallerState };

    ghost view = { λ c. record { pass = c.pass; left = c.left } };
}

/// A call that may be tried.
#[derive(Clone, Copy)]
pub(crate) enum TriedCall {
    Malloc { root: u32, size: u64 },
    Free { root: u32 },
}

/// An arena of 16 granules over new memory, as number `number` of so many.
#[tactic(auto, using(arena_core::proofs::Readiness::first_room, arena_core::proofs::Readiness::first_most))]
pub(crate) fn empty_arena(
    alloc: Global,
    number: u32,
    arenas: u32,
) -> Result<Arena<SimPmem>, OutOfMemory>
    requires { (number < arenas) × (arenas ≤ 16) }
{
    let device = SimPmem::zeroed(alloc, 4096, 2048)?;
    let room = ArenaRoom::new(alloc, 16)?;
    Ok(Arena::format(room, device, number, arenas))
}

/// The arenas of a pool that has one.
pub(crate) fn one_arena(alloc: Global) -> Result<Vec<Arena<SimPmem>>, OutOfMemory>
    ensures { IfOk result (λ arenas. length arenas.items ≡ 1) }
{
    Ok(vec![in alloc; empty_arena(alloc, 0, 1)?]?)
}

/// A lock over an empty arena with its journal, and its two seats.
pub(crate) fn arena_lock_of_two(
    alloc: Global,
) -> Result<(ArenaLock<PoolArena<SimPmem>>, LockSeat, LockSeat), OutOfMemory>
    ensures one { IfOk result (λ t. t.1 ≡ seat_at t.0.id t.0.opening [] (0 ∷ []) 0 (2 ^ 57)) }
    ensures two { IfOk result (λ t. t.2 ≡ seat_at t.0.id t.0.opening [] (1 ∷ []) 0 (2 ^ 57)) }
{
    lock_over(alloc, PoolArena::open(alloc, empty_arena(alloc, 0, 1)?))
}

/// A pool over these arenas, and its two passes.
pub(crate) fn pool_of<P: Pmem + Drop>(
    alloc: Global,
    arenas: Vec<Arena<P>>,
) -> Result<(SharedPool<P>, Caller, Caller), OutOfMemory>
    ensures seats { IfOk result (λ t. t.0.seats ≡ 2) }
    ensures locks { IfOk result (λ t. length t.0.locks ≡ length arenas.items) }
    ensures zero { IfOk result (λ t. CanCall t.0 t.1 × (t.1.pass.number ≡ 0)) }
    ensures one { IfOk result (λ t. CanCall t.0 t.2 × (t.2.pass.number ≡ 1)) }
{
    let Started { pool, mut passes } = match SharedPool::start(alloc, arenas, 2) {
        Ok(started) => started,
        Err((error, _arenas)) => return Err(error),
    };
    let Some(one) = passes.pop() else {
        unreachable!()
    };
    let Some(zero) = passes.pop() else {
        unreachable!()
    };
    Ok((
        pool,
        Caller {
            pass: zero,
            left: 1000,
        },
        Caller {
            pass: one,
            left: 1000,
        },
    ))
}

/// Ends the pool.
pub(crate) fn close<P: Pmem + Drop>(
    alloc: Global,
    pool: SharedPool<P>,
    zero: Caller,
    one: Caller,
) -> Result<Vec<ClosedArena<P>>, OutOfMemory>
    requires seats { pool.seats ≡ 2 }
    requires zero { IsPassOf pool zero.pass × (zero.pass.number ≡ 0) }
    requires one { IsPassOf pool one.pass × (one.pass.number ≡ 1) }
{
    let passes = vec![in alloc; zero.pass, one.pass]?;
    match pool.close(alloc, passes) {
        Ok(closed) => Ok(closed),
        Err((error, _pool, _passes)) => Err(error),
    }
}

// The numbers of passes.
fn numbers_of(alloc: Global, passes: &[Pass]) -> Result<Vec<u32>, OutOfMemory> {
    let mut numbers = Vec::new(alloc);
    for pass in passes {
        numbers.push(pass.number())?;
    }
    Ok(numbers)
}

/// Puts arenas into a pool with so many passes, and ends it at once. It gives the numbers of the passes, and the arenas.
pub(crate) fn start_and_close<P: Pmem + Drop>(
    alloc: Global,
    arenas: Vec<Arena<P>>,
    seats: u32,
) -> Result<(Vec<u32>, Vec<ClosedArena<P>>), OutOfMemory>
    requires { (1 ≤ seats) × (seats ≤ 64) }
{
    let Started { pool, passes } = match SharedPool::start(alloc, arenas, seats) {
        Ok(started) => started,
        Err((error, _arenas)) => return Err(error),
    };
    let numbers = numbers_of(alloc, &passes)?;
    match pool.close(alloc, passes) {
        Ok(closed) => Ok((numbers, closed)),
        Err((error, _pool, _passes)) => Err(error),
    }
}

impl Caller {
    /// How many entries of an arena's journal were seen.
    pub(crate) fn seen<P: Pmem>(&self, pool: &SharedPool<P>, arena: u32) -> u64
        requires can { CanCall pool.now self.now }
        requires arena { arena < length pool.now.locks }
    {
        self.pass.seen(arena)
    }

    /// A call at an arena by this pass, in its turn.
    pub(crate) fn call<R: Wait, P: Pmem>(
        &mut self,
        rt: &R,
        alloc: Global,
        pool: &SharedPool<P>,
        arena: u32,
        call: Call,
    ) -> Result<Receipt, OutOfMemory>
        requires can { CanCall pool.now self.old }
        requires arena { arena < length pool.now.locks }
        ensures can { CanCall pool.now self.new }
        ensures number { self.new.pass.number ≡ self.old.pass.number }
    {
        if self.left == 0 {
            return Err(OutOfMemory);
        }
        self.left -= 1;
        let pass = &mut self.pass;
        // Each arm returns, since what is known of its call would be lost where the arms meet.
        match call {
            Call::Malloc { root, size } => {
                return pool.malloc_to(rt, alloc, pass, arena, root, size);
            }
            Call::Free { root } => return pool.free_from(rt, alloc, pass, arena, root),
            Call::Write { root, index, value } => {
                return pool.write(rt, alloc, pass, arena, root, index, value);
            }
            Call::Read { root, index } => {
                return pool.read(rt, alloc, pass, arena, root, index);
            }
            Call::Move { from, to } => return pool.move_to(rt, alloc, pass, arena, from, to),
        }
    }

    /// A call at an arena by this pass, if nobody else has the turn.
    pub(crate) fn try_call<P: Pmem>(
        &mut self,
        alloc: Global,
        pool: &SharedPool<P>,
        arena: u32,
        call: TriedCall,
    ) -> Result<Receipt, TryRefusal>
        requires can { CanCall pool.now self.old }
        requires arena { arena < length pool.now.locks }
        ensures can { CanCall pool.now self.new }
        ensures number { self.new.pass.number ≡ self.old.pass.number }
    {
        if self.left == 0 {
            return Err(TryRefusal::Memory(OutOfMemory));
        }
        self.left -= 1;
        let pass = &mut self.pass;
        match call {
            TriedCall::Malloc { root, size } => pool.try_malloc_to(alloc, pass, arena, root, size),
            TriedCall::Free { root } => pool.try_free_from(alloc, pass, arena, root),
        }
    }

    /// `published` by this pass.
    pub(crate) fn published<P: Pmem>(&mut self, pool: &SharedPool<P>, arena: u32) -> u64
        requires can { CanCall pool.now self.old }
        requires arena { arena < length pool.now.locks }
        ensures can { CanCall pool.now self.new }
        ensures number { self.new.pass.number ≡ self.old.pass.number }
    {
        pool.published(&mut self.pass, arena)
    }
}
