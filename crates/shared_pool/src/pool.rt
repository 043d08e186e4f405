// The pool, and the calls of its passes.
ghost use Rattle.std.specs.Prelude.{◌≡◌, ◌≤◌, ◌<◌, map, length, IfOk, IfErr};
ghost use Rattle.heap_model.specs.declared.call.Call.TheVariants as calls;
ghost use Rattle.arena_lock.specs.Journal.{calls_by};
ghost use Rattle.arena_lock.specs.Known.{Lock, after_read};
ghost use Rattle.arena_journal.specs.Journals.{opened};
ghost use Rattle.shared_pool.specs.Passes.{IsPassOf, part_at, with_part, seen_at, mine_at, fresh_passes, MayAsk, HasCalled, HasTried};
ghost use Rattle.shared_pool.specs.Closed.{AllFitLocks, HasAll, AllClosed};
ghost use Rattle.shared_pool.specs.Rows.{each_of, SameAnswer};

use crate::closing::{ClosedArena, close_all};
use crate::dealing::{deal_out, split_all};
use crate::job::{Counted, PoolJob, Receipt};
use crate::pass::Pass;
use crate::room::rooms;
use crate::starting::begin_all;
use crate::value::PoolArena;
use arena_core::Arena;
use arena_lock::ArenaLock;
use crossbeam_utils::CachePadded;
use heap_model::Call;
use pmem_lines::{OutOfMemory, Pmem};
use std::alloc::Global;
use std::marker::Model;
use std::sync::Wait;
use thiserror::Error;

/// Arenas that threads share by reference, each behind a lock of its own.
#[derive(Drop)]
pub struct SharedPool<P: Pmem> {
    seats: u32,
    locks: Vec<CachePadded<ArenaLock<PoolArena<P>>>>,
}

impl<P: Pmem> Model for SharedPool<P> {
    ghost use Rattle.std.specs.Prelude.{◌≤◌};
    ghost use Rattle.crossbeam_utils.specs.Padded.{padded_value};
    ghost use Rattle.shared_pool.specs.Passes.{PoolState};
    ghost use Rattle.shared_pool.specs.Begun.{AllNew};
    ghost use Rattle.shared_pool.specs.Rows.{each_of};

    ghost Value = { PoolState };

    ghost view = { λ s. record { seats = s.seats; locks = each_of s.locks.items (λ l. padded_value l) } };

    ghost invariant = { λ s. (1 ≤ s.seats) × AllNew s.seats (each_of s.locks.items (λ l. padded_value l)) };
}

/// A pool with its passes.
#[derive(Drop)]
pub struct Started<P: Pmem> {
    pub pool: SharedPool<P>,
    pub passes: Vec<Pass>,
}

/// Why a try made no call.
#[derive(Debug, Drop, Error)]
pub enum TryRefusal {
    /// There was no memory for the entry.
    #[error("Memory")]
    Memory(OutOfMemory),
    /// Somebody else had the arena's turn, or waited for it.
    #[error("Busy")]
    Busy,
}

impl<P: Pmem> SharedPool<P> {
    /// Puts each arena behind a lock, with an empty journal, and makes 1 to 64 passes: they have the numbers from 0 on, in
    /// order, have seen nothing, and have 2^57 turns at each arena. On want of memory the arenas come back as they were.
    pub fn start(
        alloc: Global,
        arenas: Vec<Arena<P>>,
        seats: u32,
    ) -> Result<Started<P>, (OutOfMemory, Vec<Arena<P>>)>
        requires seats { (1 ≤ seats) × (seats ≤ 64) }
        ensures seats { IfOk result (λ s. s.pool.seats ≡ seats) }
        ensures openings { IfOk result (λ s. map (λ (l : Lock). l.opening) s.pool.locks ≡ each_of arenas.items (λ a. opened a)) }
        ensures passes { IfOk result (λ s. s.passes.items ≡ fresh_passes s.pool.locks 0 seats) }
        ensures handed_back { IfErr result (λ r. r.1.items ≡ arenas.items) }
    {
        let count = arenas.len();
        let Ok(rows) = rooms(alloc, seats as usize, count) else {
            return Err((OutOfMemory, arenas));
        };
        let Ok(passes) = Vec::with_capacity(alloc, seats as usize) else {
            return Err((OutOfMemory, arenas));
        };
        let Ok(dealts) = Vec::with_capacity(alloc, count) else {
            return Err((OutOfMemory, arenas));
        };
        let Ok(locks) = Vec::with_capacity(alloc, count) else {
            return Err((OutOfMemory, arenas));
        };
        let Ok(begun) = Vec::with_capacity(alloc, count) else {
            locks.destroy_empty();
            return Err((OutOfMemory, arenas));
        };
        match begin_all(alloc, arenas, begun, seats) {
            Err(back) => {
                locks.destroy_empty();
                Err(back)
            }
            Ok(begun) => {
                let (locks, mut dealts) = split_all(begun, locks, dealts, seats);
                let passes = deal_out(dealts.as_mut_slice(), rows, passes, seats);
                Ok(Started {
                    pool: SharedPool { seats, locks },
                    passes,
                })
            }
        }
    }

    /// Gives a root of an arena a block of at least `size` bytes, in a turn at the arena's lock, for which the call may
    /// wait. The arena's answer, a refusal too, is the entry's reply, and the entry is the journal's last one at the turn's
    /// end. A turn of the pass at the arena is spent. Memory is taken for the entry alone, before the arena is touched:
    /// `OutOfMemory` leaves no event and no entry.
    pub fn malloc_to<R: Wait>(
        &self,
        rt: &R,
        _alloc: Global,
        pass: &mut Pass,
        arena: u32,
        root: u32,
        size: u64,
    ) -> Result<Receipt, OutOfMemory>
        requires { MayAsk self.now pass.old arena }
        ensures { HasCalled self.now arena (calls.Malloc root size) pass.old pass.new result }
    {
        self.call(rt, pass, arena, Call::Malloc { root, size })
    }

    /// Takes a root of an arena its block, as `malloc_to` gives it one.
    pub fn free_from<R: Wait>(
        &self,
        rt: &R,
        _alloc: Global,
        pass: &mut Pass,
        arena: u32,
        root: u32,
    ) -> Result<Receipt, OutOfMemory>
        requires { MayAsk self.now pass.old arena }
        ensures { HasCalled self.now arena (calls.Free root) pass.old pass.new result }
    {
        self.call(rt, pass, arena, Call::Free { root })
    }

    /// Writes the word of number `index` of the block of a root of an arena, durably. It takes its turn as `malloc_to` does.
    pub fn write<R: Wait>(
        &self,
        rt: &R,
        _alloc: Global,
        pass: &mut Pass,
        arena: u32,
        root: u32,
        index: u32,
        value: u64,
    ) -> Result<Receipt, OutOfMemory>
        requires { MayAsk self.now pass.old arena }
        ensures { HasCalled self.now arena (calls.Write root index value) pass.old pass.new result }
    {
        self.call(rt, pass, arena, Call::Write { root, index, value })
    }

    /// Reads the word of number `index` of the block of a root of an arena. It takes its turn as `malloc_to` does, but begins
    /// no call on the arena's memory and leaves it as it was. A word that was written since its block was allocated in this
    /// journal is the last one written there; any other may be any word.
    pub fn read<R: Wait>(
        &self,
        rt: &R,
        _alloc: Global,
        pass: &mut Pass,
        arena: u32,
        root: u32,
        index: u32,
    ) -> Result<Receipt, OutOfMemory>
        requires { MayAsk self.now pass.old arena }
        ensures { HasCalled self.now arena (calls.Read root index) pass.old pass.new result }
    {
        self.call(rt, pass, arena, Call::Read { root, index })
    }

    /// Moves the block of root `from` of an arena to root `to`, with its words; the block keeps its place. It takes its turn
    /// as `malloc_to` does.
    pub fn move_to<R: Wait>(
        &self,
        rt: &R,
        _alloc: Global,
        pass: &mut Pass,
        arena: u32,
        from: u32,
        to: u32,
    ) -> Result<Receipt, OutOfMemory>
        requires { MayAsk self.now pass.old arena }
        ensures { HasCalled self.now arena (calls.Move from to) pass.old pass.new result }
    {
        self.call(rt, pass, arena, Call::Move { from, to })
    }

    /// Makes a call of an arena that is handed over as a value, whichever it is, as the methods above make theirs.
    pub fn call<R: Wait>(
        &self,
        rt: &R,
        pass: &mut Pass,
        arena: u32,
        call: Call,
    ) -> Result<Receipt, OutOfMemory>
        requires { MayAsk self.now pass.old arena }
        ensures { HasCalled self.now arena call pass.old pass.new result }
    {
        let seat = pass.number;
        let spot = &mut pass.spots[arena as usize];
        let (result, seen) = self.locks[arena as usize].with_turn(
            rt,
            &mut spot.seat,
            Counted {
                job: PoolJob { seat, call },
            },
        );
        spot.seen = seen;
        result
    }

    /// As `malloc_to`, if no ticket is out at the arena's lock. It waits for nobody: it looks once and tries one exchange.
    /// `Busy` comes only where that was lost, which is counted; it leaves no event and no entry, and the rest of the pass.
    pub fn try_malloc_to(
        &self,
        _alloc: Global,
        pass: &mut Pass,
        arena: u32,
        root: u32,
        size: u64,
    ) -> Result<Receipt, TryRefusal>
        requires { MayAsk self.now pass.old arena }
        ensures { HasTried self.now arena (calls.Malloc root size) pass.old pass.new result }
    {
        self.try_call(pass, arena, Call::Malloc { root, size })
    }

    /// As `free_from`, if no ticket is out at the arena's lock, as `try_malloc_to` tries it.
    pub fn try_free_from(
        &self,
        _alloc: Global,
        pass: &mut Pass,
        arena: u32,
        root: u32,
    ) -> Result<Receipt, TryRefusal>
        requires { MayAsk self.now pass.old arena }
        ensures { HasTried self.now arena (calls.Free root) pass.old pass.new result }
    {
        self.try_call(pass, arena, Call::Free { root })
    }

    // One journal call that waits for nobody, whichever it is.
    fn try_call(&self, pass: &mut Pass, arena: u32, call: Call) -> Result<Receipt, TryRefusal>
        requires { MayAsk self.now pass.old arena }
        ensures { HasTried self.now arena call pass.old pass.new result }
    {
        let seat = pass.number;
        let spot = &mut pass.spots[arena as usize];
        let tried = self.locks[arena as usize].try_turn(
            &mut spot.seat,
            Counted {
                job: PoolJob { seat, call },
            },
        );
        let Ok((result, seen)) = tried else {
            return Err(TryRefusal::Busy);
        };
        spot.seen = seen;
        as_tried(result)
    }

    /// How many entries the journal of an arena had at some moment of this call. It waits for nobody and takes neither a
    /// turn nor memory. The pass knows the length from then on: no later receipt of it there has a place below it. Of what the
    /// pass has seen the entries that bear its number are its own.
    pub fn published(&self, pass: &mut Pass, arena: u32) -> u64
        requires pass { IsPassOf self.now pass.old }
        requires arena { arena < length self.now.locks }
        ensures pass { IsPassOf self.now pass.new }
        ensures read { pass.new ≡ with_part pass.old arena (after_read (part_at pass.old arena) result) }
        ensures known { (part_at pass.old arena).known ≤ result }
        ensures seen { length (seen_at pass.old arena) ≤ result }
        ensures own { mine_at pass.old arena ≡ calls_by pass.old.number (seen_at pass.old arena) }
    {
        let spot = &mut pass.spots[arena as usize];
        spot.seat.agrees();
        self.locks[arena as usize].published(&mut spot.seat)
    }

    /// Ends the pool, and gives each arena with its journal, in order. The passes are all those of the pool. The memory is
    /// taken before any lock is ended: on want of it pool and passes come back as they were.
    pub fn close(
        self,
        alloc: Global,
        passes: Vec<Pass>,
    ) -> Result<Vec<ClosedArena<P>>, (OutOfMemory, SharedPool<P>, Vec<Pass>)>
        requires fits { AllFitLocks (map (λ (l : Lock). l.id) self.locks) passes.items }
        requires all { HasAll self.seats (map (λ p. p.number) passes.items) }
        ensures closed { IfOk result (λ v. AllClosed self.seats 0 passes.items (map (λ (l : Lock). l.opening) self.locks) (each_of v.items (λ c. (c.journal.items, c.arena)))) }
        ensures handed_back { IfErr result (λ r. (r.1 ≡ self) × (r.2 ≡ passes)) }
    {
        let Ok(rows) = rooms(alloc, self.locks.len(), passes.len()) else {
            return Err((OutOfMemory, self, passes));
        };
        let Ok(out) = Vec::with_capacity(alloc, self.locks.len()) else {
            return Err((OutOfMemory, self, passes));
        };
        let SharedPool { seats, locks } = self;
        Ok(close_all(locks, passes, seats, rows, out))
    }
}

// The same answer, where a try may be refused in two ways.
fn as_tried(from: Result<Receipt, OutOfMemory>) -> Result<Receipt, TryRefusal>
    ensures { SameAnswer from result }
{
    match from {
        Ok(receipt) => Ok(receipt),
        Err(error) => Err(TryRefusal::Memory(error)),
    }
}
