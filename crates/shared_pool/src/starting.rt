// Locks over arenas, made one by one, and taken down again where memory runs out.
ghost use Rattle.std.specs.Prelude.{◌≡◌, ◌≤◌, ◌<◌, ◌+◌, ◌++◌, ◌∷◌, length, vec_len, IfOk, IfErr};
ghost use Rattle.std.specs.Vec.{vec_capacity};
ghost use Rattle.crossbeam_utils.specs.Padded.{padded_value};
ghost use Rattle.arena_journal.specs.Journals.{opened};
ghost use Rattle.shared_pool.specs.Begun.{AllBegun};
ghost use Rattle.shared_pool.specs.Rows.{each_of};

use crate::value::PoolArena;
use arena_core::Arena;
use arena_lock::{ArenaLock, LockSeat};
use crossbeam_utils::CachePadded;
use pmem_lines::{OutOfMemory, Pmem};
use std::alloc::Global;

/// A lock with all its seats.
#[derive(Drop)]
pub(crate) struct Begun<P: Pmem> {
    pub lock: CachePadded<ArenaLock<PoolArena<P>>>,
    pub dealt: Vec<LockSeat>,
}

// Puts an arena back to the front.
fn put_back<P: Pmem>(arenas: &mut Vec<Arena<P>>, arena: Arena<P>)
    requires { vec_len arenas.old < vec_capacity arenas.old }
    ensures items { arenas.new.items ≡ arena ∷ arenas.old.items }
    ensures len { vec_len arenas.new ≡ vec_len arenas.old + 1 }
    ensures capacity { vec_capacity arenas.old ≤ vec_capacity arenas.new }
{
    let done = arenas.insert(0, arena);
    let Ok(()) = done else { unreachable!() };
}

// Takes all locks down again, so that their arenas stand in front of the others as they were.
fn undo_all<P: Pmem>(
    mut arenas: Vec<Arena<P>>,
    mut begun: Vec<Begun<P>>,
    seats: u32,
) -> Vec<Arena<P>>
    requires seats { 1 ≤ seats }
    requires room { vec_len arenas + vec_len begun ≤ vec_capacity arenas }
    requires begun { AllBegun seats (each_of begun.items (λ b. (padded_value b.lock, b.dealt.items))) }
    ensures { each_of result.items (λ a. opened a) ≡ each_of begun.items (λ b. (padded_value b.lock).opening) ++ each_of arenas.items (λ a. opened a) }
{
    while let Some(last) = begun.pop() {
        let Begun { lock, dealt } = last;
        let (arena, _journal) = lock.into_inner().close(dealt).into_parts();
        put_back(&mut arenas, arena);
    }
    begun.destroy_empty();
    arenas
}

/// Puts a lock over each arena, with its seats. On want of memory the arenas come back as they were.
pub(crate) fn begin_all<P: Pmem>(
    alloc: Global,
    mut arenas: Vec<Arena<P>>,
    mut begun: Vec<Begun<P>>,
    seats: u32,
) -> Result<Vec<Begun<P>>, (OutOfMemory, Vec<Arena<P>>)>
    requires seats { (1 ≤ seats) × (seats ≤ 64) }
    requires begun { (vec_len begun ≡ 0) × (length arenas.items ≤ vec_capacity begun) }
    ensures begun { IfOk result (λ v. AllBegun seats (each_of v.items (λ b. (padded_value b.lock, b.dealt.items)))) }
    ensures openings { IfOk result (λ v. each_of v.items (λ b. (padded_value b.lock).opening) ≡ each_of arenas.items (λ a. opened a)) }
    ensures handed_back { IfErr result (λ r. each_of r.1.items (λ a. opened a) ≡ each_of arenas.items (λ a. opened a)) }
{
    while !arenas.is_empty() {
        let arena = arenas.remove(0);
        match ArenaLock::new(alloc, PoolArena::open(alloc, arena), seats) {
            Ok((lock, dealt)) => begun.push_reserved(Begun {
                lock: CachePadded::new(lock),
                dealt,
            }),
            Err((error, value)) => {
                let (arena, _journal) = value.into_parts();
                put_back(&mut arenas, arena);
                return Err((error, undo_all(arenas, begun, seats)));
            }
        }
    }
    arenas.destroy_empty();
    Ok(begun)
}
