// The end of a pool: its locks are ended one by one, with the seats of all passes.
ghost use Rattle.std.specs.Prelude.{◌≡◌, ◌≤◌, ◌<◌, ◌+◌, ◌++◌, ◌∷◌, [], List, map, length, vec_len};
ghost use Rattle.std.specs.Vec.{vec_capacity};
ghost use Rattle.crossbeam_utils.specs.Padded.{padded_value};
ghost use Rattle.atomic_table.specs.Seated.{TableId};
ghost use Rattle.shared_pool.specs.Begun.{AllNew};
ghost use Rattle.shared_pool.specs.Closed.{AllFitLocks, HasAll, IsClosed, AllClosed};
ghost use Rattle.shared_pool.specs.Rows.{each_of, AllRoom, AllLong, HeadsBelong, heads, behead};

use crate::pass::Pass;
use crate::value::PoolArena;
use arena_core::Arena;
use arena_lock::{ArenaLock, LockSeat};
use crossbeam_utils::CachePadded;
use heap_model::Entry;
use pmem_lines::Pmem;

/// An arena after its pool, and the journal of all calls that it had there.
#[derive(Drop)]
pub struct ClosedArena<P: Pmem> {
    pub journal: Vec<Entry>,
    pub arena: Arena<P>,
}

// The first seat of each pass.
fn column(passes: &mut [Pass], seats: &mut Vec<LockSeat>)
    requires long { AllLong passes.old }
    requires room { vec_len seats.old + length passes.old ≤ vec_capacity seats.old }
    ensures passes { passes.new ≡ map behead passes.old }
    ensures seats { seats.new.items ≡ seats.old.items ++ heads passes.old }
    ensures belong { HeadsBelong passes.old }
{
    match passes.split_first_mut() {
        None => {}
        Some((first, rest)) => {
            seats.push_reserved(first.first());
            column(rest, seats);
        }
    }
}

// Ends one lock, at which each pass has its first seat.
fn close_first<P: Pmem>(
    lock: CachePadded<ArenaLock<PoolArena<P>>>,
    passes: &mut Vec<Pass>,
    mut row: Vec<LockSeat>,
    seats: u32,
) -> ClosedArena<P>
    requires some { 0 < length passes.old.items }
    requires room { (vec_len row ≡ 0) × (length passes.old.items ≤ vec_capacity row) }
    requires fits { (tables : List TableId) × AllFitLocks ((padded_value lock).id ∷ tables) passes.old.items }
    requires new { ((padded_value lock).start ≡ []) × ((padded_value lock).seats ≡ seats) }
    requires all { HasAll seats (map (λ p. p.number) passes.old.items) }
    ensures passes { passes.new.items ≡ map behead passes.old.items }
    ensures closed { IsClosed seats 0 passes.old.items (padded_value lock).opening (result.journal.items, result.arena) }
{
    let lock = lock.into_inner();
    column(passes.as_mut_slice(), &mut row);
    let (arena, journal) = lock.close(row).into_parts();
    ClosedArena { journal, arena }
}

/// Ends all locks, the first one first.
pub(crate) fn close_all<P: Pmem>(
    mut locks: Vec<CachePadded<ArenaLock<PoolArena<P>>>>,
    mut passes: Vec<Pass>,
    seats: u32,
    mut rows: Vec<Vec<LockSeat>>,
    mut out: Vec<ClosedArena<P>>,
) -> Vec<ClosedArena<P>>
    requires some { 0 < length passes.items }
    requires rows { (length rows.items ≡ length locks.items) × AllRoom (length passes.items) (each_of rows.items (λ r. (vec_len r, vec_capacity r))) }
    requires out { (vec_len out ≡ 0) × (length locks.items ≤ vec_capacity out) }
    requires fits { AllFitLocks (each_of locks.items (λ l. (padded_value l).id)) passes.items }
    requires new { AllNew seats (each_of locks.items (λ l. padded_value l)) }
    requires all { HasAll seats (map (λ p. p.number) passes.items) }
    ensures { AllClosed seats 0 passes.items (each_of locks.items (λ l. (padded_value l).opening)) (each_of result.items (λ c. (c.journal.items, c.arena))) }
{
    while !locks.is_empty() {
        let lock = locks.remove(0);
        let row = rows.remove(0);
        out.push_reserved(close_first(lock, &mut passes, row, seats));
    }
    locks.destroy_empty();
    out
}
