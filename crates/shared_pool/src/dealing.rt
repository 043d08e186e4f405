// The seats of the locks, dealt out to passes.
ghost use Rattle.std.specs.Prelude.{◌≡◌, ℕ, ◌≤◌, ◌+◌, ◌++◌, List, map, length, vec_len};
ghost use Rattle.std.specs.Vec.{vec_capacity};
ghost use Rattle.crossbeam_utils.specs.Padded.{padded_value};
ghost use Rattle.arena_lock.specs.Known.{Lock};
ghost use Rattle.shared_pool.specs.Passes.{fresh_passes};
ghost use Rattle.shared_pool.specs.Begun.{AllBegun, AllNew};
ghost use Rattle.shared_pool.specs.Rows.{tail_list, each_of, AllRoom, AllSome, AllFirst, AllTell, firsts, lines, part_of};

use crate::pass::{Pass, Spot};
use crate::starting::Begun;
use crate::value::PoolArena;
use arena_lock::{ArenaLock, LockSeat};
use crossbeam_utils::CachePadded;
use pmem_lines::Pmem;

/// The locks, and the seats of each.
pub(crate) fn split_all<P: Pmem>(
    mut begun: Vec<Begun<P>>,
    mut locks: Vec<CachePadded<ArenaLock<PoolArena<P>>>>,
    mut dealts: Vec<Vec<LockSeat>>,
    seats: u32,
) -> (
    Vec<CachePadded<ArenaLock<PoolArena<P>>>>,
    Vec<Vec<LockSeat>>,
)
    requires begun { AllBegun seats (each_of begun.items (λ b. (padded_value b.lock, b.dealt.items))) }
    requires locks { (vec_len locks ≡ 0) × (length begun.items ≤ vec_capacity locks) }
    requires dealts { (vec_len dealts ≡ 0) × (length begun.items ≤ vec_capacity dealts) }
    ensures new { AllNew seats (each_of result.0.items (λ l. padded_value l)) }
    ensures dealts { each_of result.1.items (λ d. d.items) ≡ lines 0 seats (each_of result.0.items (λ l. padded_value l)) }
    ensures openings { each_of result.0.items (λ l. (padded_value l).opening) ≡ each_of begun.items (λ b. (padded_value b.lock).opening) }
    ensures len { length result.1.items ≡ length begun.items }
{
    while !begun.is_empty() {
        let Begun { lock, dealt } = begun.remove(0);
        locks.push_reserved(lock);
        dealts.push_reserved(dealt);
    }
    begun.destroy_empty();
    (locks, dealts)
}

// The first seat of each lock.
fn row_of(dealts: &mut [Vec<LockSeat>], spots: &mut Vec<Spot>)
    requires some { AllSome (each_of dealts.old (λ d. d.items)) }
    requires room { vec_len spots.old + length dealts.old ≤ vec_capacity spots.old }
    ensures dealts { each_of dealts.new (λ d. d.items) ≡ map tail_list (each_of dealts.old (λ d. d.items)) }
    ensures spots { map part_of spots.new.items ≡ map part_of spots.old.items ++ firsts (each_of dealts.old (λ d. d.items)) }
    ensures tell { (n : ℕ) → AllTell n spots.old.items → AllFirst n (each_of dealts.old (λ d. d.items)) → AllTell n spots.new.items }
{
    match dealts.split_first_mut() {
        None => {}
        Some((first, rest)) => {
            let seat = first.remove(0);
            spots.push_reserved(Spot { seat, seen: 0 });
            row_of(rest, spots);
        }
    }
}

/// A pass for each number, with the seats of that number.
pub(crate) fn deal_out(
    dealts: &mut [Vec<LockSeat>],
    mut rows: Vec<Vec<Spot>>,
    mut passes: Vec<Pass>,
    seats: u32,
) -> Vec<Pass>
    requires seats { seats ≤ 64 }
    requires dealts { (locks : List Lock) × (each_of dealts.old (λ d. d.items) ≡ lines 0 seats locks) }
    requires rows { (length rows.items ≡ seats) × AllRoom (length dealts.old) (each_of rows.items (λ r. (vec_len r, vec_capacity r))) }
    requires passes { (vec_len passes ≡ 0) × (seats ≤ vec_capacity passes) }
    ensures { (locks : List Lock) → each_of dealts.old (λ d. d.items) ≡ lines 0 seats locks → result.items ≡ fresh_passes locks 0 seats }
{
    for number in 0..seats {
        let mut spots = rows.remove(0);
        row_of(dealts, &mut spots);
        passes.push_reserved(Pass::made(number, spots));
    }
    passes
}
