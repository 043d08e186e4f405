// Two threads at one lock.
ghost use Rattle.std.specs.Prelude.{◌≡◌, ℕ, ◌^◌, ◌<◌, ◌≤◌, [], ◌∷◌, map, length, IfOk, OnOk};
ghost use Rattle.arena_lock.specs.Journal.{calls_by};
ghost use Rattle.heap_model.specs.Journal.{AllBelow};
ghost use Rattle.arena_lock.specs.Legality.{IsLegal, no_opening};
ghost use Rattle.arena_lock.specs.Known.{seat_at};
ghost use Rattle.lock_tests.specs.Tally.{refusal};

use crate::jobs::Ask;
use crate::tally::Tally;
use arena_lock::{ArenaLock, LockSeat, Logged};
use pmem_lines::OutOfMemory;
use std::alloc::Global;
use std::sync::Wait;
use std::thread::{Threads, join};

/// A lock over a value, and its two seats, of the numbers 0 and 1.
pub fn lock_over<T: Logged + Drop>(
    alloc: Global,
    value: T,
) -> Result<(ArenaLock<T>, LockSeat, LockSeat), OutOfMemory>
    requires { IsLegal (T.opening value) (T.journal value) }
    ensures lock { IfOk result (λ t. (t.0.opening ≡ T.opening value) × (t.0.start ≡ T.journal value) × (t.0.seats ≡ 2)) }
    ensures one { IfOk result (λ t. t.1 ≡ seat_at t.0.id (T.opening value) (T.journal value) (0 ∷ []) 0 (2 ^ 57)) }
    ensures two { IfOk result (λ t. t.2 ≡ seat_at t.0.id (T.opening value) (T.journal value) (1 ∷ []) 0 (2 ^ 57)) }
{
    let Ok((lock, mut seats)) = ArenaLock::new(alloc, value, 2) else {
        return Err(OutOfMemory);
    };
    let Some(two) = seats.pop() else {
        unreachable!()
    };
    let Some(one) = seats.pop() else {
        unreachable!()
    };
    Ok((lock, one, two))
}

/// A lock over an empty tally, and its two seats.
pub fn lock_of_two(alloc: Global) -> Result<(ArenaLock<Tally>, LockSeat, LockSeat), OutOfMemory>
    ensures lock { IfOk result (λ t. (t.0.opening ≡ no_opening) × (t.0.start ≡ []) × (t.0.seats ≡ 2)) }
    ensures one { IfOk result (λ t. t.1 ≡ seat_at t.0.id no_opening [] (0 ∷ []) 0 (2 ^ 57)) }
    ensures two { IfOk result (λ t. t.2 ≡ seat_at t.0.id no_opening [] (1 ∷ []) 0 (2 ^ 57)) }
{
    lock_over(alloc, Tally::new(alloc))
}

/// Asks for each of these sizes in turn, by a seat of one number that has made no entry.
pub fn ask_all<R: Wait>(
    rt: &R,
    lock: &ArenaLock<Tally>,
    mut seat: LockSeat,
    number: u32,
    sizes: &[u64],
) -> (LockSeat, Result<(), OutOfMemory>)
    requires lock { seat.lock ≡ lock.now.id }
    requires number { seat.numbers ≡ number ∷ [] }
    requires fresh { seat.mine ≡ [] ∷ [] }
    requires left { length sizes.now ≤ seat.turns }
    ensures lock { result.0.lock ≡ lock.now.id }
    ensures number { result.0.numbers ≡ number ∷ [] }
    ensures asked { OnOk result.1 (result.0.mine ≡ map (refusal number) sizes.now ∷ []) }
{
    for &size in sizes {
        if let Err(error) = lock.with_turn(rt, &mut seat, Ask { seat: number, size }) {
            return (seat, Err(error));
        }
    }
    (seat, Ok(()))
}

/// Two threads ask for sizes of their own. At the end the journal has of each number just its thread's requests, in order, and
/// nothing else.
pub fn ask_on_two_threads<R: Threads + Wait + Sync>(
    rt: &R,
    alloc: Global,
    first: &[u64],
    second: &[u64],
) -> Result<Tally, OutOfMemory>
    requires few { (length first.now ≤ 2 ^ 57) × (length second.now ≤ 2 ^ 57) }
    ensures first { IfOk result (λ t. calls_by 0 t ≡ map (refusal 0) first.now) }
    ensures second { IfOk result (λ t. calls_by 1 t ≡ map (refusal 1) second.now) }
    ensures others { IfOk result (λ t. AllBelow 2 t) }
    ensures legal { IfOk result (λ t. IsLegal no_opening t) }
{
    let (lock, one, two) = lock_of_two(alloc)?;
    let shared = &lock;
    let ((one, ones), (two, twos)) = join(
        rt,
        move || -> (LockSeat, Result<(), OutOfMemory>)
            requires { (one.lock ≡ shared.now.id) × (one.numbers ≡ 0 ∷ []) × (one.mine ≡ [] ∷ []) × (length first.now ≤ one.turns) }
            ensures { (result.0.lock ≡ shared.entry.now.id) × (result.0.numbers ≡ 0 ∷ []) × OnOk result.1 (result.0.mine ≡ map (refusal 0) first.entry.now ∷ []) }
        { ask_all(rt, shared, one, 0, first) },
        move || -> (LockSeat, Result<(), OutOfMemory>)
            requires { (two.lock ≡ shared.now.id) × (two.numbers ≡ 1 ∷ []) × (two.mine ≡ [] ∷ []) × (length second.now ≤ two.turns) }
            ensures { (result.0.lock ≡ shared.entry.now.id) × (result.0.numbers ≡ 1 ∷ []) × OnOk result.1 (result.0.mine ≡ map (refusal 1) second.entry.now ∷ []) }
        { ask_all(rt, shared, two, 1, second) },
    );
    let ended = vec![in alloc; one, two]?;
    let tally = lock.close(ended);
    ones?;
    twos?;
    Ok(tally)
}
