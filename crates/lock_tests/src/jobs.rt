// What is done to a tally in one turn.
ghost use Rattle.std.specs.Prelude.{◌≡◌, ◌+◌, ◌<◌, ◌≤◌, true};
ghost use Rattle.arena_lock.specs.Journal.{owns};
ghost use Rattle.arena_lock.specs.Known.{after_read};
ghost use Rattle.lock_tests.specs.Tally.{Asks};

use crate::tally::Tally;
use arena_lock::{ArenaLock, Job, LockSeat, Logged};
use pmem_lines::OutOfMemory;

/// Asks once, with an entry.
#[derive(Drop)]
pub struct Ask {
    pub seat: u32,
    pub size: u64,
}

impl Job<Tally> for Ask {
    type Out = Result<u64, OutOfMemory>;

    ghost number = { λ j. j.seat };

    ghost allowed = { λ _. Unit {0} };

    ghost relation = { λ j before after out. Asks j.seat j.size before after out };

    fn run(self, value: &mut Tally) -> Result<u64, OutOfMemory> {
        value.ask(self.seat, self.size)
    }
}

/// Leaves the tally as it is.
#[derive(Drop)]
pub struct Look {
    pub seat: u32,
}

impl Job<Tally> for Look {
    type Out = ();

    ghost number = { λ j. j.seat };

    ghost allowed = { λ _. Unit {0} };

    ghost relation = { λ j before after _. after ≡ before };

    fn run(self, _value: &mut Tally) {}
}

/// Asks for the published length by another seat, inside a turn. The other seat comes back, since of one that is lent nothing
/// would be known afterwards.
pub struct LookBeside<'a, T: Logged> {
    pub seat: u32,
    pub lock: &'a ArenaLock<T>,
    pub other: LockSeat,
}

impl<'a, T: Logged> Job<T> for LookBeside<'a, T> {
    type Out = (u64, LockSeat);

    ghost number = { λ j. j.seat };

    ghost allowed = { λ j. j.other.lock ≡ j.lock.now.id };

    ghost relation = { λ j before after out. (after ≡ before) × (out.1 ≡ after_read j.other out.0) };

    fn run(self, _value: &mut T) -> (u64, LockSeat) {
        let LookBeside {
            seat: _,
            lock,
            mut other,
        } = self;
        let count = lock.published(&mut other);
        (count, other)
    }
}

/// Tries a turn by another seat, inside a turn, and tells whether it was had.
pub struct TryBeside<'a> {
    pub seat: u32,
    pub lock: &'a ArenaLock<Tally>,
    pub other: LockSeat,
    pub other_seat: u32,
}

impl<'a> Job<Tally> for TryBeside<'a> {
    type Out = (bool, LockSeat);

    ghost number = { λ j. j.seat };

    ghost allowed = { λ j. (j.other.lock ≡ j.lock.now.id) × (owns j.other_seat j.other.numbers ≡ true) × (0 < j.other.turns) };

    ghost relation = { λ j before after out. (after ≡ before) × (out.1.lock ≡ j.other.lock) × (out.1.numbers ≡ j.other.numbers) × (j.other.turns ≤ out.1.turns + 1) };

    fn run(self, _value: &mut Tally) -> (bool, LockSeat) {
        let TryBeside {
            seat: _,
            lock,
            mut other,
            other_seat,
        } = self;
        let had = lock.try_turn(&mut other, Look { seat: other_seat }).is_ok();
        (had, other)
    }
}
