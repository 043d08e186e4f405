// The passes of a pool.
ghost use Rattle.std.specs.Prelude.{◌≡◌, ◌<◌, [], ◌∷◌, map, length};
ghost use Rattle.shared_pool.specs.Passes.{PassState, seen_at};
ghost use Rattle.shared_pool.specs.Rows.{part_of, behead, AllTell, head_list};

use arena_lock::LockSeat;
use std::marker::Model;

/// A seat at one arena's lock, and how much of the journal it has seen.
#[derive(Drop)]
pub(crate) struct Spot {
    pub seat: LockSeat,
    pub seen: u64,
}

/// What a caller of a pool brings: a number below 64, and a seat at each arena's lock. In contracts it has for each arena
/// what its holder has seen of the journal, the entries of its own calls, the greatest length that it read, how many of its
/// tries were lost, and how many turns are left to it.
#[derive(Drop)]
pub struct Pass {
    pub(crate) number: u32,
    pub(crate) spots: Vec<Spot>,
}

impl Model for Pass {
    ghost use Rattle.std.specs.Prelude.{◌<◌, map};
    ghost use Rattle.shared_pool.specs.Passes.{PassState};
    ghost use Rattle.shared_pool.specs.Rows.{part_of, AllTell};

    ghost Value = { PassState };

    ghost view = { λ p. record { number = p.number; parts = map part_of p.spots.items } };

    ghost invariant = { λ p. (p.number < 64) × AllTell p.number p.spots.items };
}

impl Pass {
    pub(crate) fn made(number: u32, spots: Vec<Spot>) -> Pass
        requires number { number < 64 }
        requires tell { AllTell number spots.items }
        ensures { result ≡ record { number = number; parts = map part_of spots.items } }
    {
        Pass { number, spots }
    }

    /// Takes the seat at the first arena.
    pub(crate) fn first(&mut self) -> LockSeat
        requires { 0 < length self.old.parts }
        ensures pass { self.new ≡ behead self.old }
        ensures seat { result ∷ [] ≡ head_list self.old.parts }
        ensures belongs { result.numbers ≡ self.old.number ∷ [] }
    {
        self.spots.remove(0).seat
    }

    /// The number that the entries of the pass's calls bear.
    pub fn number(&self) -> u32
        ensures { result ≡ self.now.number }
    {
        self.number
    }

    /// How many entries of an arena's journal were seen.
    pub fn seen(&self, arena: u32) -> u64
        requires arena { arena < length self.now.parts }
        ensures seen { result ≡ length (seen_at self.now arena) }
    {
        self.spots[arena as usize].seen
    }
}
