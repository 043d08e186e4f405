// Which slab takes another class for a malloc.
ghost use Rattle.std.specs.Prelude.{◌≡◌, ℕ, ◌+◌, ◌<◌, ◌≤◌, Some, length, MatchOption};
ghost use Rattle.slab_index.specs.Lives.{normal_at};
ghost use Rattle.heap_indexes.specs.Fitting.{HasNoReady, IsFirstReady, AreNotedBesides};

use slab_index::SlabLives;
use unit_map::UnitMap;

/// Of the slabs with so few live blocks that they may take a class, below 36, and in which some block of the class is clear, the
/// one with the fewest live blocks, the lowest among equals. `None` exactly where there is none. The candidates are looked at in
/// this order, so the units of a slab are looked at only where all before it are too full; and it is noted where it is too full
/// itself.
#[tactic(auto, using(crate::proofs::BestSlabs::smaller))]
pub(crate) fn best_slab(lives: &mut SlabLives, units: &UnitMap, class: u8) -> Option<u32>
    requires class { class < 36 }
    requires few { length lives.old.counts ≤ 4096 }
    requires inside { (s own : ℕ) → normal_at lives.old s ≡ Some own → s + 4 ≤ units.now.granules }
    ensures best { MatchOption result (HasNoReady lives.new units.now class) (IsFirstReady lives.new units.now class) }
    ensures noted { AreNotedBesides lives.old units.now class lives.new }
{
    let mut next = lives.first(class);
    while let Some(slab) = next {
        if let Some(_clear) = units.first_clear(slab.start, class, 0) {
            return Some(slab.start);
        }
        lives.note_unfit(slab.start, class);
        next = lives.first(class);
    }
    None
}
