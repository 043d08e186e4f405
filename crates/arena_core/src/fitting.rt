// Which slab takes another class for a malloc.
ghost use Rattle.std.specs.Prelude.{MatchOption, ◌<◌};
ghost use Rattle.pmem_lines.specs.Pmem.{words_of};
ghost use Rattle.image_tables.specs.Tables.{tables_of};
ghost use Rattle.heap_model.specs.Choice.{IsBestSlab, HasNoFitSlab, slab_view};
ghost use Rattle.heap_check.specs.Image.{bounds_of, IsExactImage};
ghost use Rattle.arena_core.specs.Arena.{AreLivesOf};
ghost use Rattle.heap_check.specs.Views.{tables_view};
ghost use Rattle.arena_core.specs.Plan.{IsMorphable};

use pmem_lines::Pmem;
use slab_index::SlabLives;
use transition_steps::is_ready;

/// Of the slabs that are fit for a class, below 36, the one with the fewest live blocks, the lowest among equals. `None`
/// exactly where none is. The candidates are looked at in this order, so a slab is read only where all before it are too
/// full for a block of the class; and it is noted where it is too full itself, so that it is not read again for the class until
/// one of its blocks goes.
#[tactic(auto, using(crate::proofs::BestSlabs::sparse_slab))]
pub(crate) fn best_slab<P: Pmem>(device: &P, lives: &mut SlabLives, class: u8) -> Option<u32>
    requires exact { IsExactImage (words_of (P.state device.now)) }
    requires lives { AreLivesOf lives.old (words_of (P.state device.now)) }
    requires class { class < 36 }
    ensures best { let b = bounds_of (words_of (P.state device.now)) in let t = tables_of (words_of (P.state device.now)) in MatchOption result (HasNoFitSlab (slab_view (tables_view b t)) class) (λ start. IsBestSlab (slab_view (tables_view b t)) class start × IsMorphable t start class) }
    ensures lives { AreLivesOf lives.new (words_of (P.state device.now)) }
{
    let mut next = lives.first(class);
    while let Some(slab) = next {
        if is_ready(device, slab.start, class) {
            return Some(slab.start);
        }
        lives.note_unfit(slab.start, class);
        next = lives.first(class);
    }
    None
}
