// The state word of a slab.
ghost use Rattle.std.specs.Prelude.{◌≡◌, ◌⊎◌, ◌+◌, ◌*◌, ◌/◌, ◌%◌, ◌≤◌, length};
ghost use Rattle.pmem_lines.specs.Words.{word_at};
ghost use Rattle.pmem_lines.specs.Events.{IsQuiet};
ghost use Rattle.pmem_lines.specs.Steps.{IsQuietStep};
ghost use Rattle.pmem_lines.specs.Pmem.{words_of, HasRoom};
ghost use Rattle.image_tables.specs.Forms.{IsStateWord};
ghost use Rattle.image_tables.specs.Tables.{state_word};
ghost use Rattle.slab_header.specs.State.{IsValidState};
ghost use Rattle.slab_header.specs.Morph.{state_events};
ghost use Rattle.slab_morph.specs.Stages.{with_state, IsOffState, Changes};

use durable_steps::write_word;
use pmem_lines::Pmem;
use pool_layout::slab_header_at;
use slab_header::{SlabState, state_word};

// Puts another state word, durably.
pub fn put_state<P: Pmem>(p: &mut P, slab: u32, state: SlabState)
    requires aligned { slab % 16384 ≡ 0 }
    requires inside { slab + 2048 ≤ 8 * length (words_of (P.state p.old)) }
    requires valid { IsValidState state }
    requires quiet { IsQuiet (P.state p.old).events }
    requires room { HasRoom (P.state p.old) 3 }
    ensures step { IsQuietStep (P.state p.old) (P.state p.new) (state_events (slab / 16384) state) (λ image. (image ≡ words_of (P.state p.old)) ⊎ (image ≡ words_of (P.state p.new))) }
    ensures told { Changes (words_of (P.state p.old)) (words_of (P.state p.new)) (slab / 16384) (λ h. with_state h state) }
    ensures valid { IsStateWord (word_at (words_of (P.state p.new)) (state_word (slab / 16384))) }
    ensures others { IsOffState (words_of (P.state p.old)) (slab / 16384) (words_of (P.state p.new)) }
{
    write_word(p, slab_header_at(slab, 0, 0), state_word(state));
}
