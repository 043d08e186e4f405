// The step by which a slab takes another class.
ghost use Rattle.std.specs.Prelude.{◌≡◌, ◌+◌, ◌<◌, length};
ghost use Rattle.pmem_lines.specs.Events.{IsQuiet};
ghost use Rattle.pmem_lines.specs.Steps.{IsQuietStep};
ghost use Rattle.pmem_lines.specs.Pmem.{words_of, HasRoom};
ghost use Rattle.image_tables.specs.Tables.{tables_of};
ghost use Rattle.slab_header.specs.Morph.{morph_events};
ghost use Rattle.slab_morph.specs.Stages.{morph_count};
ghost use Rattle.transition_steps.specs.Classes.{IsReadyFor, LeavesClosed, IsOfClass};

use pmem_lines::Pmem;
use pool_layout::granule_at;
use slab_morph::morph;

/// The slab that begins at the granule `start` takes a class, below 36, for which it is fit: it is normal and holds n blocks,
/// at least one, which live on as old blocks. There are n + min(n, 8) + 80 events. The heap stays as it is, also after a
/// crash within it, and every block keeps its words; afterwards the image is exact.
pub fn take_class<P: Pmem>(p: &mut P, start: u32, class: u8)
    requires ready { IsReadyFor (words_of (P.state p.old)) start class }
    requires class { class < 36 }
    requires quiet { IsQuiet (P.state p.old).events }
    requires room { HasRoom (P.state p.old) (morph_count ((tables_of (words_of (P.state p.old))).header start)) }
    ensures step { IsQuietStep (P.state p.old) (P.state p.new) (morph_events (tables_of (words_of (P.state p.old))) start class) (LeavesClosed (words_of (P.state p.old))) }
    ensures count { length (P.state p.new).events ≡ length (P.state p.old).events + morph_count ((tables_of (words_of (P.state p.old))).header start) }
    ensures taken { IsOfClass (words_of (P.state p.old)) start class (words_of (P.state p.new)) }
{
    morph(p, granule_at(start), class);
}
