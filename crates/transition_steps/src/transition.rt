// The steps by which a slab in transition comes to its class, and to the end of its transition.
ghost use Rattle.std.specs.Prelude.{◌≡◌, ◌+◌, length};
ghost use Rattle.pmem_lines.specs.Events.{IsQuiet};
ghost use Rattle.pmem_lines.specs.Steps.{IsQuietStep};
ghost use Rattle.pmem_lines.specs.Pmem.{words_of, HasRoom};
ghost use Rattle.settle_steps.specs.Settled.{KeepsHeap};
ghost use Rattle.transition_steps.specs.Transitions.{IsInMorphing, finish_events, IsFinished, IsEndable, end_events, LeavesEntry, IsEnded};

use pmem_lines::Pmem;
use pool_layout::granule_at;
use slab_morph::{finish_morph, finish_old};

/// Brings the slab that begins at the granule `start`, which is in Morphing, to its class, by 76 events: its bitmap is
/// cleared, and then it is in Morphed. The heap stays as it is, also after a crash within it, and every block keeps its
/// words. Nothing comes to be loose, but that the slab is done where none of its old blocks lives.
pub fn finish_transition<P: Pmem>(p: &mut P, start: u32)
    requires morphing { IsInMorphing (words_of (P.state p.old)) start }
    requires quiet { IsQuiet (P.state p.old).events }
    requires room { HasRoom (P.state p.old) 76 }
    ensures step { IsQuietStep (P.state p.old) (P.state p.new) (finish_events (words_of (P.state p.old)) start) (KeepsHeap (words_of (P.state p.old))) }
    ensures count { length (P.state p.new).events ≡ length (P.state p.old).events + 76 }
    ensures finished { IsFinished (words_of (P.state p.old)) start (words_of (P.state p.new)) }
{
    finish_morph(p, granule_at(start));
}

/// Ends the transition of the slab that begins at the granule `start`, which is in Morphed without a live old block, by 3
/// events: it is Normal then. The open entry, if there is one, is of no old block of it. The heap stays as it is, and every
/// block keeps its words, also after a crash within it, where the image was steady before. Nothing comes to be loose.
pub fn end_transition<P: Pmem>(p: &mut P, start: u32)
    requires endable { IsEndable (words_of (P.state p.old)) start }
    requires quiet { IsQuiet (P.state p.old).events }
    requires room { HasRoom (P.state p.old) 3 }
    ensures step { IsQuietStep (P.state p.old) (P.state p.new) (end_events (words_of (P.state p.old)) start) (LeavesEntry (words_of (P.state p.old))) }
    ensures count { length (P.state p.new).events ≡ length (P.state p.old).events + 3 }
    ensures ended { IsEnded (words_of (P.state p.old)) start (words_of (P.state p.new)) }
{
    finish_old(p, granule_at(start));
}
