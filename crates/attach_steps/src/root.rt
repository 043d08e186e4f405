// The word of one root.
ghost use Rattle.std.specs.Prelude.{◌≡◌, ◌<◌, ◌^◌, length};
ghost use Rattle.pmem_lines.specs.Words.{put_word};
ghost use Rattle.pmem_lines.specs.Events.{IsQuiet};
ghost use Rattle.pmem_lines.specs.Steps.{IsQuietStep};
ghost use Rattle.pmem_lines.specs.Pmem.{words_of, HasRoom};
ghost use Rattle.pool_layout.specs.Places.{root_word};
ghost use Rattle.attach_steps.specs.Steps.{root_events, PutsRootOrNot};

use durable_steps::write_word;
use pmem_lines::Pmem;
use pool_layout::root_at;

/// Stores a root's word, the first byte of its block or 0 for none, and makes it durable, in three events. Every other
/// word is as before, and after a crash within it the root's is old or new.
#[tactic(auto, using(durable_steps::proofs::Steps::word_step))]
pub fn put_root<P: Pmem>(p: &mut P, root: u32, at: u32)
    requires root { root < 2 ^ 16 }
    requires inside { root_word root < length (words_of (P.state p.old)) }
    requires quiet { IsQuiet (P.state p.old).events }
    requires room { HasRoom (P.state p.old) 3 }
    ensures step { IsQuietStep (P.state p.old) (P.state p.new) (root_events root at) (PutsRootOrNot (words_of (P.state p.old)) root at) }
    ensures words { words_of (P.state p.new) ≡ put_word (words_of (P.state p.old)) (root_word root) at }
{
    write_word(p, root_at(root), u64::from(at));
}
