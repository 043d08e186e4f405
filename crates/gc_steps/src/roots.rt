// The word of a root: the address of its block and the block's class, or 0.
ghost use Rattle.std.specs.Prelude.{◌≡◌, ◌<◌, ◌^◌};
ghost use Rattle.pmem_lines.specs.Words.{put_word};
ghost use Rattle.pmem_lines.specs.Events.{IsQuiet};
ghost use Rattle.pmem_lines.specs.Steps.{IsQuietStep};
ghost use Rattle.pmem_lines.specs.Pmem.{words_of, HasRoom};
ghost use Rattle.pool_layout.specs.Places.{root_word};
ghost use Rattle.gc_check.specs.State.{IsEitherGcHeap};
ghost use Rattle.gc_steps.specs.Roots.{root_events, IsAttachable, IsAttached, IsDetachable, IsDetached};

use durable_steps::write_word;
use pmem_lines::Pmem;
use pool_layout::root_at;

/// Gives a root that has none the block that a word names, of its class or of a large extent, in three events. The block overlaps
/// no other. The image is exact behind it. Every other word is as before.
pub fn attach<P: Pmem>(p: &mut P, root: u32, word: u64)
    requires attachable { IsAttachable (words_of (P.state p.old)) root word }
    requires quiet { IsQuiet (P.state p.old).events }
    requires room { HasRoom (P.state p.old) 3 }
    ensures step { IsQuietStep (P.state p.old) (P.state p.new) (root_events root word) (IsEitherGcHeap (words_of (P.state p.old)) (words_of (P.state p.new))) }
    ensures attached { IsAttached (words_of (P.state p.old)) root word (words_of (P.state p.new)) }
    ensures words { words_of (P.state p.new) ≡ put_word (words_of (P.state p.old)) (root_word root) word }
{
    write_word(p, root_at(root), word);
}

/// Takes the block from a root that has one, in three events. Its extent may have no root's block then. Every other word is as
/// before.
pub fn detach<P: Pmem>(p: &mut P, root: u32)
    requires detachable { IsDetachable (words_of (P.state p.old)) root }
    requires quiet { IsQuiet (P.state p.old).events }
    requires room { HasRoom (P.state p.old) 3 }
    ensures step { IsQuietStep (P.state p.old) (P.state p.new) (root_events root 0) (IsEitherGcHeap (words_of (P.state p.old)) (words_of (P.state p.new))) }
    ensures detached { IsDetached (words_of (P.state p.old)) root (words_of (P.state p.new)) }
    ensures words { words_of (P.state p.new) ≡ put_word (words_of (P.state p.old)) (root_word root) 0 }
{
    write_word(p, root_at(root), 0);
}
