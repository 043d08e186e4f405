// An open place entry of an old block.
ghost use Rattle.std.specs.Prelude.{◌≡◌, ◌<◌, ◌≤◌, ◌+◌, ◌*◌, ◌/◌, ◌%◌, ◌^◌, length};
ghost use Rattle.pmem_lines.specs.Words.{word_at};
ghost use Rattle.pmem_lines.specs.Events.{IsQuiet};
ghost use Rattle.pmem_lines.specs.Steps.{IsQuietStep};
ghost use Rattle.pmem_lines.specs.Pmem.{words_of, HasRoom};
ghost use Rattle.durable_steps.specs.Steps.{word_events, IsOldOrNewWord};
ghost use Rattle.image_tables.specs.Tables.{index_word};
ghost use Rattle.slab_header.specs.Index.{word_of_index};
ghost use Rattle.slab_header.specs.Steps.{PutsIndexOver};
ghost use Rattle.settle_steps.specs.Settled.{MaySettle, KeepsHeap};
ghost use Rattle.settle_steps.specs.OldBlocks.{IsOpenForOldBlock, old_block_events, IsOldBlockSettled};

use crate::root_word::names;
use attach_steps::{OldBlock, old_number};
use attach_wal::close_entry;
use pmem_lines::Pmem;
use pool_layout::granule_at;
use slab_header::{IndexEntry, put_index};

/// Settles the open place entry of a root's block, an old one of its slab, which a write-ahead line has, from 0 to 7: the
/// block's index entry is live where the root names the block and else dead, and then the entry is closed, by six events.
/// No entry is open then, and nothing else that the words say has changed; the heap stays as it is, also after a crash
/// within it, and every block keeps its words. Where the block was the last live old one and goes, the slab is done then.
pub fn settle_old_block<P: Pmem>(p: &mut P, line: u32, root: u32, block: OldBlock)
    requires { MaySettle line (IsOpenForOldBlock (words_of (P.state p.old)) line root block) (P.state p.old) }
    ensures step { IsQuietStep (P.state p.old) (P.state p.new) (old_block_events (words_of (P.state p.old)) line root block) (KeepsHeap (words_of (P.state p.old))) }
    ensures settled { IsOldBlockSettled (words_of (P.state p.old)) line root block (words_of (P.state p.new)) }
{
    let live = names(p, root, block.at);
    let number = old_number(p, block);
    mark_live(p, block, IndexEntry { live, number });
    // While the live bit may be wrong the entry says so.
    close_entry(p, line);
}

// The block's index entry is put, and made durable.
fn mark_live<P: Pmem>(p: &mut P, block: OldBlock, e: IndexEntry)
    requires start { block.start < 2 ^ 16 }
    requires header { 2048 * block.start + 256 ≤ length (words_of (P.state p.old)) }
    requires place { block.place < 64 }
    requires number { e.number < 2 ^ 16 }
    requires quiet { IsQuiet (P.state p.old).events }
    requires room { HasRoom (P.state p.old) 3 }
    ensures step { IsQuietStep (P.state p.old) (P.state p.new) (word_events (8 * index_word block.start block.place) (word_of_index e)) (IsOldOrNewWord (words_of (P.state p.old)) (8 * index_word block.start block.place) (word_of_index e)) }
    ensures over { PutsIndexOver (words_of (P.state p.old)) block.start block.place e }
{
    put_index(p, granule_at(block.start), block.place, e);
    p.fence();
}
