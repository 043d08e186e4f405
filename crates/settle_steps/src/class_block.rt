// An open place entry of a block of the slab's class.
ghost use Rattle.std.specs.Prelude.{◌<◌, ◌≤◌, ◌+◌, ◌*◌, ◌^◌, length};
ghost use Rattle.pmem_lines.specs.Events.{IsQuiet};
ghost use Rattle.pmem_lines.specs.Steps.{IsQuietStep};
ghost use Rattle.pmem_lines.specs.Pmem.{words_of, HasRoom};
ghost use Rattle.durable_steps.specs.Steps.{word_events, IsOldOrNewWord};
ghost use Rattle.slab_header.specs.Steps.{PutsBitOver};
ghost use Rattle.attach_steps.specs.Steps.{bit_word, bit_put};
ghost use Rattle.settle_steps.specs.Settled.{MaySettle, KeepsHeap};
ghost use Rattle.settle_steps.specs.ClassBlocks.{IsOpenForBlock, class_block_events, IsClassBlockSettled};

use crate::root_word::names;
use attach_steps::{SmallBlock, put_block_bit};
use attach_wal::close_entry;
use pmem_lines::Pmem;

/// Settles the open place entry of a root's block, one of its slab's class, which a write-ahead line has, from 0 to 7: the
/// block's bit is set where the root names the block and else cleared, and then the entry is closed, by six events. No
/// entry is open then, and nothing else that the words say has changed; the heap stays as it is, also after a crash within
/// it, and every block keeps its words.
pub fn settle_class_block<P: Pmem>(p: &mut P, line: u32, root: u32, block: SmallBlock)
    requires { MaySettle line (IsOpenForBlock (words_of (P.state p.old)) line root block) (P.state p.old) }
    ensures step { IsQuietStep (P.state p.old) (P.state p.new) (class_block_events (words_of (P.state p.old)) line root block) (KeepsHeap (words_of (P.state p.old))) }
    ensures settled { IsClassBlockSettled (words_of (P.state p.old)) line root block (words_of (P.state p.new)) }
{
    let named = names(p, root, block.at);
    mark_as(p, block, named);
    // While the bit may be wrong the entry says so.
    close_entry(p, line);
}

// The block's bit is set or cleared, and made durable.
fn mark_as<P: Pmem>(p: &mut P, block: SmallBlock, on: bool)
    requires start { block.start < 2 ^ 16 }
    requires header { 2048 * block.start + 256 ≤ length (words_of (P.state p.old)) }
    requires number { block.number < 4096 }
    requires quiet { IsQuiet (P.state p.old).events }
    requires room { HasRoom (P.state p.old) 3 }
    ensures step { IsQuietStep (P.state p.old) (P.state p.new) (word_events (8 * bit_word block) (bit_put (words_of (P.state p.old)) block on)) (IsOldOrNewWord (words_of (P.state p.old)) (8 * bit_word block) (bit_put (words_of (P.state p.old)) block on)) }
    ensures over { PutsBitOver (words_of (P.state p.old)) block.start block.number on }
{
    put_block_bit(p, block, on);
    p.fence();
}
