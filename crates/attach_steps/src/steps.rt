// The two sequences on a small block and its root.
ghost use Rattle.std.specs.Prelude.{◌≡◌, ◌<◌, ◌≤◌, ◌^◌, ◌+◌, ◌*◌, true, false, length};
ghost use Rattle.pmem_lines.specs.Events.{IsQuiet};
ghost use Rattle.pmem_lines.specs.Steps.{IsQuietStep};
ghost use Rattle.pmem_lines.specs.Pmem.{words_of, HasRoom};
ghost use Rattle.durable_steps.specs.Steps.{IsOldOrNewPair};
ghost use Rattle.pool_layout.specs.Places.{root_word};
ghost use Rattle.slab_header.specs.Steps.{PutsBitOver};
ghost use Rattle.heap_check.specs.State.{IsEitherHeap};
ghost use Rattle.attach_steps.specs.Steps.{bit_word, bit_put, mark_events, unmark_events, attach_events, detach_events, AreInside, IsAttachable, IsDetachable, IsAttached, IsDetached};

use crate::{SmallBlock, put_block_bit};
use attach_wal::{WalEntry, close_entry, write_entry};
use pmem_lines::Pmem;
use pool_layout::root_at;

/// Gives a root, which has no block, an unused block of its slab's class, by 11 events: the entry is opened on a write-ahead
/// line, from 0 to 7, the block's bit is set, the root gets the block's address, the entry is closed. Every other root
/// keeps its block. After a crash within it the image is steady, and the root has the block or none.
#[tactic(auto, using(heap_check::proofs::Sizes::sizes_of))]
pub fn attach<P: Pmem>(p: &mut P, line: u32, root: u32, block: SmallBlock)
    requires line { line < 8 }
    requires attachable { IsAttachable (words_of (P.state p.old)) root block }
    requires quiet { IsQuiet (P.state p.old).events }
    requires room { HasRoom (P.state p.old) 11 }
    ensures step { IsQuietStep (P.state p.old) (P.state p.new) (attach_events (words_of (P.state p.old)) line root block) (IsEitherHeap (words_of (P.state p.old)) (words_of (P.state p.new))) }
    ensures attached { IsAttached (words_of (P.state p.old)) line root block (words_of (P.state p.new)) }
{
    // What a crash leaves of the block and of its root is read by their entry, so that it is durable before they change.
    write_entry(p, line, entry_for(root, block));
    mark(p, root, block);
    close_entry(p, line);
}

/// Takes its block, one of its slab's class, from a root, by 11 events: the entry is opened on a write-ahead line, from 0 to
/// 7, the root's word becomes 0, the block's bit is cleared, the entry is closed. Every other root keeps its block. After a
/// crash within it the image is steady, and the root has the block or none.
#[tactic(auto, using(heap_check::proofs::Sizes::sizes_of))]
pub fn detach<P: Pmem>(p: &mut P, line: u32, root: u32, block: SmallBlock)
    requires line { line < 8 }
    requires detachable { IsDetachable (words_of (P.state p.old)) root block }
    requires quiet { IsQuiet (P.state p.old).events }
    requires room { HasRoom (P.state p.old) 11 }
    ensures step { IsQuietStep (P.state p.old) (P.state p.new) (detach_events (words_of (P.state p.old)) line root block) (IsEitherHeap (words_of (P.state p.old)) (words_of (P.state p.new))) }
    ensures detached { IsDetached (words_of (P.state p.old)) line root block (words_of (P.state p.new)) }
{
    write_entry(p, line, entry_for(root, block));
    unmark(p, root, block);
    close_entry(p, line);
}

// The entry of a root's block.
fn entry_for(root: u32, block: SmallBlock) -> WalEntry
    ensures { result ≡ Rattle.attach_steps.specs.Steps.entry_for root block }
{
    WalEntry::Place {
        root,
        at: block.at,
        old: false,
        place: 0,
    }
}

// The block's bit is set, and then the root gets its address.
fn mark<P: Pmem>(p: &mut P, root: u32, block: SmallBlock)
    requires inside { AreInside (words_of (P.state p.old)) root block.start }
    requires number { block.number < 4096 }
    requires quiet { IsQuiet (P.state p.old).events }
    requires room { HasRoom (P.state p.old) 5 }
    ensures step { IsQuietStep (P.state p.old) (P.state p.new) (mark_events (words_of (P.state p.old)) root block) (IsOldOrNewPair (words_of (P.state p.old)) (8 * bit_word block) (bit_put (words_of (P.state p.old)) block true) (8 * root_word root) block.at) }
    ensures over { PutsBitOver (words_of (P.state p.old)) block.start block.number true }
{
    put_block_bit(p, block, true);
    p.store(root_at(root), u64::from(block.at));
    p.flush(root_at(root) / 64);
    p.fence();
}

// The root's word becomes 0, and then the block's bit is cleared.
fn unmark<P: Pmem>(p: &mut P, root: u32, block: SmallBlock)
    requires inside { AreInside (words_of (P.state p.old)) root block.start }
    requires number { block.number < 4096 }
    requires quiet { IsQuiet (P.state p.old).events }
    requires room { HasRoom (P.state p.old) 5 }
    ensures step { IsQuietStep (P.state p.old) (P.state p.new) (unmark_events (words_of (P.state p.old)) root block) (IsOldOrNewPair (words_of (P.state p.old)) (8 * root_word root) 0 (8 * bit_word block) (bit_put (words_of (P.state p.old)) block false)) }
    ensures over { PutsBitOver (words_of (P.state p.old)) block.start block.number false }
{
    p.store(root_at(root), 0);
    p.flush(root_at(root) / 64);
    put_block_bit(p, block, false);
    p.fence();
}
