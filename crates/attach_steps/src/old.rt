// The sequence by which an old block goes from its root.
ghost use Rattle.std.specs.Prelude.{◌≡◌, ◌<◌, ◌≤◌, ◌+◌, ◌*◌, ◌/◌, ◌%◌, ◌^◌, false, length};
ghost use Rattle.pmem_lines.specs.Words.{word_at};
ghost use Rattle.pmem_lines.specs.Events.{IsQuiet};
ghost use Rattle.pmem_lines.specs.Steps.{IsQuietStep};
ghost use Rattle.pmem_lines.specs.Pmem.{words_of, HasRoom};
ghost use Rattle.durable_steps.specs.Steps.{pair_events, IsOldOrNewPair};
ghost use Rattle.pool_layout.specs.Places.{root_word};
ghost use Rattle.image_tables.specs.Tables.{index_word, tables_of};
ghost use Rattle.slab_header.specs.Index.{word_of_index};
ghost use Rattle.slab_header.specs.Steps.{PutsIndexOver};
ghost use Rattle.heap_check.specs.State.{IsEitherHeap};
ghost use Rattle.attach_steps.specs.Steps.{detach_old_events, AreInside, IsOldDetachable, IsOldDetached};

use crate::OldBlock;
use attach_wal::{WalEntry, close_entry, write_entry};
use pmem_lines::Pmem;
use pool_layout::{granule_at, index_at, root_at};
use slab_header::{IndexEntry, put_index};

/// Takes its block, a live old one of a slab that took another class, from a root, by 11 events: the entry is opened on a
/// write-ahead line, from 0 to 7, the root's word becomes 0, the block's index entry is dead, the entry is closed. Every
/// other root keeps its block. After a crash within it the image is steady, and the root has the block or none.
#[tactic(auto, using(heap_check::proofs::Sizes::sizes_of, heap_check::proofs::Geometry::index_count_few))]
pub fn detach_old<P: Pmem>(p: &mut P, line: u32, root: u32, block: OldBlock)
    requires line { line < 8 }
    requires detachable { IsOldDetachable (words_of (P.state p.old)) root block }
    requires quiet { IsQuiet (P.state p.old).events }
    requires room { HasRoom (P.state p.old) 11 }
    ensures step { IsQuietStep (P.state p.old) (P.state p.new) (detach_old_events (tables_of (words_of (P.state p.old))) line root block.at block.start block.place) (IsEitherHeap (words_of (P.state p.old)) (words_of (P.state p.new))) }
    ensures detached { IsOldDetached (words_of (P.state p.old)) line root block (words_of (P.state p.new)) }
{
    let number = old_number(p, block);
    let entry = WalEntry::Place {
        root,
        at: block.at,
        old: true,
        place: block.place,
    };
    write_entry(p, line, entry);
    bury(p, root, block, number);
    close_entry(p, line);
}

/// The number of an old block among those of its class, by its index entry.
pub fn old_number<P: Pmem>(p: &P, block: OldBlock) -> u32
    requires start { block.start < 2 ^ 16 }
    requires header { 2048 * block.start + 256 ≤ length (words_of (P.state p.now)) }
    requires place { block.place < 64 }
    ensures { result ≡ word_at (words_of (P.state p.now)) (index_word block.start block.place) / 2 ^ 16 % 2 ^ 16 }
{
    let word = p.load(index_at(granule_at(block.start), block.place));
    ((word >> 16) % 65536) as u32
}

// The root's word becomes 0, and then the block's index entry is dead.
fn bury<P: Pmem>(p: &mut P, root: u32, block: OldBlock, number: u32)
    requires inside { AreInside (words_of (P.state p.old)) root block.start }
    requires place { block.place < 64 }
    requires number { number < 2 ^ 16 }
    requires quiet { IsQuiet (P.state p.old).events }
    requires room { HasRoom (P.state p.old) 5 }
    ensures step { IsQuietStep (P.state p.old) (P.state p.new) (pair_events (8 * root_word root) 0 (8 * index_word block.start block.place) (word_of_index (record { live = false; number = number }))) (IsOldOrNewPair (words_of (P.state p.old)) (8 * root_word root) 0 (8 * index_word block.start block.place) (word_of_index (record { live = false; number = number }))) }
    ensures over { PutsIndexOver (words_of (P.state p.old)) block.start block.place (record { live = false; number = number }) }
{
    p.store(root_at(root), 0);
    p.flush(root_at(root) / 64);
    let dead = IndexEntry {
        live: false,
        number,
    };
    put_index(p, granule_at(block.start), block.place, dead);
    p.fence();
}
