// An open entry of either kind.
ghost use Rattle.std.specs.Prelude.{◌≡◌, ◌<◌, ◌≤◌, ◌+◌, ◌*◌, ◌^◌, true, length};
ghost use Rattle.pmem_lines.specs.Events.{IsQuiet};
ghost use Rattle.pmem_lines.specs.Steps.{IsQuietStep};
ghost use Rattle.pmem_lines.specs.Pmem.{words_of, HasRoom};
ghost use Rattle.image_tables.specs.Tables.{is_slab, tables_of};
ghost use Rattle.settle_steps.specs.Settled.{IsOpenIn, KeepsHeap};
ghost use Rattle.settle_steps.specs.Entries.{number_at, settle_events, LiesInSlab, IsEntrySettled};

use crate::class_block::settle_class_block;
use crate::move_entry::settle_move;
use crate::old_block::settle_old_block;
use attach_steps::{OldBlock, SmallBlock};
use attach_wal::WalEntry;
use pmem_lines::Pmem;
use pool_layout::granule_at;
use size_classes::size_of_class;
use slab_header::class_at;

// The bytes of a slab's header.
const HEADER_BYTES: u32 = 2048;

/// Settles the open entry, which a write-ahead line has, from 0 to 7, and closes it, by at most six events. `start` is the
/// granule at which the slab begins that has the block of a place entry; of a move entry it says nothing. No entry is open
/// then; the heap stays as it is, also after a crash within it, and every block keeps its words.
pub fn settle_entry<P: Pmem>(p: &mut P, line: u32, entry: WalEntry, start: u32)
    requires line { line < 8 }
    requires open_entry { IsOpenIn (words_of (P.state p.old)) line entry }
    requires slab { LiesInSlab (tables_of (words_of (P.state p.old))) start entry }
    requires quiet { IsQuiet (P.state p.old).events }
    requires room { HasRoom (P.state p.old) 6 }
    ensures step { IsQuietStep (P.state p.old) (P.state p.new) (settle_events (words_of (P.state p.old)) line start entry) (KeepsHeap (words_of (P.state p.old))) }
    ensures settled { IsEntrySettled (words_of (P.state p.old)) line start entry (words_of (P.state p.new)) }
{
    match entry {
        WalEntry::Place {
            root,
            at,
            old,
            place,
        } => {
            if old {
                settle_old_block(p, line, root, OldBlock { start, place, at });
            } else {
                let number = number_of(p, start, at);
                settle_class_block(p, line, root, SmallBlock { start, number, at });
            }
        }
        WalEntry::Move { from, to } => settle_move(p, line, from, to),
    }
}

// The number of the block at an address, among those of the class of its slab.
fn number_of<P: Pmem>(p: &P, start: u32, at: u32) -> u32
    requires start { start < 2 ^ 16 }
    requires header { 2048 * start + 256 ≤ length (words_of (P.state p.now)) }
    requires slab { is_slab (words_of (P.state p.now)) start ≡ true }
    requires class { ((tables_of (words_of (P.state p.now))).header start).class < 36 }
    requires behind { 16384 * start + 2048 ≤ at }
    ensures { result ≡ number_at (tables_of (words_of (P.state p.now))) start at }
{
    let slab_at = granule_at(start);
    (at - (slab_at + HEADER_BYTES)) / size_of_class(class_at(p, slab_at))
}
