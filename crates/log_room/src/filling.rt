// Entries of a chunk that is not active are stored, and its lines flushed.

ghost use Rattle.std.specs.Prelude.{◌≡◌, ◌+◌, ◌*◌, ◌/◌, ◌<◌, ◌≤◌, [], length, slice_index};
ghost use Rattle.pmem_lines.specs.Pmem.{words_of, HasRoom, Appends};
ghost use Rattle.pool_layout.specs.Layout.{layout_of};
ghost use Rattle.pool_layout.specs.Places.{chunk_word, entry_lines, heap_word};
ghost use Rattle.durable_steps.specs.Rows.{flushes_of};
ghost use Rattle.log_room.specs.Copies.{entry_stores, fill_events, fill_count};

use durable_steps::flush_lines;
use pmem_lines::Pmem;
use pool_layout::{chunk_at, entry_at, layout_of};

/// Flushes the lines of a chunk's entries.
pub(crate) fn flush_chunk<P: Pmem>(device: &mut P, version: u32, chunk: u32)
    requires chunk { chunk < 16 }
    requires inside { heap_word version ≤ length (words_of (P.state device.old)) }
    requires room { HasRoom (P.state device.old) (entry_lines version) }
    ensures appends { Appends (P.state device.old) (P.state device.new) (flushes_of (chunk_word version chunk / 8 + 1) (entry_lines version)) }
    ensures count { length (P.state device.new).events ≡ length (P.state device.old).events + entry_lines version }
{
    let lines = layout_of(version).chunk_entries / 8;
    flush_lines(device, chunk_at(version, chunk) / 64 + 1, lines);
}

/// Stores 0 to all entries of a chunk, by rising number, and then flushes its lines. There is no fence.
pub(crate) fn zero_chunk<P: Pmem>(device: &mut P, version: u32, chunk: u32)
    requires chunk { chunk < 16 }
    requires inside { heap_word version ≤ length (words_of (P.state device.old)) }
    requires room { HasRoom (P.state device.old) (fill_count version) }
    ensures appends { Appends (P.state device.old) (P.state device.new) (fill_events version chunk (slice_index [])) }
    ensures count { length (P.state device.new).events ≡ length (P.state device.old).events + fill_count version }
{
    zero_entries(device, version, chunk);
    flush_chunk(device, version, chunk);
}

// Stores 0 to all entries of a chunk, by rising number.
fn zero_entries<P: Pmem>(device: &mut P, version: u32, chunk: u32)
    requires chunk { chunk < 16 }
    requires inside { heap_word version ≤ length (words_of (P.state device.old)) }
    requires room { HasRoom (P.state device.old) (layout_of version).chunk_entries }
    ensures appends { Appends (P.state device.old) (P.state device.new) (entry_stores version chunk (slice_index []) 0 (layout_of version).chunk_entries) }
    ensures count { length (P.state device.new).events ≡ length (P.state device.old).events + (layout_of version).chunk_entries }
{
    for entry in 0..layout_of(version).chunk_entries {
        device.store(entry_at(version, chunk, entry), 0);
    }
}
