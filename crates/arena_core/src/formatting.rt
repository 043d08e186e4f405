// The header line of an arena that is made anew.
ghost use Rattle.std.specs.Prelude.{◌≤◌, length};
ghost use Rattle.pmem_lines.specs.Pmem.{words_of, HasRoom, Appends};
ghost use Rattle.pool_layout.specs.Header.{IsPoolHeader};
ghost use Rattle.arena_core.specs.Events.{line_events};

use pmem_lines::Pmem;
use pool_layout::{
    PoolHeader, PoolVariant, directory_at, fields_at, header_word, text_at, text_of,
};

/// Stores the header line of an arena of a variant and makes it durable, in five events. The text comes last, and the line is one,
/// so a crash leaves none of it that is good and incomplete. The memory has a line at least, and room for the events. It never
/// refuses, and takes no memory.
#[tactic(auto, using(pool_layout::proofs::Headers::header_fits), unfolding(crate::specs::Events::line_events))]
pub fn write_header<P: Pmem>(device: &mut P, variant: PoolVariant, header: &PoolHeader)
    requires header { IsPoolHeader header.now }
    requires size { 8 ≤ length (words_of (P.state device.old)) }
    requires room { HasRoom (P.state device.old) 5 }
    ensures appends { Appends (P.state device.old) (P.state device.new) (line_events variant header.now) }
{
    device.store(fields_at(), header_word(header));
    device.store(directory_at(), 1);
    device.store(text_at(), text_of(variant));
    device.flush(0);
    device.fence();
}
