// The bit of a block.
ghost use Rattle.std.specs.Prelude.{◌<◌, ◌≤◌, ◌+◌, ◌*◌, ◌^◌, length};
ghost use Rattle.pmem_lines.specs.Pmem.{words_of, HasRoom, Appends};
ghost use Rattle.slab_header.specs.Steps.{put_events, PutsBitOver};
ghost use Rattle.attach_steps.specs.Steps.{bit_word, bit_put};

use crate::SmallBlock;
use pmem_lines::Pmem;
use pool_layout::granule_at;
use slab_header::put_bit;

/// Sets or clears the bit of a block of its slab's class, and flushes its line, by two events. It is durable once a fence
/// follows; a crash before may keep it without other stores, and it does the same to the words that are left then.
pub fn put_block_bit<P: Pmem>(p: &mut P, block: SmallBlock, on: bool)
    requires start { block.start < 2 ^ 16 }
    requires header { 2048 * block.start + 256 ≤ length (words_of (P.state p.old)) }
    requires number { block.number < 4096 }
    requires room { HasRoom (P.state p.old) 2 }
    ensures appends { Appends (P.state p.old) (P.state p.new) (put_events (8 * bit_word block) (bit_put (words_of (P.state p.old)) block on)) }
    ensures over { PutsBitOver (words_of (P.state p.old)) block.start block.number on }
{
    put_bit(p, granule_at(block.start), block.number, on);
}
