// The bitmap of a slab is cleared.
ghost use Rattle.std.specs.Prelude.{◌≡◌, ◌+◌, ◌*◌, ◌/◌, ◌%◌, ◌≤◌, length};
ghost use Rattle.pmem_lines.specs.Words.{zeros};
ghost use Rattle.pmem_lines.specs.Events.{IsQuiet};
ghost use Rattle.pmem_lines.specs.Steps.{IsQuietStep};
ghost use Rattle.pmem_lines.specs.Pmem.{words_of, HasRoom};
ghost use Rattle.slab_header.specs.Steps.{bitmap_words};
ghost use Rattle.slab_header.specs.Morph.{clear_events};
ghost use Rattle.slab_morph.specs.Stages.{with_no_bit, IsOffBitmap, Changes};

use durable_steps::{flush_lines, store_words};
use pmem_lines::Pmem;
use pool_layout::slab_header_at;

// The lines of the bitmap, and its words.
const BITMAP_LINES: u32 = 8;

const BITMAP_WORDS: usize = 64;

// Clears the bitmap, durably. That of a slab on its way to a class is not read.
pub fn clear_bitmap<P: Pmem>(p: &mut P, slab: u32)
    requires aligned { slab % 16384 ≡ 0 }
    requires inside { slab + 2048 ≤ 8 * length (words_of (P.state p.old)) }
    requires quiet { IsQuiet (P.state p.old).events }
    requires room { HasRoom (P.state p.old) 73 }
    ensures step { IsQuietStep (P.state p.old) (P.state p.new) (clear_events (slab / 16384)) (IsOffBitmap (words_of (P.state p.old)) (slab / 16384)) }
    ensures count { length (P.state p.new).events ≡ length (P.state p.old).events + 73 }
    ensures cleared { Changes (words_of (P.state p.old)) (words_of (P.state p.new)) (slab / 16384) with_no_bit }
    ensures others { IsOffBitmap (words_of (P.state p.old)) (slab / 16384) (words_of (P.state p.new)) }
{
    let clear = no_bits();
    store_words(p, slab_header_at(slab, 1, 0), &clear);
    flush_lines(p, slab / 64 + 1, BITMAP_LINES);
    p.fence();
}

// A bitmap in which no bit is set.
fn no_bits() -> [u64; BITMAP_WORDS]
    ensures words { result ≡ zeros bitmap_words }
    ensures size { length result ≡ 64 }
{
    [0; BITMAP_WORDS]
}
