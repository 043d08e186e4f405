// The steps on the header of a slab.

ghost use Rattle.std.specs.Prelude.{◌≡◌, ◌+◌, ◌*◌, ◌/◌, ◌%◌, ◌^◌, ◌<◌, ◌≤◌, length};
ghost use Rattle.pmem_lines.specs.Words.{word_at, zeros};
ghost use Rattle.pmem_lines.specs.Events.{IsQuiet};
ghost use Rattle.pmem_lines.specs.Steps.{IsQuietStep};
ghost use Rattle.pmem_lines.specs.Pmem.{words_of, HasRoom, Appends};
ghost use Rattle.image_tables.specs.Tables.{bitmap_word, index_word};
ghost use Rattle.slab_header.specs.Index.{word_of_index};
ghost use Rattle.slab_header.specs.Steps.{bitmap_words, make_events, put_events, with_bit, IsMade, KeepsOutside, PutsBit, PutsBitOver, PutsIndex, PutsIndexOver};

use crate::{IndexEntry, SlabState, index_word, state_word};
use durable_steps::{flush_lines, store_words};
use interleaved_bitmap::{bit_place, set_word};
use pmem_lines::Pmem;
use pool_layout::{index_at, slab_header_at};

// The lines that the making of a slab writes: that of the state word, and those of the bitmap.
const MADE_LINES: u32 = 9;
// The words of the bitmap.
const BITMAP_WORDS: usize = 64;

// A bitmap in which no bit is set.
fn clear_bitmap() -> [u64; BITMAP_WORDS]
    ensures words { result ≡ zeros bitmap_words }
    ensures size { length result ≡ 64 }
{
    [0; BITMAP_WORDS]
}

/// Makes a slab of a class, below 36, at this byte, a multiple of 16384: the 64 words of its bitmap are cleared, the state
/// word says Normal, and both are made durable under one fence, by 75 events.
///
/// Every word outside the first 72 of the slab stays the same, so its index table and its blocks do, and where the log has
/// no slab at that granule of the heap, so does all that the words of the arena say; that holds after a crash within the
/// events too. Such a crash may leave any mixture of old and new in the state word and the bitmap, so nothing may read
/// them as a slab's before the call is over.
pub fn make_slab<P: Pmem>(p: &mut P, at: u32, class: u8)
    requires aligned { at % 16384 ≡ 0 }
    requires inside { at + 2048 ≤ 8 * length (words_of (P.state p.old)) }
    requires class { class < 36 }
    requires quiet { IsQuiet (P.state p.old).events }
    requires room { HasRoom (P.state p.old) 75 }
    ensures step { IsQuietStep (P.state p.old) (P.state p.new) (make_events at class) (KeepsOutside (words_of (P.state p.old)) (at / 16384)) }
    ensures count { length (P.state p.new).events ≡ length (P.state p.old).events + 75 }
    ensures made { IsMade (words_of (P.state p.old)) (words_of (P.state p.new)) (at / 16384) class }
{
    let clear = clear_bitmap();
    let state = state_word(SlabState::Normal { class });
    store_words(p, slab_header_at(at, 1, 0), &clear);
    p.store(slab_header_at(at, 0, 0), state);
    flush_lines(p, at / 64, MADE_LINES);
    p.fence();
}

/// Sets or clears the bit of block `i`, below 4096, of the slab that begins at this byte, a multiple of 16384, and
/// flushes its line, by two events. Every other bit stays the same, and all else that the words of an arena say where
/// this is one of its slabs. It is durable once a fence follows; a crash before may keep it without other stores, and it
/// does the same to the words that are left then.
pub fn put_bit<P: Pmem>(p: &mut P, at: u32, i: u32, on: bool)
    requires aligned { at % 16384 ≡ 0 }
    requires inside { at + 2048 ≤ 8 * length (words_of (P.state p.old)) }
    requires block { i < 4096 }
    requires room { HasRoom (P.state p.old) 2 }
    ensures appends { let word = bitmap_word (at / 16384) i in Appends (P.state p.old) (P.state p.new) (put_events (8 * word) (with_bit (word_at (words_of (P.state p.old)) word) (i / 8 % 64) on)) }
    ensures bits { PutsBit (words_of (P.state p.old)) (words_of (P.state p.new)) (at / 16384) i on }
    ensures over { PutsBitOver (words_of (P.state p.old)) (at / 16384) i on }
{
    let (line, bit) = bit_place(i);
    let place = slab_header_at(at, line, bit / 64);
    let word = set_word(p.load(place), bit % 64, on);
    p.store(place, word);
    p.flush(place / 64);
}

/// Puts an entry, with a number below 65536, at a place, below 64, of the index table of the slab that begins at this
/// byte, a multiple of 16384, and flushes its line, by two events. Every other word stays the same, and all else that the
/// words of an arena say where this is one of its slabs. It is durable once a fence follows; a crash before may keep it
/// without other stores, and it does the same to the words that are left then.
pub fn put_index<P: Pmem>(p: &mut P, at: u32, place: u32, e: IndexEntry)
    requires aligned { at % 16384 ≡ 0 }
    requires inside { at + 2048 ≤ 8 * length (words_of (P.state p.old)) }
    requires place { place < 64 }
    requires number { e.number < 2 ^ 16 }
    requires room { HasRoom (P.state p.old) 2 }
    ensures appends { Appends (P.state p.old) (P.state p.new) (put_events (8 * index_word (at / 16384) place) (word_of_index e)) }
    ensures entry { PutsIndex (words_of (P.state p.old)) (words_of (P.state p.new)) (at / 16384) place e }
    ensures over { PutsIndexOver (words_of (P.state p.old)) (at / 16384) place e }
{
    let entry_at = index_at(at, place);
    p.store(entry_at, index_word(e));
    p.flush(entry_at / 64);
}
