// The old blocks of a slab that took another class.
ghost use Rattle.std.specs.Prelude.{◌≡◌, ◌↔◌, IsTrue, MatchOption, ◌+◌, ◌*◌, ◌/◌, ◌%◌, ◌^◌, ◌<◌, ◌≤◌, true, false, length};
ghost use Rattle.size_classes.specs.Classes.{class_capacity};
ghost use Rattle.pmem_lines.specs.Pmem.{words_of};
ghost use Rattle.image_tables.specs.Forms.{normal_kind};
ghost use Rattle.image_tables.specs.Tables.{tables_of};
ghost use Rattle.heap_model.specs.Machine.{slab_block};
ghost use Rattle.heap_check.specs.Heap.{is_old};
ghost use Rattle.heap_check.specs.Sound.{IsDoneSlab};
ghost use Rattle.slab_morph.specs.Overlaps.{IsOverlapRange};
ghost use Rattle.slab_morph.specs.SlabHeaders.{header_at, IsSlabHere, IsOldAt};

use crate::held::{fields_of, has_live, live_at, number_at, state_at};
use crate::overlap::overlaps;
use pmem_lines::Pmem;
use pool_layout::{blocks_at, slab_header_at};
use size_classes::size_of_class;
use slab_header::SlabState;

// The kind of a state word that says Normal, in its lowest eight bits.
const NORMAL: u64 = 1;

/// The place in its index table of the live old block that begins at byte `at` of the arena, in the slab that begins at
/// byte `slab`. `None` exactly where no old block that begins there lives.
pub fn old_place<P: Pmem>(p: &P, slab: u32, at: u32) -> Option<u32>
    requires here { IsSlabHere (words_of (P.state p.now)) slab }
    ensures { let t = tables_of (words_of (P.state p.now)) in MatchOption result (is_old (t.header (slab / 16384)) (slab / 16384) at ≡ false) (IsOldAt t (slab / 16384) at) }
{
    // Nearly all slabs are normal.
    if is_normal(p, slab) {
        return None;
    }
    let state = fields_of(state_at(p, slab));
    for place in 0..state.entries {
        if is_old_at(p, slab, state.old, place, at) {
            return Some(place);
        }
    }
    None
}

// Whether the old block in a place of the index table lives and begins at this byte.
fn is_old_at<P: Pmem>(p: &P, slab: u32, old: u8, place: u32, at: u32) -> bool
    requires aligned { slab % 16384 ≡ 0 }
    requires small { slab / 16384 < 2 ^ 16 }
    requires inside { slab + 2048 ≤ 8 * length (words_of (P.state p.now)) }
    requires old { old < 36 }
    requires place { place < 64 }
    requires number { (header_at (words_of (P.state p.now)) (slab / 16384)).number place < class_capacity old }
    ensures { let h = header_at (words_of (P.state p.now)) (slab / 16384) in IsTrue result ↔ ((h.live place ≡ true) × ((slab_block (slab / 16384) old (h.number place)).at ≡ at)) }
{
    live_at(p, slab, place)
        && blocks_at(slab) + number_at(p, slab, place) * size_of_class(old) == at
}

/// The class that the slab that begins at byte `slab` had before; 0 where it is normal.
pub fn old_class<P: Pmem>(p: &P, slab: u32) -> u8
    requires here { IsSlabHere (words_of (P.state p.now)) slab }
    ensures { result ≡ ((tables_of (words_of (P.state p.now))).header (slab / 16384)).old }
{
    fields_of(state_at(p, slab)).old
}

/// Whether the slab that begins at byte `slab` is normal: no block in it is an old one.
pub fn is_normal<P: Pmem>(p: &P, slab: u32) -> bool
    requires here { IsSlabHere (words_of (P.state p.now)) slab }
    ensures { IsTrue result ↔ (((tables_of (words_of (P.state p.now))).header (slab / 16384)).kind ≡ normal_kind) }
{
    p.load(slab_header_at(slab, 0, 0)) % 256 == NORMAL
}

/// Whether the slab that begins at byte `slab` took its class, and no old block lives in it.
pub fn is_done<P: Pmem>(p: &P, slab: u32) -> bool
    requires here { IsSlabHere (words_of (P.state p.now)) slab }
    ensures { IsTrue result ↔ IsDoneSlab (tables_of (words_of (P.state p.now))) (slab / 16384) }
{
    if is_normal(p, slab) {
        return false;
    }
    match state_at(p, slab) {
        SlabState::Morphed { entries, .. } => !has_live(p, slab, u32::from(entries)),
        _ => false,
    }
}

/// The blocks of its class that an old block overlaps, live or not, in the slab that begins at byte `slab`: the first one's
/// number, and one past the last one's. The old block is the one in a place of the index table that is read.
pub fn covered_by<P: Pmem>(p: &P, slab: u32, place: u32) -> (u32, u32)
    requires here { IsSlabHere (words_of (P.state p.now)) slab }
    requires place { place < ((tables_of (words_of (P.state p.now))).header (slab / 16384)).index_count }
    ensures { let t = tables_of (words_of (P.state p.now)) in IsOverlapRange (t.header (slab / 16384)).old ((t.header (slab / 16384)).number place) (t.header (slab / 16384)).class result.0 result.1 }
{
    let state = fields_of(state_at(p, slab));
    overlaps(state.old, number_at(p, slab, place), state.class)
}
