// A slab takes another class, and comes to an end with its old blocks.
ghost use Rattle.std.specs.Prelude.{◌≡◌, ◌+◌, ◌*◌, ◌/◌, ◌%◌, ◌<◌, ◌≤◌, length};
ghost use Rattle.pmem_lines.specs.Events.{IsQuiet};
ghost use Rattle.pmem_lines.specs.Steps.{IsQuietStep};
ghost use Rattle.pmem_lines.specs.Pmem.{words_of, HasRoom};
ghost use Rattle.image_tables.specs.Forms.{morphing_kind};
ghost use Rattle.slab_header.specs.State.{kind_of, class_of, old_of, entries_of, IsValidState};
ghost use Rattle.slab_header.specs.Morph.{morph_events, finish_morph_events, finish_old_events};
ghost use Rattle.slab_morph.specs.SlabHeaders.{IsHeaderIn, header_at, alone};
ghost use Rattle.slab_morph.specs.Stages.{morphed, finished, settled, morph_count, IsMorphable, IsOnItsWay, IsDone, IsMorphStage, IsFinishStage, IsSettleStage, KeepsHeld, Changes};

use crate::bitmap::clear_bitmap;
use crate::entries::index_old_blocks;
use crate::held::{fields_of, state_at};
use crate::state::put_state;
use pmem_lines::Pmem;
use slab_header::SlabState;

/// The slab that begins at this byte, a multiple of 16384, takes a class, below 36, for which it is fit. It is normal and
/// holds n blocks, at least one, which live on as old blocks. There are n + min(n, 8) + 80 events: the old blocks go into
/// the index table, the state word says Morphing, the bitmap is cleared, and the state word says Morphed.
///
/// Every word outside the slab's header stays the same, and so do the blocks that the slab holds, after a crash within it
/// too.
pub fn morph<P: Pmem>(p: &mut P, slab: u32, class: u8)
    requires header { IsHeaderIn (words_of (P.state p.old)) slab }
    requires class { class < 36 }
    requires morphable { IsMorphable (words_of (P.state p.old)) (slab / 16384) class }
    requires quiet { IsQuiet (P.state p.old).events }
    requires room { HasRoom (P.state p.old) (morph_count (header_at (words_of (P.state p.old)) (slab / 16384))) }
    ensures step { IsQuietStep (P.state p.old) (P.state p.new) (morph_events (alone (header_at (words_of (P.state p.old)) (slab / 16384))) (slab / 16384) class) (KeepsHeld (words_of (P.state p.old)) (slab / 16384) (IsMorphStage (header_at (words_of (P.state p.old)) (slab / 16384)) class)) }
    ensures count { length (P.state p.new).events ≡ length (P.state p.old).events + morph_count (header_at (words_of (P.state p.old)) (slab / 16384)) }
    ensures morphed { Changes (words_of (P.state p.old)) (words_of (P.state p.new)) (slab / 16384) (λ h. morphed h class) }
    ensures kept { KeepsHeld (words_of (P.state p.old)) (slab / 16384) (λ h. h ≡ morphed (header_at (words_of (P.state p.old)) (slab / 16384)) class) (words_of (P.state p.new)) }
{
    let old = fields_of(state_at(p, slab)).class;
    let entries = index_old_blocks(p, slab, old);
    let on_its_way = SlabState::Morphing {
        class,
        old,
        entries,
    };
    put_state(p, slab, on_its_way);
    finish_morph(p, slab);
}

/// The slab that begins at this byte, a multiple of 16384, is in Morphing and comes to its class: the bitmap is cleared,
/// and the state word says Morphed, by 76 events.
///
/// Every word outside the slab's header stays the same, and so do the blocks that the slab holds, after a crash within it
/// too.
pub fn finish_morph<P: Pmem>(p: &mut P, slab: u32)
    requires header { IsHeaderIn (words_of (P.state p.old)) slab }
    requires morphing { IsOnItsWay (words_of (P.state p.old)) (slab / 16384) }
    requires quiet { IsQuiet (P.state p.old).events }
    requires room { HasRoom (P.state p.old) 76 }
    ensures step { let h = header_at (words_of (P.state p.old)) (slab / 16384) in IsQuietStep (P.state p.old) (P.state p.new) (finish_morph_events (slab / 16384) h.class h.old h.index_count) (KeepsHeld (words_of (P.state p.old)) (slab / 16384) (IsFinishStage h)) }
    ensures count { length (P.state p.new).events ≡ length (P.state p.old).events + 76 }
    ensures finished { Changes (words_of (P.state p.old)) (words_of (P.state p.new)) (slab / 16384) finished }
    ensures kept { KeepsHeld (words_of (P.state p.old)) (slab / 16384) (λ h. h ≡ finished (header_at (words_of (P.state p.old)) (slab / 16384))) (words_of (P.state p.new)) }
{
    let there = arrived(state_at(p, slab));
    clear_bitmap(p, slab);
    put_state(p, slab, there);
}

/// The slab that begins at this byte, a multiple of 16384, is in Morphed without a live index entry, and becomes Normal, by
/// 3 events.
///
/// Every word outside the slab's header stays the same, and so do the blocks that the slab holds, after a crash within it
/// too.
pub fn finish_old<P: Pmem>(p: &mut P, slab: u32)
    requires header { IsHeaderIn (words_of (P.state p.old)) slab }
    requires done { IsDone (words_of (P.state p.old)) (slab / 16384) }
    requires quiet { IsQuiet (P.state p.old).events }
    requires room { HasRoom (P.state p.old) 3 }
    ensures step { let h = header_at (words_of (P.state p.old)) (slab / 16384) in IsQuietStep (P.state p.old) (P.state p.new) (finish_old_events (slab / 16384) h.class) (KeepsHeld (words_of (P.state p.old)) (slab / 16384) (IsSettleStage h)) }
    ensures count { length (P.state p.new).events ≡ length (P.state p.old).events + 3 }
    ensures settled { Changes (words_of (P.state p.old)) (words_of (P.state p.new)) (slab / 16384) settled }
    ensures kept { KeepsHeld (words_of (P.state p.old)) (slab / 16384) (λ h. h ≡ settled (header_at (words_of (P.state p.old)) (slab / 16384))) (words_of (P.state p.new)) }
{
    let class = fields_of(state_at(p, slab)).class;
    put_state(p, slab, SlabState::Normal { class });
}

// The state of a slab that was on its way to its class, and is there.
fn arrived(state: SlabState) -> SlabState
    requires valid { IsValidState state }
    requires morphing { kind_of state ≡ morphing_kind }
    ensures state { result ≡ SlabState.Morphed (class_of state) (old_of state) (entries_of state) }
    ensures valid { IsValidState result }
{
    match state {
        SlabState::Morphing {
            class,
            old,
            entries,
        } => SlabState::Morphed {
            class,
            old,
            entries,
        },
        other => other,
    }
}
