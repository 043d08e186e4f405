// The class of a slab, in its state word.
ghost use Rattle.std.specs.Prelude.{◌≡◌, ◌<◌, true};
ghost use Rattle.pmem_lines.specs.Words.{put_word};
ghost use Rattle.pmem_lines.specs.Events.{IsQuiet};
ghost use Rattle.pmem_lines.specs.Steps.{IsQuietStep};
ghost use Rattle.pmem_lines.specs.Pmem.{words_of, HasRoom};
ghost use Rattle.image_tables.specs.Tables.{is_slab, state_word};
ghost use Rattle.gc_check.specs.Image.{IsGcExactImage};
ghost use Rattle.gc_check.specs.State.{IsEitherGcHeap};
ghost use Rattle.gc_steps.specs.Slabs.{normal_word, class_events, IsClassPut};

use durable_steps::write_word;
use pmem_lines::Pmem;
use pool_layout::granule_at;

/// Gives the slab that begins at a granule a class, below 36, in three events: whichever blocks live in it keep theirs. The image
/// is exact before and behind it. Every other word is as before.
pub fn put_class<P: Pmem>(p: &mut P, start: u32, class: u8)
    requires image { IsGcExactImage (words_of (P.state p.old)) }
    requires slab { is_slab (words_of (P.state p.old)) start ≡ true }
    requires class { class < 36 }
    requires quiet { IsQuiet (P.state p.old).events }
    requires room { HasRoom (P.state p.old) 3 }
    ensures step { IsQuietStep (P.state p.old) (P.state p.new) (class_events start class) (IsEitherGcHeap (words_of (P.state p.old)) (words_of (P.state p.new))) }
    ensures put { IsClassPut (words_of (P.state p.old)) start class (words_of (P.state p.new)) }
    ensures words { words_of (P.state p.new) ≡ put_word (words_of (P.state p.old)) (state_word start) (normal_word class) }
{
    write_word(p, granule_at(start), normal_word(class));
}

/// The state word of a slab of a class, below 36.
pub(crate) fn normal_word(class: u8) -> u64
    requires { class < 36 }
    ensures { result ≡ normal_word class }
{
    1 + 256 * u64::from(class)
}
