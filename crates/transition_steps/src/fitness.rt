// Whether a slab of an arena may take another class.
ghost use Rattle.std.specs.Prelude.{◌≡◌, ◌<◌, true, false};
ghost use Rattle.pmem_lines.specs.Pmem.{words_of};
ghost use Rattle.image_tables.specs.Forms.{normal_kind};
ghost use Rattle.image_tables.specs.Tables.{tables_of};
ghost use Rattle.heap_check.specs.Image.{IsExactImage};
ghost use Rattle.transition_steps.specs.Classes.{IsReadyFor, IsFitIn};

use pmem_lines::Pmem;
use pool_layout::granule_at;
use slab_morph::fit;

/// Whether the slab that begins at the granule `start`, which is normal, is fit for a class, below 36: it may take it then.
/// It looks at the slab's header alone.
pub fn is_ready<P: Pmem>(p: &P, start: u32, class: u8) -> bool
    requires image { IsExactImage (words_of (P.state p.now)) }
    requires slab { (tables_of (words_of (P.state p.now))).slab start ≡ true }
    requires normal { ((tables_of (words_of (P.state p.now))).header start).kind ≡ normal_kind }
    requires class { class < 36 }
    ensures ready { result ≡ true → IsReadyFor (words_of (P.state p.now)) start class }
    ensures unfit { result ≡ false → ¬ (IsFitIn (words_of (P.state p.now)) start class) }
{
    fit(p, granule_at(start), class)
}
