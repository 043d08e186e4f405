// The loose things of an image, of which there is one of each kind at most.
ghost use Rattle.std.specs.Prelude.{◌≡◌, ◌↔◌, ◌<◌, true, IsTrue, MatchOption};
ghost use Rattle.pmem_lines.specs.Pmem.{words_of};
ghost use Rattle.pool_layout.specs.Header.{granules_in};
ghost use Rattle.image_tables.specs.Tables.{tables_of};
ghost use Rattle.heap_check.specs.Image.{IsSoundImage};
ghost use Rattle.image_defects.specs.Least.{HasNone};
ghost use Rattle.log_steps.specs.Log.{IsBookOf};
ghost use Rattle.recovery_steps.specs.Names.{AreNames};
ghost use Rattle.recovery_steps.specs.Kinds.{IsLooseOf};

use crate::RootNames;
use book_log::BookLog;
use defect_search::{is_done, is_empty_slab, is_loose_large, is_morphing};
use pmem_lines::Pmem;

/// All words of a device.
pub fn all_words<P: Pmem>(p: &P) -> &[u64]
    ensures { result.now ≡ words_of (P.state p.now) }
{
    p.words(0, p.size_words())
}

/// The kinds of loose things: a slab in Morphing, a large extent that no root holds, a slab in which no root's block lies, and
/// a slab in Morphed without a live old block.
#[derive(Clone, Copy)]
pub(crate) enum Loose {
    Morphing,
    Large,
    Empty,
    Done,
}

// A loose thing of a kind starts at a granule.
fn is_loose(words: &[u64], log: &BookLog, names: &RootNames, kind: Loose, start: u32) -> bool
    requires image { IsSoundImage words.now }
    requires book { IsBookOf log.now words.now }
    requires names { AreNames names.now words.now }
    requires inside { start < granules_in words.now }
    ensures { IsTrue result ↔ IsLooseOf kind (tables_of words.now) start }
{
    match kind {
        Loose::Morphing => is_morphing(words, log, start),
        Loose::Large => is_loose_large(words, log, names.starts(), start),
        Loose::Empty => is_empty_slab(words, log, names.granules(), start),
        Loose::Done => is_done(words, log, start),
    }
}

/// A loose thing of a kind, if there is one.
pub(crate) fn find(words: &[u64], log: &BookLog, names: &RootNames, kind: Loose) -> Option<u32>
    requires image { IsSoundImage words.now }
    requires book { IsBookOf log.now words.now }
    requires names { AreNames names.now words.now }
    ensures { MatchOption result (HasNone (IsLooseOf kind (tables_of words.now))) (IsLooseOf kind (tables_of words.now)) }
{
    for start in 0..log.granules() {
        if is_loose(words, log, names, kind, start) {
            return Some(start);
        }
    }
    None
}
