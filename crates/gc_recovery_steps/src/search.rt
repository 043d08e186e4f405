// The loose things of an image, of which there is one of each kind at most.
ghost use Rattle.std.specs.Prelude.{◌≡◌, ◌↔◌, ◌<◌, IsTrue, MatchOption};
ghost use Rattle.pmem_lines.specs.Pmem.{words_of};
ghost use Rattle.pool_layout.specs.Header.{granules_in};
ghost use Rattle.image_defects.specs.Least.{HasNone};
ghost use Rattle.gc_check.specs.Heap.{gc_tables};
ghost use Rattle.gc_search.specs.Known.{IsLogRead};
ghost use Rattle.gc_search.specs.Names.{AreNamesOf};
ghost use Rattle.gc_recovery_steps.specs.Kinds.{IsLooseOf};

use book_log::BookLog;
use gc_search::{GcNames, is_empty_slab, is_loose_large};
use pmem_lines::Pmem;

/// All words of a device.
pub fn all_words<P: Pmem>(p: &P) -> &[u64]
    ensures { result.now ≡ words_of (P.state p.now) }
{
    p.words(0, p.size_words())
}

/// The kinds of loose things: a large extent that no root names, and a slab in which no root's block lies.
#[derive(Clone, Copy)]
pub(crate) enum Loose {
    Large,
    Empty,
}

// A loose thing of a kind starts at a granule.
fn is_loose(words: &[u64], log: &BookLog, names: &GcNames, kind: Loose, start: u32) -> bool
    requires read { IsLogRead words.now log.now }
    requires names { AreNamesOf words.now names.now }
    requires inside { start < granules_in words.now }
    ensures { IsTrue result ↔ IsLooseOf kind (gc_tables words.now) start }
{
    match kind {
        Loose::Large => is_loose_large(words, log, names, start),
        Loose::Empty => is_empty_slab(words, log, names, start),
    }
}

/// A loose thing of a kind, if there is one.
pub(crate) fn find(words: &[u64], log: &BookLog, names: &GcNames, kind: Loose) -> Option<u32>
    requires read { IsLogRead words.now log.now }
    requires names { AreNamesOf words.now names.now }
    ensures { MatchOption result (HasNone (IsLooseOf kind (gc_tables words.now))) (IsLooseOf kind (gc_tables words.now)) }
{
    for start in 0..log.granules() {
        if is_loose(words, log, names, kind, start) {
            return Some(start);
        }
    }
    None
}
