// Live extents that share a granule.
ghost use Rattle.std.specs.Prelude.{◌≡◌, ◌<◌, ◌≤◌, MatchOption};
ghost use Rattle.pool_layout.specs.Header.{granules_in};
ghost use Rattle.image_tables.specs.Tables.{tables_of};
ghost use Rattle.book_log.specs.Book.{Reads};
ghost use Rattle.image_defects.specs.Log.{AreDisjoint, IsFirstOverlap};
ghost use Rattle.image_reading.specs.Extents.{HasExtents};

use book_log::BookLog;
use image_defects::Pair;
use image_reading::granules_at;

/// The first live extent, by start, that begins in the one before it, and that one.
pub fn first_overlap(words: &[u64], log: &BookLog) -> Option<Pair>
    requires reads { Reads log.now words.now }
    requires granules { log.now.granules ≡ granules_in words.now }
    requires extents { HasExtents words.now }
    ensures { MatchOption result (AreDisjoint (tables_of words.now)) (IsFirstOverlap (tables_of words.now)) }
{
    let mut last = 0;
    let mut end = 0;
    for start in 0..log.granules() {
        let granules = granules_at(log, start);
        if granules > 0 {
            if start < end {
                return Some(Pair {
                    first: last,
                    second: start,
                });
            }
            last = start;
            end = start + granules;
        }
    }
    None
}
