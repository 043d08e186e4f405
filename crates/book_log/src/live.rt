// The table of live extents, by start.

ghost use Rattle.std.specs.Prelude.{◌≡◌, ℕ, ◌^◌, ◌<◌, ◌≤◌, length, vec_len, Some, None, IfOk, MatchOption};
ghost use Rattle.book_log.specs.Entry.{start_of, extent_of};
ghost use Rattle.book_log.specs.Log.{with_entry};
ghost use Rattle.book_log.specs.Table.{extent_in, IsNextLive, IsNoneLive};

use crate::LogEntry;
use image_tables::Extent;
use pmem_lines::OutOfMemory;
use std::alloc::Global;

/// A table for so many granules, in which nothing is live.
pub(crate) fn no_extents(alloc: Global, granules: u32) -> Result<Vec<Option<Extent>>, OutOfMemory>
    ensures length { IfOk result (λ live. vec_len live ≡ granules) }
    ensures none { IfOk result (λ live. (start : ℕ) → extent_in live.items start ≡ None) }
{
    let mut live = Vec::with_capacity(alloc, granules as usize)?;
    for _granule in 0..granules {
        live.push(None)?;
    }
    Ok(live)
}

/// Makes all of it dead.
pub(crate) fn clear(live: &mut [Option<Extent>])
    ensures { (start : ℕ) → extent_in live.new start ≡ None }
{
    for extent in live.iter_mut() {
        *extent = None;
    }
}

/// Does what an entry says.
pub(crate) fn put_entry(live: &mut [Option<Extent>], entry: LogEntry)
    requires { start_of entry < length live.old }
    ensures { (start : ℕ) → extent_in live.new start ≡ with_entry (extent_in live.old) entry start }
{
    live[entry.start() as usize] = entry.extent();
}

/// What starts at a granule; nothing does past the end of the table.
pub(crate) fn extent_in(live: &[Option<Extent>], start: u32) -> Option<Extent>
    ensures { result ≡ extent_in live.now start }
{
    if (start as usize) < live.len() {
        live[start as usize]
    } else {
        None
    }
}

/// The entry of the live extent with the least start from `from` on.
pub(crate) fn next_in(live: &[Option<Extent>], from: u32) -> Option<LogEntry>
    requires { length live.now < 2 ^ 32 }
    ensures { MatchOption result (IsNoneLive (extent_in live.now) from) (IsNextLive (extent_in live.now) from) }
{
    for start in from..live.len() as u32 {
        if let Some(extent) = live[start as usize] {
            return Some(live_entry(start, extent));
        }
    }
    None
}

// The entry that says that an extent starts there.
fn live_entry(start: u32, extent: Extent) -> LogEntry
    ensures start { start_of result ≡ start }
    ensures extent { extent_of result ≡ Some extent }
{
    match extent {
        Extent::Large { granules } => LogEntry::Large { start, granules },
        Extent::Slab => LogEntry::Slab { start },
    }
}
