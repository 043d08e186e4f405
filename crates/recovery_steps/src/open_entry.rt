// The open write-ahead entry is settled.
ghost use Rattle.std.specs.Prelude.{◌≡◌, ℕ, List, Some, MatchOption};
ghost use Rattle.image_tables.specs.Tables.{tables_of};
ghost use Rattle.book_log.specs.Book.{Reads};
ghost use Rattle.heap_check.specs.Image.{IsSoundImage, IsSteadyImage};
ghost use Rattle.settle_steps.specs.Entries.{LiesInSlab};
ghost use Rattle.recovery_steps.specs.OpenEntry.{IsClosed, IsFoundOpen};
ghost use Rattle.settle_steps.specs.Settled.{KeepsHeap};
ghost use Rattle.recovery_steps.specs.Parts.{PartMayBegin, IsLeft, Does};
ghost use Rattle.recovery_steps.specs.Recovery.{SettlesOpen};

use crate::search::all_words;
use attach_wal::{WalEntry, entry_of};
use book_log::BookLog;
use defect_search::{next_line, slab_of};
use image_reading::wal_word;
use pmem_lines::Pmem;
use pool_layout::GRANULE_BYTES;
use settle_steps::settle_entry;

// An entry that is open, and its line.
#[derive(Clone, Copy)]
pub(crate) struct OpenEntry {
    pub(crate) line: u32,
    pub(crate) entry: WalEntry,
}

// The open entry, if there is one.
fn open_in(words: &[u64]) -> Option<OpenEntry>
    requires image { IsSteadyImage words.now }
    ensures { MatchOption result (IsClosed words.now) (IsFoundOpen words.now) }
{
    match next_line(words, 0) {
        None => None,
        Some(line) => match entry_of(wal_word(words, line)) {
            Some(entry) => Some(OpenEntry { line, entry }),
            None => unreachable!(),
        },
    }
}

// Where the slab begins that has the block of an open place entry.
fn slab_with(log: &BookLog, entry: WalEntry) -> u32
    ensures { (words : List ℕ) → IsSoundImage words → Reads log.now words → (tables_of words).open_entry ≡ Some entry → LiesInSlab (tables_of words) result entry }
{
    match entry {
        WalEntry::Place { at, .. } => slab_of(log, at / GRANULE_BYTES),
        WalEntry::Move { .. } => 0,
    }
}

/// Settles the open entry, if there is one, and closes it, by at most six events.
pub(crate) fn settle_open<P: Pmem>(p: &mut P, log: &BookLog)
    requires { PartMayBegin IsSteadyImage log.now (P.state p.old) 6 }
    ensures { Does log.now KeepsHeap IsLeft (P.state p.old) (P.state p.new) SettlesOpen 6 }
{
    if let Some(found) = open_in(all_words(p)) {
        let start = slab_with(log, found.entry);
        settle_entry(p, found.line, found.entry, start);
    }
}
