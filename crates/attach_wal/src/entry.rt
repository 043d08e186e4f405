// Write-ahead entries, as words.
ghost use Rattle.std.specs.Prelude.{◌≡◌, ◌↔◌, IsTrue, MatchOption};
ghost use Rattle.image_tables.specs.Tables.{entry_of_word};
ghost use Rattle.attach_wal.specs.Entry.{entry_word, FitsWord, IsEntryWord, IsNoEntryWord};

use image_tables::WalEntry;

/// The entry of a word. There is none exactly where the word is 0 or has not the form of an entry: bit 0 is not set, or a
/// bit without a meaning is; or, of a place entry, the place is 64 or more, or a block of the slab's class has a place
/// other than 0.
pub fn entry_of(word: u64) -> Option<WalEntry>
    ensures { MatchOption result (IsNoEntryWord word) (IsEntryWord word) }
{
    let entry = read_entry(word);
    if fits(entry) && entry_word(entry) == word {
        Some(entry)
    } else {
        None
    }
}

/// The word of an entry. Roots are below 65536; a place is below 64, and 0 for a block of the slab's class.
pub fn entry_word(entry: WalEntry) -> u64
    requires { FitsWord entry }
    ensures word { result ≡ entry_word entry }
    ensures inverse { IsEntryWord result entry }
{
    match entry {
        WalEntry::Place {
            root,
            at,
            old,
            place,
        } => 1
            + (u64::from(old) << 1)
            + (u64::from(place) << 8)
            + (u64::from(root) << 16)
            + (u64::from(at) << 32),
        WalEntry::Move { from, to } => 5 + (u64::from(from) << 16) + (u64::from(to) << 32),
    }
}

// What the fields of a word say, whatever the rest of the word is.
fn read_entry(word: u64) -> WalEntry
    ensures { result ≡ entry_of_word word }
{
    let root = ((word >> 16) % 65536) as u32;
    if (word >> 2) % 2 == 1 {
        WalEntry::Move {
            from: root,
            to: ((word >> 32) % 65536) as u32,
        }
    } else {
        WalEntry::Place {
            root,
            at: (word >> 32) as u32,
            old: (word >> 1) % 2 == 1,
            place: ((word >> 8) % 256) as u32,
        }
    }
}

// The numbers of an entry fit a word.
fn fits(entry: WalEntry) -> bool
    ensures { IsTrue result ↔ FitsWord entry }
{
    match entry {
        WalEntry::Place {
            root,
            old,
            place,
            ..
        } => root < 65536 && place < 64 && (old || place == 0),
        WalEntry::Move { from, to } => from < 65536 && to < 65536,
    }
}
