// Write-ahead entries: which root a block is being attached to, taken from or moved to.
//
// An entry is one word, in the first word of one of eight lines, of which one at most is not 0. `WalEntry` and the form of
// its words stand with the tables of an image, in `image_tables`. `specs/Entry.antt` has the words of entries,
// `specs/Wal.antt` what opening and closing one changes of those tables: the open entry and nothing else, now and after a
// crash at any event. The layers above use the entry of a word and these two steps.
#![tactic(auto)]

mod entry;
mod wal;

pub use entry::{entry_of, entry_word};
pub use image_tables::WalEntry;
pub use wal::{close_entry, write_entry};
