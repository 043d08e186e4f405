// The bookkeeping log: entries that say which extents live.
//
// An entry is one word. `specs/Entry.antt` has the words of entries and which entries a heap may have;
// `specs/Log.antt` has when the log of an arena is well formed, where its next entry goes, and what an entry changes
// of the table of live extents of `image_tables`.
//
// `BookLog` keeps that table and the place of the next entry beside the words. It means a `Book`, and `Reads` of
// `specs/Book.antt` says that this is what the words of an arena say: `load` makes it so, `append` keeps it so, and it
// stays where no word of the log changes (`proofs/Books.antt`). The layers above use the entry of a word, the live
// extents before and after an append and at each crash within it, and `load` once they have changed the log themselves.
#![tactic(auto)]

mod append;
mod directory;
mod entry;
mod live;
mod log;
mod place;
mod taking;

pub use directory::active_chunks;
pub use entry::{LogEntry, log_entry_of, log_word};
pub use log::BookLog;
pub use place::EntryPlace;
