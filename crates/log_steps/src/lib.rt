// An entry of the bookkeeping log, put in whole: room is made for it where the last active chunk is full, and then it is
// made durable.
//
// `log_entry` is the one step of it. `specs/Events.antt` has its events, as a function of the words before them, and
// `specs/Log.antt` what it leaves: every word outside the log and its directory, and the live extents with the entry done;
// a crash within it leaves them so or as before (`IsLoggedOrNot`). `IsBookOf` ties the table of live extents that
// `book_log` keeps to the words.
//
// The layer above says what the entry means for a block or a slab.
#![tactic(auto, using(std::proofs::lemmas::Grind::common_steps))]

mod entry;

pub use entry::log_entry;
