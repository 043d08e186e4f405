// The free granules of an arena's heap, and the best fit among them.
//
// `ExtentIndex` means a set of granules. `IsFree` of `specs/FreeSet.antt` says which they are; free rows, free runs and
// the best fit are those of `heap_model`. The index answers the best fit of a request and keeps the set while granules
// are taken and given back, merging what comes to lie side by side. It takes memory once, when it is made.
//
// The layers above know these contracts, which speak of `IsFree` alone, and nothing of how the set is kept: as bits of
// words, for each length the starts of the free runs that have it, and one bit more for each length that a run has. The
// words stand in `WordTable`s, whose looks a `Steps` counts.
#![tactic(auto)]

mod index;
mod run;
mod search;
mod word_table;

pub use index::ExtentIndex;
pub use word_table::{Steps, WordTable};
