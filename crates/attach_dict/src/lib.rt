// A crash-safe dictionary over one arena: keys are numbers of 64 bits, and a value is a list of at most 509 words.
//
// Each pair has a block of its own. Root 0 is the stage, where a block is made ready, and the block of every other root is a
// pair: its key, a number, the count of its words, and these. Of the pairs with one key the one with the greatest number
// counts, and the others are stale until `tidy` frees them. So a put is `stage`, `fill`, `publish` and, where a root is stale
// then, `tidy`; a crash within any of them leaves the map from before or the one from behind.
//
// `specs/Dict.antt` says of the words of an image alone when it is the dictionary of some pairs (`IsDict`), so that what
// recovery keeps gives the map again. `specs/Stages.antt` has what a dictionary keeps between its calls, `specs/Calls.antt`
// what each call does: its one call of the arena, and the map that a crash leaves. A caller needs no more than these.
#![tactic(auto)]

mod dict;
mod heads;
mod index;
mod layout;
mod opening;
mod progress;
mod publishing;
mod reading;
mod refusal;
mod removing;
mod root_set;
mod staging;
mod steps;

pub use dict::{Dict, law_of_dicts, law_of_kept_dicts, law_of_other_keys, law_of_stale_counts};
pub use refusal::{Absent, OpenFault, StageRefusal};
