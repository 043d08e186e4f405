// An exact image of version 1 becomes one of version 2, word by word.
//
// The heap of version 2 begins nine granules higher, since it has more roots and a longer log before it. `raised_words`
// gives the words of an arena with the same heap so much higher: the words of the heap as they are, each root's address and
// each entry of the log raised, and each entry at its place of version 2. `specs/Rise.antt` says what becomes of addresses,
// blocks, entries and headers, and what the image of the new words is: exact, with the same blocks and slabs as much higher
// (`IsRaisedImage`). `specs/Front.antt` has the steps by which the words before the heap are made.
//
// The log is taken over chunk by chunk, with its Tombs and in its order, so that nothing has to be read of it: what starts at
// a granule is what starts there so much higher. It can't hold more than it did, since a chunk of version 2 is longer.
#![tactic(auto)]

mod higher;
mod log;
mod raising;

pub use higher::{raised_header, rise};
pub use raising::raised_words;
