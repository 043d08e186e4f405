// The text of maps of arenas: the numbers, the granules as letters, and the words of blocks in hexadecimal.
//
// `write_info` has a line for each number of a map, `write_text` the letters too, behind the line of `write_legend`, and
// `write_dump` has the lines of a block; `tenths_of` and `request_of` are shared with whatever else shows a map. Each
// writes exactly the text that `specs/` says, behind what stands in a buffer, and is one pass with no memory but the buffer's.
// The layer above puts the texts of a pool's arenas together; what a map says is in `heap_map`.
#![tactic(auto)]

mod drawing;
mod dump;
mod facts;
mod maps;

pub use drawing::{tenths_of, write_legend};
pub use dump::write_dump;
pub use facts::request_of;
pub use maps::{write_info, write_text};
