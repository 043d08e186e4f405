// Maps of arenas as a picture, in SVG: a page with a box for each granule of each arena, 64 a row.
//
// `write_head` has the title, a description for who can't see the picture, the tones and the legend; `write_picture` has an arena
// at its place (`arena_y`): a heading with the numbers, the granules, and how full the slabs of each class are; `write_end` the
// end. A granule's box has the tone of what it is; slabs in transition are hatched, a bar says how many tenths of a slab live, and a
// narrow one in it how many of these are old blocks; an edge is where a thing begins, what is loose is framed, and the length of a
// row of free granules stands in its last one. Each call writes exactly the text that `specs/` says.
#![tactic(auto)]

mod arenas;
mod cells;
mod page;
mod rows;
mod shapes;

pub use arenas::{arena_height, write_picture};
pub use page::{arena_y, write_end, write_head};
