// What each command over the image of a pool reports.
//
// `check_pool` is what `check` does: it looks at the header lines, has the checker look at each arena in order, and gives a
// line for each, or the first defect and the number of the arena that has it. `specs/Checks.antt` says both, by
// the definitions of `pool_layout`, `image_defects` and `trace_text`. It needs no memory device: an image is judged by its
// words alone. `recover_heap` recovers an arena over a device that has its words, and gives its blocks, which are those of
// the words; `recover_arena` is what `recover` does for each arena, and has the lines of the heap (`specs/Recoveries.antt`).
// `migrate_pool` is what `migrate` does: it gives the bytes of one migration of each arena, or why there is none
// (`specs/Migrations.antt`). What `repair` makes of the words of an arena is said in `specs/Repairs.antt`; it is `nvpool` that does
// it. `pool_buffers` and `add_bytes` make bytes of words, piece by piece.
#![tactic(auto)]

mod bytes;
mod checking;
mod migrating;
mod recovering;

pub use bytes::{add_bytes, are_whole_words, new_piece, pool_buffers};
pub use checking::check_pool;
pub use migrating::{PoolMigrateFault, migrate_pool};
pub use recovering::{Recovered, recover_arena, recover_heap};
