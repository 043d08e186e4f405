// The calls of a trace without moves, made on arenas of the GC variant by one caller in the order of the lines: their report, and the
// devices that they leave.
//
// `new_gc_arena` formats an arena of the trace's pool, `answer` makes one call of one and gives its entry, and `gc_blocks_of` lists the
// blocks of one. `run_gc_calls` makes all calls of an arena, and writes the report of them behind a text. What they
// promise stands in `specs/Journals.antt` (`HasGcRun`) and `specs/Told.antt` (`IsGcReported`), in the words of the heap machine and of
// images: they are what `trace_runs` says of the LOG variant, but for the events and for the write-ahead line, which there is none of.
//
// The layer above has a parsed trace and knows where devices come from and where bytes go.
#![tactic(auto)]

mod answering;
mod arenas;
mod blocks;
mod telling;

pub use answering::answer;
pub use arenas::new_gc_arena;
pub use blocks::gc_blocks_of;
pub use telling::run_gc_calls;
