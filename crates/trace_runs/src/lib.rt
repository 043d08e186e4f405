// The calls of a trace that are one arena's, made on it by one caller in the order of the lines, and the device that they
// leave; and what answers a trace whose calls are made by its threads.
//
// `new_arena` formats an arena of the trace's pool, and `blocks_of` lists the blocks of one. `run_calls` makes all calls of
// an arena and gives the device that went through them. What it promises stands in `specs/Journals.antt` (`HasRun`,
// `IsRunThrough`), in the words of the heap machine and of images: each call is a step of the placement for its thread
// (`IsPlacedStep`). The calls settle the run that `trace_crashes` says over what a crash leaves (`law_of_one_run`), and,
// where they read and write no word, the journal (`law_of_one_journal`).
//
// Where the threads of a trace make its calls in any order (`trace_workers`, `serve_runs`), `specs/Answers.antt` says which
// journals answer it (`AllAnswer`), and `specs/Told.antt` what is told of them (`IsTold`): by the threads' own seats, or by
// those of the arenas' owners. `threads_of` counts the seats, `put_report` writes a report. The rest of `specs/` is for the
// functions below.
//
// The layer above has a parsed trace and knows where devices come from and where bytes go.
#![tactic(auto)]

mod arenas;
mod blocks;
mod imaging;
mod laws;
mod threads;
mod told;

pub use arenas::new_arena;
pub use blocks::blocks_of;
pub use imaging::run_calls;
pub use laws::{law_of_one_journal, law_of_one_run};
pub use threads::threads_of;
pub use told::{Told, put_report};
