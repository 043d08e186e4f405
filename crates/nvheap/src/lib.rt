// What the program does between its words and its exit code: it replays allocation traces on the arenas of a pool over
// simulated persistent memory, or has a server of arenas serve them, and prints journals and heaps, it generates such work and
// prints what it came to, it writes the pool's image, it shows the heap that recovery makes of a crash at a chosen event, it
// checks, recovers and migrates the image of a pool, it does the same of traces on arenas of the GC variant, and it runs scripts of a dictionary and shows what a crash leaves of one.
//
// `run` does all of it, over traits for the outside: a source of bytes, a sink for bytes, a gate and a shelf of
// devices. Its contract is what the program promises: `specs/Ends.antt` says how a run ends by what a command means, and
// the table of `specs/Command.antt` has the meaning of each. The program's `main` makes the real source, sink, gate and
// shelf, and calls `run`; those in memory are for tests. Source and sink, and how they are read and written whole, are those
// of `program_io`. No rule of the heap stands here: the calls of a trace are made by
// `trace_workers`, `serve_runs`, `trace_runs` and `gc_runs`, those of generated work are drawn by `trace_gen`, those of a script are made by
// `dict_runs`, images are checked, recovered and migrated by `image_runs`, text is read and written by `trace_text` and
// `dict_text`, memory comes from `pmem_lines`.
#![tactic(auto)]

mod answers;
mod cause;
mod checking;
mod command;
mod crashing;
mod gc_crashing;
mod gc_reporting;
mod generating;
mod imaging;
mod input;
mod migrating;
mod recovering;
mod reporting;
mod running;
mod script_crashing;
mod scripting;
mod shelf;

pub use cause::Cause;
pub use command::Command;
pub use program_io::{
    Adapter, Failed, MemSink, MemSource, Sink, Source, Status, SureSink, SureSource,
};
pub use running::run;
pub use shared_pool::{Gate, OpenGate};
pub use shelf::{DropShelf, KeptShelf, Shelf};
