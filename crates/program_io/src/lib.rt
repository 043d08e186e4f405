// What a program has to do with its outside, whatever its words mean: it reads all of its input, and writes all that it has to
// say.
//
// `Source` and `Sink` are where bytes come from and go. Those of the system stand behind an `Adapter`, and those in memory are
// for tests; each counts how often it failed, so that a fault is blamed on it only where it is its own (`specs/Streams.antt`).
// `read_input` reads a source whole, as a text or as the image of a pool, within a limit (`specs/Inputs.antt`), and
// `write_answer` writes an answer whole; both tell how a run ends by a `Status` (`specs/Ends.antt`). Which words say a command of a
// program's table is said in `specs/Words.antt`. `nvheap` and `nvpool` say what their words, inputs and answers mean.
#![tactic(auto)]

mod adapter;
mod answer;
mod input;
mod output;
mod sink;
mod source;
mod status;
mod word;

pub use adapter::Adapter;
pub use answer::Answer;
pub use input::{Input, Kind, read_input};
pub use output::write_answer;
pub use sink::{MemSink, Sink, SureSink};
pub use source::{Failed, MemSource, Source, SureSource};
pub use status::Status;
pub use word::is_word;
