// The text of a dictionary's scripts and of its reports.
//
// A script is a text of lines, as a trace is: `dict G` says the granules of one arena, and `put`, `get` and `del` are its calls.
// `specs/Script.antt` says what the text means (`IsScript`, `IsRefusedScript`), `specs/Calls.antt` what a script says that was
// read (`calls_of`), and `specs/Report.antt` what is printed: what each call comes to, and the map behind them. The layer above
// reads by `read_script`, writes by `write_reply`, `write_value`, `write_size` and `write_pair_line`, each exactly its text
// behind what stood there, and knows the laws of the grammar: a text says one script, or has one refused line, and never both.
// The line of a crash is written by `write_crash_line` of `trace_text`.
//
// A script takes two vectors: its calls, and the words of all its puts, one after another. No memory is taken for a line.
#![tactic(auto, using(trace_text::proofs::Fronts::kept_further))]

mod laws;
mod line;
mod report;
mod script;

pub use laws::{law_of_no_refused_script, law_of_one_refused_script, law_of_one_script};
pub use report::{PlainReply, write_pair_line, write_reply, write_size, write_value};
pub use script::{Script, ScriptCall, read_script};
