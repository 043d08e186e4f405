// The text of the program: traces are read, and reports, crash reports and refusals are written, as bytes.
//
// What a text of lines is stands in `specs/Texts.antt`, for any grammar of its lines, what the text of a trace means in
// `specs/Grammar.antt`, and what is printed in `specs/Report.antt`: definitions on lists of bytes that share the text of a
// call. The layers above know `read_trace` and `read_still_trace` (the grammar, with the first line outside it), the writers (exactly the
// text, behind what stood there) and the laws of the grammar: a text says one trace, or has one refused line, and never both. Both
// directions are one pass, with no memory taken for a line: a report is written line by line, `write_arena`, `write_entry`
// for each call, and `write_heap`.
//
// The text of scripts, `dict_text`, shares what reads a line (`next_line`, `is_passed_over`, `after`, `read_number`,
// `whole_number`), what writes one (`write_bytes`, `write_number`, `write_word`), the line of a crash (`write_crash_line`) and
// why a text is not read (`TextFault`).
#![tactic(auto, using(crate::proofs::Fronts::kept_further))]

mod call;
mod image_report;
mod kind;
mod laws;
mod line;
mod line_end;
mod number;
mod report;
mod text;
mod trace;
mod work_report;
mod writing;

pub use call::{CrashSide, PoolSize, Refusal, TraceCall};
pub use image_report::{write_defect, write_recovered, write_summary, write_version};
pub use laws::{
    law_of_no_refusal, law_of_no_still_refusal, law_of_one_refusal, law_of_one_still_refusal,
    law_of_one_still_trace, law_of_one_trace,
};
pub use number::{after, read_number, whole_number};
pub use report::{
    write_arena, write_crash, write_crash_line, write_entry, write_heap, write_refusal,
};
pub use text::{TextFault, is_passed_over, next_line};
pub use trace::{Trace, read_still_trace, read_trace};
pub use work_report::{Work, write_work};
pub use writing::{write_bytes, write_number, write_word};
