// Steps that make words durable: one word, a pair of words, a row of words. Each is a short list of stores, flushes and
// one fence at its end, generic over the persistent memory.
//
// Each begins and ends quiet, so nothing is left to chance between two steps. Each appends exactly the events that
// `specs/Steps.antt` and `specs/Rows.antt` name, and says by its own crash clause what a crash within them leaves: every
// word old or new, and those outside the step as they were. A longer sequence is argued step by step from these
// clauses, and nothing above looks into the lists. For a sequence with a fence of its own, `store_words` and
// `flush_lines` are the parts of a row; they end without a fence.
#![tactic(auto)]

mod row;
mod step;

pub use row::{flush_lines, store_words, write_row};
pub use step::{write_pair, write_word};
