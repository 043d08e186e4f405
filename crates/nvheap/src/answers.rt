// What each command has to say of its input.
ghost use Rattle.std.specs.Prelude.{◌≡◌, ◌≤◌, ℕ, List, length, IfOk, IfErr, OnErr, IsTrue};
ghost use Rattle.std.specs.List.{All};
ghost use Rattle.trace_text.specs.Grammar.{pool_of, IsPool, IsTrace, IsTraceCall, IsRefusedLine, IsStill, IsStillTrace, IsRefusedStillLine};
ghost use Rattle.gc_runs.specs.Told.{AreStillCalls};
ghost use Rattle.trace_text.specs.declared.call.Refusal.TheVariants.{BadLine};
ghost use Rattle.nvheap.specs.declared.cause.Cause.TheVariants.{Text};
ghost use Rattle.nvheap.specs.Command.{meaning_of};
ghost use Rattle.program_io.specs.Inputs.{HasBytes, IsInput, Fits};
ghost use Rattle.nvheap.specs.Ends.{IsAnswer, CountsImages, IsFaultLine, IsBadLine};

use crate::cause::{Cause, write_cause};
use crate::checking::check_answer;
use crate::command::Command;
use crate::crashing::crash_answer;
use crate::gc_crashing::gc_crash_answer;
use crate::gc_reporting::gc_answer;
use crate::imaging::image_answer;
use crate::migrating::migrate_answer;
use crate::recovering::recover_answer;
use crate::script_crashing::dict_crash_answer;
use crate::scripting::dict_answer;
use crate::shelf::Shelf;
use pmem_lines::OutOfMemory;
use program_io::{Answer, Input};
use std::alloc::Global;
use trace_text::{Refusal, TextFault, Trace, read_still_trace, read_trace};

/// The answer of a command that does not wait. A refusal and want of memory leave the shelf's places as they were.
pub(crate) fn answer_to<H: Shelf>(
    alloc: Global,
    command: Command,
    input: &Input,
    shelf: &mut H,
) -> Result<Answer, OutOfMemory>
    requires returns { ¬ (IsTrue (meaning_of command).waits) }
    requires fits { Fits (meaning_of command).reads input.now }
    requires input { IsInput input.now }
    ensures answer { IfOk result (λ answer. (bytes : List ℕ) → HasBytes input.now bytes → IsAnswer (meaning_of command) bytes (H.places shelf.old) (H.places shelf.new) answer) }
    ensures counts { IfOk result (λ answer. (bytes : List ℕ) → HasBytes input.now bytes → CountsImages (meaning_of command) bytes (H.images shelf.old) (H.images shelf.new) answer) }
    ensures kept { OnErr result (H.places shelf.new ≡ H.places shelf.old) }
    ensures images { ¬ (IsTrue (meaning_of command).recovers) → H.images shelf.new ≡ H.images shelf.old }
    ensures idle { IsTrue (meaning_of command).idle → shelf.new ≡ shelf.old }
{
    match (command, input) {
        (Command::Image, Input::Text(text)) => image_answer(alloc, text, shelf),
        (Command::Check, Input::Image { words, bytes }) => check_answer(alloc, words, *bytes),
        (Command::Recover, Input::Image { words, bytes }) => {
            recover_answer(alloc, words, *bytes, shelf)
        }
        (Command::Crash { arena, event, seed }, Input::Text(text)) => {
            crash_answer(alloc, text, arena, event, seed, shelf)
        }
        (Command::Migrate, Input::Image { words, bytes }) => migrate_answer(alloc, words, *bytes),
        (Command::Dict, Input::Text(text)) => dict_answer(alloc, text, shelf),
        (Command::DictCrash { event, seed }, Input::Text(text)) => {
            dict_crash_answer(alloc, text, event, seed, shelf)
        }
        (Command::Gc, Input::Text(text)) => gc_answer(alloc, text, shelf),
        (Command::GcCrash { arena, event, seed }, Input::Text(text)) => {
            gc_crash_answer(alloc, text, arena, event, seed, shelf)
        }
        _ => unreachable!(),
    }
}

/// The trace that an input says, or the answer of each command that reads one: the line that says which line of the input is
/// outside the grammar.
pub(crate) fn trace_of(alloc: Global, input: &[u8]) -> Result<Trace, Result<Answer, OutOfMemory>>
    ensures trace { IfOk result (λ trace. IsTrace input.now (pool_of trace) trace.calls.items) }
    ensures pool { IfOk result (λ trace. IsPool (pool_of trace)) }
    ensures each { IfOk result (λ trace. All (IsTraceCall trace.arenas) trace.calls.items) }
    ensures few { IfOk result (λ trace. length trace.calls.items ≤ length input.now) }
    ensures refused { IfErr result (λ answer. IfOk answer (IsBadLine (IsRefusedLine input.now))) }
{
    match read_trace(alloc, input) {
        Ok(trace) => Ok(trace),
        Err(TextFault::Memory(fault)) => Err(Err(fault)),
        Err(TextFault::BadLine { line }) => Err(bad_line(alloc, line)),
    }
}

/// The trace without moves that an input says, or the same answer of each command that reads one.
pub(crate) fn still_trace_of(
    alloc: Global,
    input: &[u8],
) -> Result<Trace, Result<Answer, OutOfMemory>>
    ensures trace { IfOk result (λ trace. IsStillTrace input.now (pool_of trace) trace.calls.items) }
    ensures version { IfOk result (λ trace. trace.version ≡ 1) }
    ensures calls { IfOk result (λ trace. AreStillCalls (pool_of trace) trace.calls.items) }
    ensures few { IfOk result (λ trace. length trace.calls.items ≤ length input.now) }
    ensures refused { IfErr result (λ answer. IfOk answer (IsBadLine (IsRefusedStillLine input.now))) }
{
    match read_still_trace(alloc, input) {
        Ok(trace) => Ok(trace),
        Err(TextFault::Memory(fault)) => Err(Err(fault)),
        Err(TextFault::BadLine { line }) => Err(bad_line(alloc, line)),
    }
}

/// One line that says which line of a text is outside its grammar.
pub(crate) fn bad_line(alloc: Global, line: u64) -> Result<Answer, OutOfMemory>
    ensures { IfOk result (IsFaultLine (Text (BadLine line))) }
{
    fault_line(alloc, Cause::Text(Refusal::BadLine { line }))
}

/// One line that says why an input is refused.
pub(crate) fn fault_line(alloc: Global, cause: Cause) -> Result<Answer, OutOfMemory>
    ensures { IfOk result (IsFaultLine cause) }
{
    let mut text = Vec::new(alloc);
    write_cause(&mut text, cause)?;
    Ok(Answer::FaultLine(text))
}
