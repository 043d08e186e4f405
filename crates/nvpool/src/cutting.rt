// What `cut` has to say of its input.
ghost use Rattle.std.specs.Prelude.{◌≡◌, ◌≢◌, ◌<◌, ◌≤◌, ◌%◌, ◌^◌, ℕ, List, length, IfOk, IfErr, OnOk};
ghost use Rattle.std.specs.List.{All};
ghost use Rattle.trace_text.specs.Grammar.{pool_of, IsPool, IsTrace, IsTraceCall, IsRefusedLine};
ghost use Rattle.heap_check.specs.Image.{IsSoundImage};
ghost use Rattle.trace_runs.specs.Arenas.{header_for};
ghost use Rattle.trace_runs.specs.Calls.{calls_of, IsArenaOf};
ghost use Rattle.map_text.specs.Pieces.{Adds};
ghost use Rattle.nvpool.specs.Cutting.{AreRunAsBytes, AreParts, IsPartAsBytes, cutting};
ghost use Rattle.nvpool.specs.Ends.{IsAnswer, IsFaultLine, IsBadLine};
ghost use Rattle.trace_text.specs.declared.call.Refusal.TheVariants.{BadLine, NoArena};
ghost use Rattle.nvpool.specs.declared.cause.Cause.TheVariants.{Text};

use crate::answer::fault_line;
use crate::cause::Cause;
use image_runs::{add_bytes, new_piece};
use pmem_lines::{OutOfMemory, Pmem, SimPmem};
use pool_layout::{GRANULE_BYTES, layout_of};
use program_io::Answer;
use std::alloc::Global;
use trace_crashes::{CrashFault, crash};
use trace_runs::run_calls;
use trace_text::{Refusal, TextFault, Trace, read_trace};

const GRANULE_LINES: u32 = 256;

/// The bytes of the pool of a trace that a power cut leaves after an event of the calls of an arena, and after all calls of the
/// others; or the line that says why there are none: the first line of the input that is outside the grammar; else that the
/// trace has not the arena; else that its calls have fewer events.
pub(crate) fn cut_answer(
    alloc: Global,
    input: &[u8],
    arena: u32,
    event: u64,
    seed: u64,
) -> Result<Answer, OutOfMemory>
    requires { length input.now < 2 ^ 32 }
    ensures { IfOk result (IsAnswer (cutting arena event seed) input.now) }
{
    let trace = match trace_of(alloc, input) {
        Ok(trace) => trace,
        Err(answer) => return answer,
    };
    if arena >= trace.arenas {
        return lacks_arena(alloc, arena, trace.arenas);
    }
    match crash(alloc, &trace, arena, event, seed) {
        Ok(crashed) => Ok(Answer::Output(pool_bytes(alloc, &trace, arena, &crashed.image)?)),
        Err(CrashFault::NoEvent { events }) => fault_line(
            alloc,
            Cause::Text(Refusal::NoEvent { event, events }),
        ),
        Err(CrashFault::Memory(fault)) => Err(fault),
    }
}

// The trace that an input says, or the line that says which line of the input is outside the grammar.
fn trace_of(alloc: Global, input: &[u8]) -> Result<Trace, Result<Answer, OutOfMemory>>
    ensures trace { IfOk result (λ trace. IsTrace input.now (pool_of trace) trace.calls.items) }
    ensures pool { IfOk result (λ trace. IsPool (pool_of trace)) }
    ensures each { IfOk result (λ trace. All (IsTraceCall trace.arenas) trace.calls.items) }
    ensures few { IfOk result (λ trace. length trace.calls.items ≤ length input.now) }
    ensures refused { IfErr result (λ answer. IfOk answer (IsBadLine (IsRefusedLine input.now))) }
{
    match read_trace(alloc, input) {
        Ok(trace) => Ok(trace),
        Err(TextFault::Memory(fault)) => Err(Err(fault)),
        Err(TextFault::BadLine { line }) => Err(bad_line(alloc, line)),
    }
}

// The line that says which line of a text is outside its grammar.
fn bad_line(alloc: Global, line: u64) -> Result<Answer, OutOfMemory>
    ensures { IfOk result (IsFaultLine (Text (BadLine line))) }
{
    fault_line(alloc, Cause::Text(Refusal::BadLine { line }))
}

// The line that says that a trace has so many arenas, and not this one.
fn lacks_arena(alloc: Global, arena: u32, arenas: u32) -> Result<Answer, OutOfMemory>
    ensures { IfOk result (IsFaultLine (Text (NoArena arena arenas))) }
{
    let refusal = Refusal::NoArena {
        arena: u64::from(arena),
        arenas: u64::from(arenas),
    };
    fault_line(alloc, Cause::Text(refusal))
}

// The bytes of the pool of a trace, where the arena of one number has an image, and each other one the words that its calls leave.
fn pool_bytes(alloc: Global, trace: &Trace, cut: u32, image: &[u64]) -> Result<Vec<u8>, OutOfMemory>
    requires pool { IsPool (pool_of trace.now) }
    requires each { All (IsTraceCall trace.now.arenas) trace.now.calls.items }
    requires few { length trace.now.calls.items < 2 ^ 32 }
    requires sound { IsSoundImage image.now }
    ensures { IfOk result (λ bytes. AreParts (pool_of trace.now) trace.now.calls.items cut image.now trace.now.arenas bytes.items) }
{
    let mut bytes = Vec::with_capacity(alloc, size_of(trace))?;
    let mut piece = new_piece(alloc)?;
    for arena in 0..trace.arenas {
        add_part(alloc, trace, cut, image, arena, &mut bytes, &mut piece)?;
    }
    Ok(bytes)
}

// How many bytes the image of a trace's pool has.
fn size_of(trace: &Trace) -> usize
    requires { IsPool (pool_of trace.now) }
{
    GRANULE_BYTES as usize * trace.granules as usize * trace.arenas as usize
}

// Adds the bytes of one arena's words.
fn add_part(
    alloc: Global,
    trace: &Trace,
    cut: u32,
    image: &[u64],
    arena: u32,
    bytes: &mut Vec<u8>,
    piece: &mut [u8],
) -> Result<(), OutOfMemory>
    requires arena { IsArenaOf (pool_of trace.now) trace.now.calls.items arena }
    requires few { length trace.now.calls.items < 2 ^ 32 }
    requires sound { IsSoundImage image.now }
    requires piece { length piece.old ≡ 4096 }
    ensures part { OnOk result (Adds (IsPartAsBytes (pool_of trace.now) trace.now.calls.items cut image.now arena) bytes.old.items bytes.new.items) }
    ensures piece { length piece.new ≡ 4096 }
{
    if arena == cut {
        return add_bytes(bytes, image, piece);
    }
    add_run(alloc, trace, arena, bytes, piece)
}

// Adds the bytes of the words that all calls of an arena leave.
fn add_run(
    alloc: Global,
    trace: &Trace,
    arena: u32,
    bytes: &mut Vec<u8>,
    piece: &mut [u8],
) -> Result<(), OutOfMemory>
    requires arena { IsArenaOf (pool_of trace.now) trace.now.calls.items arena }
    requires few { length trace.now.calls.items < 2 ^ 32 }
    requires piece { length piece.old ≡ 4096 }
    ensures run { OnOk result (Adds (AreRunAsBytes (header_for (pool_of trace.now) arena) (calls_of arena trace.now.calls.items)) bytes.old.items bytes.new.items) }
    ensures piece { length piece.new ≡ 4096 }
{
    let room = layout_of(trace.version).room;
    let device = SimPmem::zeroed(alloc, GRANULE_LINES * trace.granules, room)?;
    let device = run_calls(alloc, trace, arena, device)?;
    add_bytes(bytes, device.words(0, device.size_words()), piece)
}
