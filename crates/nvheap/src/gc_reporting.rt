// What `gc` has to say of its input, and the devices that it leaves.
ghost use Rattle.std.specs.Prelude.{◌≡◌, ◌<◌, ◌^◌, length, IfOk, OnErr};
ghost use Rattle.shared_pool.specs.Rows.{each_of};
ghost use Rattle.trace_text.specs.Grammar.{pool_of};
ghost use Rattle.gc_runs.specs.Told.{AreStillCalls, IsGcReported};
ghost use Rattle.nvheap.specs.GcReporting.{gc_reporting};
ghost use Rattle.nvheap.specs.Ends.{IsAnswer};

use crate::answers::still_trace_of;
use crate::shelf::{Shelf, put_all};
use gc_runs::run_gc_calls;
use pmem_lines::{OutOfMemory, Pmem};
use pool_layout::layout_of;
use program_io::Answer;
use std::alloc::Global;
use trace_text::Trace;

const GRANULE_LINES: u32 = 256;

// The report of a trace, and the devices that its calls leave, by arena.
#[derive(Drop)]
struct Told<D: Pmem + Drop> {
    text: Vec<u8>,
    devices: Vec<D>,
}

/// The report of a trace without moves, whose calls are made on arenas of the GC variant, in the order of the lines. Each arena's
/// device comes from the shelf, and is put into the place of the arena's number once all calls are made.
pub(crate) fn gc_answer<H: Shelf>(
    alloc: Global,
    input: &[u8],
    shelf: &mut H,
) -> Result<Answer, OutOfMemory>
    requires { length input.now < 2 ^ 32 }
    ensures answer { IfOk result (IsAnswer gc_reporting input.now (H.places shelf.old) (H.places shelf.new)) }
    ensures kept { OnErr result (H.places shelf.new ≡ H.places shelf.old) }
    ensures images { H.images shelf.new ≡ H.images shelf.old }
{
    let trace = match still_trace_of(alloc, input) {
        Ok(trace) => trace,
        Err(answer) => return answer,
    };
    let Told { text, devices } = run_arenas(alloc, &trace, shelf)?;
    put_all(shelf, devices);
    Ok(Answer::Output(text))
}

// Makes the calls of a trace on each of its arenas in turn, over devices of the shelf.
fn run_arenas<H: Shelf>(
    alloc: Global,
    trace: &Trace,
    shelf: &mut H,
) -> Result<Told<H::Device>, OutOfMemory>
    requires calls { AreStillCalls (pool_of trace.now) trace.now.calls.items }
    requires few { length trace.now.calls.items < 2 ^ 32 }
    ensures all { IfOk result (λ told. length told.devices.items ≡ trace.now.arenas) }
    ensures reported { IfOk result (λ told. IsGcReported (pool_of trace.now) trace.now.calls.items told.text.items (each_of told.devices.items (λ d. H.Device.state d))) }
    ensures places { H.places shelf.new ≡ H.places shelf.old }
    ensures images { H.images shelf.new ≡ H.images shelf.old }
{
    let mut text = Vec::new(alloc);
    let mut devices = Vec::new(alloc);
    for arena in 0..trace.arenas {
        let room = layout_of(trace.version).room;
        let device = shelf.take(alloc, GRANULE_LINES * trace.granules, room)?;
        devices.push(run_gc_calls(alloc, trace, arena, device, &mut text)?)?;
    }
    Ok(Told { text, devices })
}
