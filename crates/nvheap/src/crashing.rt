// What `crash` has to say of its input, and the device that it leaves.
ghost use Rattle.std.specs.Prelude.{◌≡◌, ◌<◌, IfOk, OnOk, OnErr};
ghost use Rattle.pmem_lines.specs.Pmem.{risen};
ghost use Rattle.pool_layout.specs.Layout.{layout_of};
ghost use Rattle.pool_layout.specs.Header.{version_in};
ghost use Rattle.heap_check.specs.Image.{IsSoundImage};
ghost use Rattle.trace_text.specs.Report.{crash_text};
ghost use Rattle.trace_runs.specs.Blocks.{blocks_in};
ghost use Rattle.recover.specs.Recovered.{IsRecoveredDevice};
ghost use Rattle.nvheap.specs.Crashing.{PutsRecovered, log_arenas, crashing};
ghost use Rattle.trace_text.specs.declared.call.Refusal.TheVariants.{NoArena, NoEvent};
ghost use Rattle.nvheap.specs.declared.cause.Cause.TheVariants.{Text};
ghost use Rattle.nvheap.specs.Ends.{IsAnswer, CountsImages, IsFaultLine};

use crate::answers::{fault_line, trace_of};
use crate::cause::Cause;
use crate::shelf::Shelf;
use image_runs::recover_heap;
use pmem_lines::OutOfMemory;
use pool_layout::{header_of, layout_of};
use program_io::Answer;
use recover::RecoverFault;
use std::alloc::Global;
use trace_crashes::{CrashFault, Crashed, crash};
use trace_text::{Refusal, write_crash};

/// The report of what a crash leaves after an event of the calls of an arena of a trace. The image is recovered on a device
/// of the shelf, which is put into the place of the arena's number; its heap is reported.
pub(crate) fn crash_answer<H: Shelf>(
    alloc: Global,
    input: &[u8],
    arena: u32,
    event: u64,
    seed: u64,
    shelf: &mut H,
) -> Result<Answer, OutOfMemory>
    ensures answer { IfOk result (IsAnswer (crashing log_arenas arena event seed) input.now (H.places shelf.old) (H.places shelf.new)) }
    ensures counts { IfOk result (CountsImages (crashing log_arenas arena event seed) input.now (H.images shelf.old) (H.images shelf.new)) }
    ensures kept { OnErr result (H.places shelf.new ≡ H.places shelf.old) }
{
    let trace = match trace_of(alloc, input) {
        Ok(trace) => trace,
        Err(answer) => return answer,
    };
    if arena >= trace.arenas {
        return lacks_arena(alloc, arena, trace.arenas);
    }
    match crash(alloc, &trace, arena, event, seed) {
        Ok(crashed) => Ok(Answer::Output(recovered_report(alloc, &crashed, arena, shelf)?)),
        Err(CrashFault::NoEvent { events }) => lacks_event(alloc, event, events),
        Err(CrashFault::Memory(fault)) => Err(fault),
    }
}

/// The line that says that a trace has so many arenas, and not this one.
pub(crate) fn lacks_arena(alloc: Global, arena: u32, arenas: u32) -> Result<Answer, OutOfMemory>
    ensures { IfOk result (IsFaultLine (Text (NoArena arena arenas))) }
{
    let refusal = Refusal::NoArena {
        arena: u64::from(arena),
        arenas: u64::from(arenas),
    };
    fault_line(alloc, Cause::Text(refusal))
}

/// The line that says that the calls have so many events, and fewer than this.
pub(crate) fn lacks_event(alloc: Global, event: u64, events: u64) -> Result<Answer, OutOfMemory>
    ensures { IfOk result (IsFaultLine (Text (NoEvent event events))) }
{
    fault_line(alloc, Cause::Text(Refusal::NoEvent { event, events }))
}

// Recovers the image that a crash left, and reports its heap.
fn recovered_report<H: Shelf>(
    alloc: Global,
    crashed: &Crashed,
    arena: u32,
    shelf: &mut H,
) -> Result<Vec<u8>, OutOfMemory>
    requires sound { IsSoundImage crashed.now.image.items }
    requires arena { arena < 16 }
    ensures text { IfOk result (λ text. text.items ≡ crash_text crashed.now.call crashed.now.side (blocks_in crashed.now.image.items)) }
    ensures put { IfOk result (λ _. PutsRecovered IsRecoveredDevice crashed.now.image.items arena (H.places shelf.old) (H.places shelf.new)) }
    ensures images { OnOk result (H.images shelf.new ≡ risen (H.images shelf.old) 1) }
    ensures kept { OnErr result (H.places shelf.new ≡ H.places shelf.old) }
{
    let image: &[u64] = &crashed.image;
    let device = shelf.take_image(alloc, image, room_of(image))?;
    let recovered = match recover_heap(alloc, device) {
        Ok(recovered) => recovered,
        Err(RecoverFault::Memory(fault)) => return Err(fault),
        Err(RecoverFault::Defect(_)) => unreachable!(),
    };
    let mut text = Vec::new(alloc);
    write_crash(&mut text, crashed.call, crashed.side, &recovered.blocks)?;
    shelf.put(arena, recovered.device);
    Ok(text)
}

/// How much room a device with the words of a sound image must have: that of its version.
pub(crate) fn room_of(image: &[u64]) -> u32
    requires { IsSoundImage image.now }
    ensures { result ≡ (layout_of (version_in image.now)).room }
{
    match header_of(image) {
        Ok(header) => layout_of(header.version).room,
        Err(_) => unreachable!(),
    }
}
