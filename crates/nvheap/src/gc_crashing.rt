// What `gc-crash` has to say of its input, and the device that it leaves.
ghost use Rattle.std.specs.Prelude.{◌≡◌, ◌<◌, ◌≤◌, IfOk, OnOk, OnErr};
ghost use Rattle.pmem_lines.specs.Pmem.{words_of, risen};
ghost use Rattle.gc_check.specs.Image.{IsGcSoundImage};
ghost use Rattle.gc_recover.specs.Recovered.{IsGcRecoveredDevice};
ghost use Rattle.gc_runs.specs.Told.{gc_blocks_in};
ghost use Rattle.trace_text.specs.Report.{crash_text};
ghost use Rattle.nvheap.specs.Crashing.{PutsRecovered, gc_arenas, crashing};
ghost use Rattle.nvheap.specs.Ends.{IsAnswer, CountsImages};

use crate::answers::still_trace_of;
use crate::crashing::{lacks_arena, lacks_event};
use crate::shelf::Shelf;
use gc_crashes::gc_crash;
use gc_heap::GcArena;
use gc_recover::gc_recover;
use gc_runs::gc_blocks_of;
use gc_search::GcFault;
use pmem_lines::{OutOfMemory, Pmem};
use pool_layout::layout_of;
use program_io::Answer;
use std::alloc::Global;
use trace_crashes::{CrashFault, Crashed};
use trace_text::write_crash;

/// The report of what a crash leaves after an event of the calls of an arena of a trace without moves. The image is recovered on a
/// device of the shelf, which is put into the place of the arena's number; its heap is reported.
pub(crate) fn gc_crash_answer<H: Shelf>(
    alloc: Global,
    input: &[u8],
    arena: u32,
    event: u64,
    seed: u64,
    shelf: &mut H,
) -> Result<Answer, OutOfMemory>
    ensures answer { IfOk result (IsAnswer (crashing gc_arenas arena event seed) input.now (H.places shelf.old) (H.places shelf.new)) }
    ensures counts { IfOk result (CountsImages (crashing gc_arenas arena event seed) input.now (H.images shelf.old) (H.images shelf.new)) }
    ensures kept { OnErr result (H.places shelf.new ≡ H.places shelf.old) }
{
    let trace = match still_trace_of(alloc, input) {
        Ok(trace) => trace,
        Err(answer) => return answer,
    };
    if arena >= trace.arenas {
        return lacks_arena(alloc, arena, trace.arenas);
    }
    let room = layout_of(trace.version).room;
    match gc_crash(alloc, &trace, arena, event, seed) {
        Ok(crashed) => Ok(Answer::Output(recovered_report(alloc, &crashed, arena, room, shelf)?)),
        Err(CrashFault::NoEvent { events }) => lacks_event(alloc, event, events),
        Err(CrashFault::Memory(fault)) => Err(fault),
    }
}

// Recovers the image that a crash left, on a device with this room, and reports its heap.
fn recovered_report<H: Shelf>(
    alloc: Global,
    crashed: &Crashed,
    arena: u32,
    room: u32,
    shelf: &mut H,
) -> Result<Vec<u8>, OutOfMemory>
    requires sound { IsGcSoundImage crashed.now.image.items }
    requires arena { arena < 16 }
    requires room { 2048 ≤ room }
    ensures text { IfOk result (λ text. text.items ≡ crash_text crashed.now.call crashed.now.side (gc_blocks_in crashed.now.image.items)) }
    ensures put { IfOk result (λ _. PutsRecovered IsGcRecoveredDevice crashed.now.image.items arena (H.places shelf.old) (H.places shelf.new)) }
    ensures images { OnOk result (H.images shelf.new ≡ risen (H.images shelf.old) 1) }
    ensures kept { OnErr result (H.places shelf.new ≡ H.places shelf.old) }
{
    let image: &[u64] = &crashed.image;
    let device = shelf.take_image(alloc, image, room)?;
    let recovered = match gc_recover(alloc, device) {
        Ok(recovered) => recovered,
        Err((GcFault::Memory(fault), _)) => return Err(fault),
        Err((GcFault::Defect(_), _)) => unreachable!(),
    };
    let text = match heap_text(alloc, crashed, &recovered) {
        Ok(text) => text,
        Err(fault) => {
            drop(recovered);
            return Err(fault);
        }
    };
    shelf.put(arena, recovered.into_pmem());
    Ok(text)
}

// The report of the heap of an arena that was recovered from what a crash left.
fn heap_text<P: Pmem>(
    alloc: Global,
    crashed: &Crashed,
    arena: &GcArena<P>,
) -> Result<Vec<u8>, OutOfMemory>
    ensures { IfOk result (λ text. text.items ≡ crash_text crashed.now.call crashed.now.side (gc_blocks_in (words_of arena.now.device))) }
{
    let blocks = gc_blocks_of(alloc, arena)?;
    let mut text = Vec::new(alloc);
    write_crash(&mut text, crashed.call, crashed.side, &blocks)?;
    Ok(text)
}
