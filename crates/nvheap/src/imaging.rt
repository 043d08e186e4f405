// What `image` has to say of its input, and the devices that it leaves.
ghost use Rattle.std.specs.Prelude.{◌≡◌, ◌<◌, ◌^◌, ◌++◌, length, IfOk, OnErr};
ghost use Rattle.std.specs.List.{All};
ghost use Rattle.pmem_lines.specs.Pmem.{words_of};
ghost use Rattle.pool_layout.specs.Bytes.{bytes_of_words};
ghost use Rattle.shared_pool.specs.Rows.{each_of};
ghost use Rattle.trace_text.specs.Grammar.{pool_of, IsPool, IsTraceCall};
ghost use Rattle.trace_runs.specs.Arenas.{header_for};
ghost use Rattle.trace_runs.specs.Calls.{calls_of, IsArenaOf};
ghost use Rattle.trace_runs.specs.Journals.{IsRunThrough};
ghost use Rattle.nvheap.specs.Imaging.{AreRunThrough, images_of, imaging};
ghost use Rattle.nvheap.specs.Ends.{IsAnswer};

use crate::answers::trace_of;
use crate::shelf::{Shelf, put_all};
use image_runs::{add_bytes, new_piece};
use pmem_lines::{OutOfMemory, Pmem};
use pool_layout::{GRANULE_BYTES, layout_of};
use program_io::Answer;
use std::alloc::Global;
use trace_runs::run_calls;
use trace_text::Trace;

const GRANULE_LINES: u32 = 256;

// The devices that the calls of a trace leave, by arena, and the bytes of their words.
#[derive(Drop)]
struct Images<D: Pmem + Drop> {
    bytes: Vec<u8>,
    devices: Vec<D>,
}

/// The image that the calls of a trace leave, arena by arena. Each arena's device comes from the shelf, and is put into the
/// place of the arena's number once all calls are made.
pub(crate) fn image_answer<H: Shelf>(
    alloc: Global,
    input: &[u8],
    shelf: &mut H,
) -> Result<Answer, OutOfMemory>
    requires { length input.now < 2 ^ 32 }
    ensures answer { IfOk result (IsAnswer imaging input.now (H.places shelf.old) (H.places shelf.new)) }
    ensures kept { OnErr result (H.places shelf.new ≡ H.places shelf.old) }
    ensures images { H.images shelf.new ≡ H.images shelf.old }
{
    let trace = match trace_of(alloc, input) {
        Ok(trace) => trace,
        Err(answer) => return answer,
    };
    let Images { bytes, devices } = run_arenas(alloc, &trace, shelf)?;
    put_all(shelf, devices);
    Ok(Answer::Output(bytes))
}

// Makes the calls of a trace on each of its arenas in turn, over devices of the shelf.
fn run_arenas<H: Shelf>(
    alloc: Global,
    trace: &Trace,
    shelf: &mut H,
) -> Result<Images<H::Device>, OutOfMemory>
    requires pool { IsPool (pool_of trace.now) }
    requires each { All (IsTraceCall trace.now.arenas) trace.now.calls.items }
    requires few { length trace.now.calls.items < 2 ^ 32 }
    ensures all { IfOk result (λ left. length left.devices.items ≡ trace.now.arenas) }
    ensures runs { IfOk result (λ left. AreRunThrough (pool_of trace.now) trace.now.calls.items 0 (each_of left.devices.items (λ d. H.Device.state d))) }
    ensures bytes { IfOk result (λ left. left.bytes.items ≡ images_of (each_of left.devices.items (λ d. H.Device.state d))) }
    ensures places { H.places shelf.new ≡ H.places shelf.old }
    ensures images { H.images shelf.new ≡ H.images shelf.old }
{
    let mut bytes = Vec::with_capacity(alloc, size_of(trace))?;
    let mut piece = new_piece(alloc)?;
    let mut devices = Vec::new(alloc);
    for arena in 0..trace.arenas {
        let device = run_arena(alloc, trace, arena, shelf, &mut bytes, &mut piece)?;
        devices.push(device)?;
    }
    Ok(Images { bytes, devices })
}

// Makes the calls of a trace on the arena of this number, over a device of the shelf, and adds the bytes of its words to others.
fn run_arena<H: Shelf>(
    alloc: Global,
    trace: &Trace,
    arena: u32,
    shelf: &mut H,
    bytes: &mut Vec<u8>,
    piece: &mut [u8],
) -> Result<H::Device, OutOfMemory>
    requires arena { IsArenaOf (pool_of trace.now) trace.now.calls.items arena }
    requires few { length trace.now.calls.items < 2 ^ 32 }
    requires piece { length piece.old ≡ 4096 }
    ensures run { IfOk result (λ left. IsRunThrough (header_for (pool_of trace.now) arena) (calls_of arena trace.now.calls.items) (H.Device.state left)) }
    ensures bytes { IfOk result (λ left. bytes.new.items ≡ bytes.old.items ++ bytes_of_words (words_of (H.Device.state left))) }
    ensures piece { length piece.new ≡ 4096 }
    ensures places { H.places shelf.new ≡ H.places shelf.old }
    ensures images { H.images shelf.new ≡ H.images shelf.old }
{
    let room = layout_of(trace.version).room;
    let device = shelf.take(alloc, GRANULE_LINES * trace.granules, room)?;
    let left = run_calls(alloc, trace, arena, device)?;
    add_bytes(bytes, left.words(0, left.size_words()), piece)?;
    Ok(left)
}

// How many bytes the image of a trace's pool has.
fn size_of(trace: &Trace) -> usize
    requires { IsPool (pool_of trace.now) }
{
    GRANULE_BYTES as usize * trace.granules as usize * trace.arenas as usize
}
