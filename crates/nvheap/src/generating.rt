// What `gen` has to say, and the devices that it leaves.
ghost use Rattle.std.specs.Prelude.{◌≡◌, [], IfOk, OnErr};
ghost use Rattle.nvheap.specs.Generating.{generating};
ghost use Rattle.nvheap.specs.Ends.{IsAnswer};

use crate::reporting::take_arenas;
use crate::shelf::{Shelf, put_all};
use pmem_lines::OutOfMemory;
use program_io::Answer;
use shared_pool::Gate;
use std::alloc::Global;
use std::sync::Wait;
use std::thread::Threads;
use trace_gen::{generate, generated_pool};
use trace_text::Trace;
use trace_workers::{Account, replay};

/// What so many generated calls come to, which are made by a worker for each arena. Each arena's device comes from the shelf,
/// and is put into the place of the arena's number once all calls are made.
pub(crate) fn gen_answer<R: Threads + Wait + Sync, G: Gate + Sync, H: Shelf>(
    rt: &R,
    alloc: Global,
    count: u32,
    seed: u64,
    gate: &G,
    shelf: &mut H,
) -> Result<Answer, OutOfMemory>
    ensures answer { IfOk result (IsAnswer (generating count seed) [] (H.places shelf.old) (H.places shelf.new)) }
    ensures kept { OnErr result (H.places shelf.new ≡ H.places shelf.old) }
    ensures images { H.images shelf.new ≡ H.images shelf.old }
{
    let pool = generated_pool();
    let trace = Trace {
        version: pool.version,
        arenas: pool.arenas,
        granules: pool.granules,
        calls: generate(alloc, count, seed)?,
    };
    let arenas = take_arenas(alloc, &trace, shelf)?;
    let done = replay(rt, alloc, Account::Summary, trace, arenas, gate)?;
    put_all(shelf, done.devices);
    Ok(Answer::Output(done.text))
}
