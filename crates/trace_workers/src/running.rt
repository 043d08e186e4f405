// All workers, and what they leave.
ghost use Rattle.std.specs.Prelude.{◌≡◌, ◌<◌, ◌≤◌, ◌^◌, map, length, IfOk};
ghost use Rattle.std.specs.List.{All};
ghost use Rattle.std.specs.Thread.{IsSync};
ghost use Rattle.arena_journal.specs.Journals.{opened};
ghost use Rattle.shared_pool.specs.Rows.{each_of};
ghost use Rattle.trace_runs.specs.Threads.{AllIn, AllBy};
ghost use Rattle.trace_workers.specs.Workers.{AllReady, AllOf, AllDone};
ghost use Rattle.trace_gen.specs.Draws.{IsOwn};
ghost use Rattle.trace_runs.specs.Each.{EachFrom};
ghost use Rattle.trace_workers.specs.Lengths.{AreInOrder, IsCounted};
ghost use Rattle.trace_runs.specs.Answers.{by_threads, AllAnswer};
ghost use Rattle.trace_workers.specs.Summaries.{lengths_of};

use crate::lengths::lengths_of;
use crate::working::work;
use arena_core::Arena;
use pmem_lines::{OutOfMemory, Pmem};
use shared_pool::{ClosedArena, Gate, Pass, SharedPool, Started};
use std::alloc::Global;
use std::sync::Wait;
use std::thread::{Threads, join_mut};
use trace_text::TraceCall;

/// A worker for each pass, in a thread of its own where one can be made. One that meets want of memory ends, and the others
/// go on to their ends.
#[tactic(auto, using(crate::proofs::Calls::of_append, crate::proofs::Calls::done_append, crate::proofs::Calls::numbers_append))]
pub(crate) fn work_all<R: Threads + Wait + Sync, P: Pmem + Drop + Send, G: Gate + Sync>(
    rt: &R,
    pool: &SharedPool<P>,
    passes: &mut [Pass],
    calls: &[TraceCall],
    gate: &G,
) -> Result<(), OutOfMemory>
    requires ready { AllReady pool.now passes.old }
    requires arenas { AllIn (length pool.now.locks) calls.now }
    requires few { length calls.now < 2 ^ 32 }
    ensures of { AllOf pool.now passes.new }
    ensures numbers { map (λ p. p.number) passes.new ≡ map (λ p. p.number) passes.old }
    ensures done { IfOk result (λ _. AllDone calls.now passes.new) }
{
    if passes.is_empty() {
        return Ok(());
    }
    if passes.len() == 1 {
        return work(rt, pool, &mut passes[0], calls, gate);
    }
    let (front, back) = passes.split_at_mut(passes.len() / 2);
    let (first, second) = join_mut(
        rt,
        &mut || -> Result<(), OutOfMemory>
            requires { IsSync R.row × IsSync G.row × AllReady pool.now front.now × AllIn (length pool.now.locks) calls.now × (length calls.now < 2 ^ 32) }
            ensures { AllOf pool.entry.now front.exit.now × (map (λ p. p.number) front.exit.now ≡ map (λ p. p.number) front.entry.now) × IfOk result (λ _. AllDone calls.entry.now front.exit.now) }
        { work_all(rt, pool, front, calls, gate) },
        &mut || -> Result<(), OutOfMemory>
            requires { IsSync R.row × IsSync G.row × AllReady pool.now back.now × AllIn (length pool.now.locks) calls.now × (length calls.now < 2 ^ 32) }
            ensures { AllOf pool.entry.now back.exit.now × (map (λ p. p.number) back.exit.now ≡ map (λ p. p.number) back.entry.now) × IfOk result (λ _. AllDone calls.entry.now back.exit.now) }
        { work_all(rt, pool, back, calls, gate) },
    );
    first?;
    second
}

/// Arenas with their journals behind the calls of a trace, and the length of each journal, as the pool published it once all
/// workers had ended.
#[derive(Drop)]
pub struct Ended<P: Pmem + Drop> {
    pub lengths: Vec<u64>,
    pub closed: Vec<ClosedArena<P>>,
}

// All workers, and once they have ended the published length of the journal of each arena, of which there are so many.
fn work_counted<R: Threads + Wait + Sync, P: Pmem + Drop + Send, G: Gate + Sync>(
    rt: &R,
    alloc: Global,
    pool: &SharedPool<P>,
    passes: &mut [Pass],
    calls: &[TraceCall],
    arenas: u32,
    gate: &G,
) -> Result<Vec<u64>, OutOfMemory>
    requires ready { AllReady pool.now passes.old }
    requires order { AreInOrder 0 passes.old }
    requires some { 0 < length passes.old }
    requires arenas { arenas ≤ length pool.now.locks }
    requires calls { AllIn (length pool.now.locks) calls.now }
    requires few { length calls.now < 2 ^ 32 }
    ensures of { AllOf pool.now passes.new }
    ensures numbers { map (λ p. p.number) passes.new ≡ map (λ p. p.number) passes.old }
    ensures done { IfOk result (λ _. AllDone calls.now passes.new) }
    ensures counted { IfOk result (λ counts. EachFrom (IsCounted passes.new) 0 counts.items) }
    ensures all { IfOk result (λ counts. length counts.items ≡ arenas) }
{
    match work_all(rt, pool, passes, calls, gate) {
        Ok(()) => lengths_of(alloc, pool, passes, arenas),
        Err(fault) => Err(fault),
    }
}

/// Carries out the calls of a trace, each thread's by a worker of its own, and gives each arena with its journal. The
/// threads of the calls are below `seats`, from 1 to 64, and their arenas below the number of arenas. The lengths of the
/// journals are asked of the pool before it is closed; where each arena has one thread, they are those of the journals.
pub fn run_trace<R: Threads + Wait + Sync, P: Pmem + Drop + Send, G: Gate + Sync>(
    rt: &R,
    alloc: Global,
    arenas: Vec<Arena<P>>,
    seats: u32,
    calls: &[TraceCall],
    gate: &G,
) -> Result<Ended<P>, OutOfMemory>
    requires seats { (1 ≤ seats) × (seats ≤ 64) }
    requires threads { AllBy seats calls.now }
    requires arenas { AllIn (length arenas.items) calls.now }
    requires few { length calls.now < 2 ^ 32 }
    requires many { length arenas.items < 2 ^ 32 }
    ensures answers { IfOk result (λ e. AllAnswer by_threads calls.now 0 (each_of arenas.items (λ a. opened a)) (each_of e.closed.items (λ c. (c.journal.items, c.arena)))) }
    ensures lengths { IfOk result (λ e. All IsOwn calls.now → e.lengths.items ≡ lengths_of (each_of e.closed.items (λ c. (c.journal.items, c.arena)))) }
{
    let many = arenas.len() as u32;
    let Started { pool, mut passes } = match SharedPool::start(alloc, arenas, seats) {
        Ok(started) => started,
        Err((error, _arenas)) => return Err(error),
    };
    let lengths = match work_counted(rt, alloc, &pool, passes.as_mut_slice(), calls, many, gate) {
        Ok(lengths) => lengths,
        Err(error) => {
            drop(pool);
            return Err(error);
        }
    };
    match pool.close(alloc, passes) {
        Ok(closed) => Ok(Ended { lengths, closed }),
        Err((error, pool, _passes)) => {
            drop(pool);
            Err(error)
        }
    }
}
