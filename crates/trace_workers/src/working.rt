// One worker.
ghost use Rattle.std.specs.Prelude.{◌≡◌, ◌<◌, ◌^◌, length, IfOk};
ghost use Rattle.shared_pool.specs.Passes.{IsPassOf};
ghost use Rattle.trace_runs.specs.Threads.{AllIn};
ghost use Rattle.trace_workers.specs.Workers.{IsFresh, HasMadeOwn};

use pmem_lines::{OutOfMemory, Pmem};
use shared_pool::{Gate, Pass, SharedPool};
use std::sync::Wait;
use trace_text::TraceCall;

/// Makes the calls of the pass's thread, in order. It ends at the first want of memory.
pub(crate) fn work<R: Wait, P: Pmem + Drop, G: Gate>(
    rt: &R,
    pool: &SharedPool<P>,
    pass: &mut Pass,
    calls: &[TraceCall],
    gate: &G,
) -> Result<(), OutOfMemory>
    requires pass { IsPassOf pool.now pass.old }
    requires fresh { IsFresh pass.old }
    requires arenas { AllIn (length pool.now.locks) calls.now }
    requires few { length calls.now < 2 ^ 32 }
    ensures pass { IsPassOf pool.now pass.new }
    ensures number { pass.new.number ≡ pass.old.number }
    ensures done { IfOk result (λ _. HasMadeOwn calls.now pass.new) }
{
    let number = pass.number();
    let mut made = 0;
    for k in 0..calls.len() {
        let call = calls[k];
        if call.thread == number {
            made += 1;
            gate.before(rt, number, made);
            pool.call(rt, pass, call.arena, call.call)?;
            gate.after(rt, number, made, Some(&*pass));
        }
    }
    Ok(())
}
