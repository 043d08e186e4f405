// An arena of this variant as one on a simulated device.
use gc_heap::GcArena;
use gc_runs::{answer, new_gc_arena};
use heap_model::Entry;
use pmem_lines::{OutOfMemory, SimPmem};
use std::alloc::Global;
use trace_crashes::SimArena;
use trace_text::{PoolSize, TraceCall};

/// An arena of this variant on a simulated device. Its pool is of version 1, and no call moves a block.
#[derive(Drop)]
pub(crate) struct GcSimArena(GcArena<SimPmem>);

impl SimArena for GcSimArena {
    ghost use Rattle.std.specs.Prelude.{◌≡◌};
    ghost use Rattle.trace_text.specs.Grammar.{IsStill};
    ghost use Rattle.gc_runs.specs.Arenas.{gc_formatted, IsNewGcArena};
    ghost use Rattle.gc_crashes.specs.Crash.{gc, IsGcStepAt};

    ghost variant = { gc };

    ghost formatted = { gc_formatted };

    ghost can_format = { λ pool. pool.version ≡ 1 };

    ghost can_answer = { IsStill };

    ghost state = { λ a. a.0.device };

    ghost is_new = { λ header a. IsNewGcArena header a.0 };

    ghost step = { λ old call stage new. IsGcStepAt old.0 call stage new.0 };

    fn format(
        alloc: Global,
        device: SimPmem,
        pool: PoolSize,
        arena: u32,
    ) -> Result<GcSimArena, OutOfMemory> {
        Ok(GcSimArena(new_gc_arena(alloc, device, pool, arena)?))
    }

    fn answer(&mut self, call: &TraceCall) -> Entry {
        answer(&mut self.0, call.thread, call.call)
    }

    fn device(&self) -> &SimPmem {
        self.0.pmem()
    }

    fn into_device(self) -> SimPmem {
        self.0.into_pmem()
    }
}
