// Arenas of either variant on a simulated device, and one of a trace's pool, made anew.
ghost use Rattle.std.specs.Prelude.{◌≡◌, ◌≤◌, ◌<◌, ◌*◌, IfOk};
ghost use Rattle.pmem_lines.specs.Pmem.{IsZeroed, words_of};
ghost use Rattle.pool_layout.specs.Layout.{layout_of};
ghost use Rattle.trace_text.specs.Grammar.{pool_of, IsPool};
ghost use Rattle.trace_runs.specs.Arenas.{header_for};

use arena_core::Arena;
use arena_journal::answer;
use heap_model::Entry;
use pmem_lines::{OutOfMemory, SimPmem};
use pool_layout::layout_of;
use std::alloc::Global;
use trace_runs::new_arena;
use trace_text::{PoolSize, Trace, TraceCall};

/// The bytes of a granule, in lines.
const GRANULE_LINES: u32 = 256;

/// An arena of one of the variants, on a simulated device.
pub trait SimArena: Drop {
    ghost use Rattle.std.specs.Prelude.{ℕ, List};
    ghost use Rattle.pmem_lines.specs.Pmem.{PmemState};
    ghost use Rattle.pool_layout.specs.declared.header.PoolHeader.{PoolHeader};
    ghost use Rattle.heap_model.specs.declared.call.Call.{Call};
    ghost use Rattle.trace_text.specs.declared.call.PoolSize.{PoolSize};
    ghost use Rattle.trace_text.specs.declared.call.TraceCall.{TraceCall};
    ghost use Rattle.trace_runs.specs.Runs.{Stage};
    ghost use Rattle.trace_crashes.specs.Crash.{Variant};
    ghost use Rattle.trace_crashes.specs.Seek.{IsAnswered};

    /// What the variant says of images.
    ghost variant: { Variant };

    /// The words of an arena of this header as it is formatted.
    ghost formatted: { PoolHeader → List ℕ };

    /// The pools that it may be one of.
    ghost can_format: { PoolSize → Type 0 };

    /// The calls that it may be asked.
    ghost can_answer: { Call → Type 0 };

    /// The device.
    ghost state: { Self → PmemState };

    /// It was formatted with this header, and nothing was asked of it since.
    ghost is_new: { PoolHeader → Self → Type 0 };

    /// A call takes it from one state to another, and makes this stage.
    ghost step: { Self → TraceCall → Stage → Self → Type 0 };

    /// Formats a device of zeros, with the room of the pool's version, as the arena of this number of the pool.
    fn format(
        alloc: Global,
        device: SimPmem,
        pool: PoolSize,
        arena: u32,
    ) -> Result<Self, OutOfMemory>
        requires pool { IsPool pool }
        requires can { can_format pool }
        requires inside { arena < pool.arenas }
        requires zeroed { IsZeroed device (256 * pool.granules) (layout_of pool.version).room }
        ensures fresh { IfOk result (is_new (header_for pool arena)) }
        ensures words { IfOk result (λ made. words_of (state made) ≡ formatted (header_for pool arena)) }
        ensures whole { IfOk result (λ made. variant.IsWhole (words_of (state made))) };

    /// Makes a call by the seat of its thread, below 64, and gives its entry. It takes no memory.
    fn answer(&mut self, call: &TraceCall) -> Entry
        requires seat { call.now.thread < 64 }
        requires can { can_answer call.now.call }
        ensures { (stage : Stage) × step self.old call.now stage self.new × IsAnswered variant (state self.new) call.now result stage };

    /// The device.
    fn device(&self) -> &SimPmem
        ensures { result.now ≡ state self.now };

    /// Gives the device back.
    fn into_device(self) -> SimPmem
        ensures { result ≡ state self };
}

impl SimArena for Arena<SimPmem> {
    ghost use Rattle.std.specs.Prelude.{⊤};
    ghost use Rattle.trace_runs.specs.Arenas.{formatted, IsNewArena};
    ghost use Rattle.trace_crashes.specs.Crash.{log};
    ghost use Rattle.trace_crashes.specs.Steps.{IsStepAt};

    ghost variant = { log };

    ghost formatted = { formatted };

    ghost can_format = { λ _. ⊤ };

    ghost can_answer = { λ _. ⊤ };

    ghost state = { λ a. a.device };

    ghost is_new = { IsNewArena };

    ghost step = { IsStepAt };

    fn format(
        alloc: Global,
        device: SimPmem,
        pool: PoolSize,
        arena: u32,
    ) -> Result<Arena<SimPmem>, OutOfMemory> {
        new_arena(alloc, device, pool, arena)
    }

    fn answer(&mut self, call: &TraceCall) -> Entry {
        answer(self, call.thread, call.call)
    }

    fn device(&self) -> &SimPmem {
        self.pmem()
    }

    fn into_device(self) -> SimPmem {
        self.into_pmem()
    }
}

/// The arena of this number of a trace's pool, over a new simulated device.
pub(crate) fn format_new<A: SimArena>(
    alloc: Global,
    trace: &Trace,
    arena: u32,
) -> Result<A, OutOfMemory>
    requires pool { IsPool (pool_of trace.now) }
    requires can { A.can_format (pool_of trace.now) }
    requires inside { arena < trace.now.arenas }
    ensures fresh { IfOk result (A.is_new (header_for (pool_of trace.now) arena)) }
    ensures words { IfOk result (λ made. words_of (A.state made) ≡ A.formatted (header_for (pool_of trace.now) arena)) }
    ensures whole { IfOk result (λ made. A.variant.IsWhole (words_of (A.state made))) }
{
    let pool = trace.pool();
    let room = layout_of(pool.version).room;
    let device = SimPmem::zeroed(alloc, GRANULE_LINES * pool.granules, room)?;
    A::format(alloc, device, pool, arena)
}
