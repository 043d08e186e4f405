// What is told of a trace.
ghost use Rattle.std.specs.Prelude.{◌≡◌, ◌<◌, ◌*◌, ◌^◌, IfOk, length};
ghost use Rattle.pmem_lines.specs.Pmem.{IsZeroed};
ghost use Rattle.pool_layout.specs.Layout.{layout_of};
ghost use Rattle.trace_text.specs.Grammar.{IsPool};

use crate::traces::{FIRST_BLOCK, MORPH, trace_of};
use gc_runs::run_gc_calls;
use pmem_lines::{OutOfMemory, SimPmem};
use pool_layout::layout_of;
use std::alloc::Global;
use std::test::Fail;
use trace_text::PoolSize;

// A new device for an arena of a pool of version 1.
fn device_for(alloc: Global, pool: PoolSize) -> Result<SimPmem, OutOfMemory>
    requires pool { IsPool pool }
    requires first { pool.version ≡ 1 }
    ensures { IfOk result (λ device. IsZeroed device (256 * pool.granules) (layout_of pool.version).room) }
{
    let room = layout_of(pool.version).room;
    SimPmem::zeroed(alloc, 256 * pool.granules, room)
}

// The report of the trace of one arena.
fn report_of(alloc: Global, text: &[u8]) -> Result<Vec<u8>, Fail>
    requires { length text.now < 2 ^ 32 }
{
    let trace = trace_of(alloc, text)?;
    let mut told = Vec::new(alloc);
    let device = device_for(alloc, trace.pool())?;
    if trace.arenas > 0 {
        let _device = run_gc_calls(alloc, &trace, 0, device, &mut told)?;
    }
    Ok(told)
}

#[test]
fn a_first_block(rt: HostRuntime) -> Result<(), Fail> {
    let told = report_of(rt.alloc(), FIRST_BLOCK)?;
    let wanted: &[u8] = b"arena 0 calls 1\n0 m 5 100 placed 67584 112\nheap 1\n5 67584 112\n";
    assert!(rt; told.as_slice() == wanted);
    Ok(())
}

#[test]
fn a_slab_that_takes_another_class(rt: HostRuntime) -> Result<(), Fail> {
    let told = report_of(rt.alloc(), MORPH)?;
    let wanted: &[u8] =
        b"arena 0 calls 3\n0 m 0 131072 placed 65536 131072\n0 m 1 64 placed 198656 64\n0 m 2 112 placed 198768 112\nheap 3\n0 65536 131072\n1 198656 64\n2 198768 112\n";
    assert!(rt; told.as_slice() == wanted);
    Ok(())
}
