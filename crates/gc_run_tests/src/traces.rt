// The traces of the rows.
ghost use Rattle.std.specs.Prelude.{◌≡◌, ◌<◌, ◌^◌, IfOk, length};
ghost use Rattle.trace_text.specs.Grammar.{pool_of, IsPool};
ghost use Rattle.gc_runs.specs.Told.{AreStillCalls};

use std::alloc::Global;
use std::test::Fail;
use trace_text::{Trace, read_still_trace};

/// A first small block: a slab is made, and root 5 gets a block of 112 bytes.
pub(crate) const FIRST_BLOCK: &[u8] = b"pool 1 16\n0 0 m 5 100\n";

/// Eight granules, a block of 64 bytes in the only slab that then fits, and one of 112 bytes, for which the slab takes the class.
pub(crate) const MORPH: &[u8] = b"pool 1 16\n0 0 m 0 131072\n0 0 m 1 64\n0 0 m 2 112\n";

/// The trace of a text.
pub(crate) fn trace_of(alloc: Global, text: &[u8]) -> Result<Trace, Fail>
    requires { length text.now < 2 ^ 32 }
    ensures pool { IfOk result (λ trace. IsPool (pool_of trace)) }
    ensures first { IfOk result (λ trace. trace.version ≡ 1) }
    ensures calls { IfOk result (λ trace. AreStillCalls (pool_of trace) trace.calls.items) }
    ensures few { IfOk result (λ trace. length trace.calls.items < 2 ^ 32) }
{
    match read_still_trace(alloc, text) {
        Ok(trace) => Ok(trace),
        Err(_) => Err(Fail::from("no trace")),
    }
}
