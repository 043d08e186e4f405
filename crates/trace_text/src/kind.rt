// Which calls a trace may ask for, and what a line of such a trace says.
ghost use Rattle.std.specs.Prelude.{◌≡◌, ◌≤◌, MatchOption};
ghost use Rattle.trace_text.specs.declared.call.PoolSize.{PoolSize};
ghost use Rattle.trace_text.specs.declared.call.TraceCall.{TraceCall};
ghost use Rattle.trace_text.specs.Grammar.{IsPoolLine, IsStill};
ghost use Rattle.trace_text.specs.Lines.{lines_for};

use crate::line::{read_call_line, read_pool_line};
use crate::{PoolSize, TraceCall};
use heap_model::Call;

/// Which traces are read.
#[derive(Clone, Copy)]
pub(crate) enum Kind {
    /// All of them.
    Every,
    /// Those of a pool of version 1 in which no block moves.
    Still,
}

/// The pool that a line says; none where it says no pool of such a trace.
pub(crate) fn read_head(kind: Kind, line: &[u8]) -> Option<PoolSize>
    ensures { MatchOption result ((pool : PoolSize) → ¬ ((lines_for kind).head line.now pool)) (λ pool. (lines_for kind).head line.now pool) }
{
    match kind {
        Kind::Every => read_pool_line(line),
        Kind::Still => read_first_pool_line(line),
    }
}

/// The call that a line makes in a pool, of 1 to 16 arenas; none where it makes no call of such a trace.
#[inline(always)]
pub(crate) fn read_call(kind: Kind, pool: PoolSize, line: &[u8]) -> Option<TraceCall>
    requires some { 1 ≤ pool.arenas }
    requires few { pool.arenas ≤ 16 }
    ensures { MatchOption result ((call : TraceCall) → ¬ ((lines_for kind).call pool line.now call)) (λ call. (lines_for kind).call pool line.now call) }
{
    let call = read_call_line(pool.arenas, line)?;
    match kind {
        Kind::Every => Some(call),
        Kind::Still => as_still(call),
    }
}

/// The pool of version 1 that a line says; none where it says no such pool.
fn read_first_pool_line(line: &[u8]) -> Option<PoolSize>
    ensures { MatchOption result ((pool : PoolSize) → ¬ (IsPoolLine line.now pool × (pool.version ≡ 1))) (λ pool. IsPoolLine line.now pool × (pool.version ≡ 1)) }
{
    match read_pool_line(line) {
        Some(pool) if pool.version == 1 => Some(pool),
        _ => None,
    }
}

/// A call that moves no block; none where it moves one.
fn as_still(call: TraceCall) -> Option<TraceCall>
    ensures { MatchOption result (¬ IsStill call.call) (λ same. (same ≡ call) × IsStill call.call) }
{
    match call.call {
        Call::Move { .. } => None,
        _ => Some(call),
    }
}
