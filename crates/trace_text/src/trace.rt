// Traces, read from their text.
ghost use Rattle.std.specs.Prelude.{◌≡◌, ◌+◌, ◌<◌, ◌≤◌, ◌^◌, ◌∷◌, length, IfOk, IfErr, MatchResult};
ghost use Rattle.std.specs.List.{All};
ghost use Rattle.trace_text.specs.Texts.{lines_of, AreCalls, IsText, IsFirstOutside, IfBadLine};
ghost use Rattle.trace_text.specs.Grammar.{pool_of, IsPool, IsTraceCall, IsTrace, IsRefusedLine, IsStill, IsStillTrace, IsRefusedStillLine};
ghost use Rattle.trace_text.specs.Lines.{lines_for, IsBehindHead, IsRefusedCall};

use crate::kind::{Kind, read_call, read_head};
use crate::text::{TextFault, is_passed_over, next_line};
use crate::{PoolSize, TraceCall};
use pmem_lines::OutOfMemory;
use std::alloc::Global;

/// What a trace says: the pool's version, how many arenas it has, how many granules each arena has, and the calls in order.
#[derive(Debug, Drop)]
pub struct Trace {
    pub version: u32,
    pub arenas: u32,
    pub granules: u32,
    pub calls: Vec<TraceCall>,
}

impl Trace {
    /// The pool that its calls are made on.
    pub fn pool(&self) -> PoolSize
        ensures { result ≡ pool_of self.now }
    {
        PoolSize {
            version: self.version,
            arenas: self.arenas,
            granules: self.granules,
        }
    }
}

/// What stands behind the pool's line: the pool that it says, the number of lines up to it, and the rest.
#[derive(Clone, Copy)]
struct BehindPool<'a> {
    pool: PoolSize,
    many: u64,
    rest: &'a [u8],
}

/// The pool that a text begins with, behind lines that are passed over; the number of the line that says none where
/// it doesn't.
fn read_pool(kind: Kind, text: &[u8]) -> Result<BehindPool<'_>, u64>
    ensures { MatchResult result (λ behind. IsBehindHead (lines_for kind) text.now behind.rest.now behind.pool behind.many) (IsFirstOutside (lines_for kind) text.now) }
{
    let mut rest = text;
    let mut many: u64 = 0;
    while !rest.is_empty() {
        let (line, after) = next_line(rest);
        if !is_passed_over(line) {
            return match read_head(kind, line) {
                Some(pool) => Ok(BehindPool {
                    pool,
                    many: many + 1,
                    rest: after,
                }),
                None => Err(many + 1),
            };
        }
        rest = after;
        many += 1;
    }
    Err(many + 1)
}

/// The calls of a pool, of 1 to 16 arenas, that a text makes, of which as many lines stand before it.
fn read_calls(
    alloc: Global,
    kind: Kind,
    pool: PoolSize,
    text: &[u8],
    before: u64,
) -> Result<Vec<TraceCall>, TextFault>
    requires some { 1 ≤ pool.arenas }
    requires few_arenas { pool.arenas ≤ 16 }
    requires short { before + length text.now < 2 ^ 64 }
    ensures calls { IfOk result (λ calls. AreCalls (lines_for kind) pool (lines_of text.now) calls.items) }
    ensures few { IfOk result (λ calls. length calls.items ≤ length text.now) }
    ensures refused { IfErr result (λ fault. IfBadLine fault (IsRefusedCall (lines_for kind) pool text.now before)) }
{
    let mut calls = Vec::new(alloc);
    let mut rest = text;
    let mut many: u64 = 0;
    while !rest.is_empty() {
        let (line, after) = next_line(rest);
        rest = after;
        many += 1;
        if !is_passed_over(line) {
            match read_call(kind, pool, line) {
                Some(call) => {
                    if calls.push(call).is_err() {
                        return Err(TextFault::Memory(OutOfMemory));
                    }
                }
                None => {
                    return Err(TextFault::BadLine {
                        line: before + many,
                    });
                }
            }
        }
    }
    Ok(calls)
}

/// What a text of this kind says.
fn read_kind(alloc: Global, kind: Kind, bytes: &[u8]) -> Result<Trace, TextFault>
    ensures text { IfOk result (λ trace. IsText (lines_for kind) bytes.now (pool_of trace) trace.calls.items) }
    ensures pool { IfOk result (λ trace. IsPool (pool_of trace)) }
    ensures each { IfOk result (λ trace. All (IsTraceCall trace.arenas) trace.calls.items) }
    ensures few { IfOk result (λ trace. length trace.calls.items ≤ length bytes.now) }
    ensures refused { IfErr result (λ fault. IfBadLine fault (IsFirstOutside (lines_for kind) bytes.now)) }
{
    match read_pool(kind, bytes) {
        Err(line) => Err(TextFault::BadLine { line }),
        Ok(behind) => {
            let calls = read_calls(alloc, kind, behind.pool, behind.rest, behind.many)?;
            Ok(Trace {
                version: behind.pool.version,
                arenas: behind.pool.arenas,
                granules: behind.pool.granules,
                calls,
            })
        }
    }
}

/// Reads the text of a trace: lines, each ended by a line feed that the last one may lack, of which those that are empty
/// or begin with `#` are passed over. The first of the others is `pool A G` or `pool2 A G`: a pool of version 1 or of version
/// 2 that has A arenas, from 1 to 16, of G granules, as many as the version allows, and no more together than a pool may
/// have. Each after it is a call of thread T, from 0 to 63, in arena B, below A: `T B m R S` asks
/// for a block of S bytes for root R, `T B f R` to free the block of root R, `T B w R I X` to write X to word I of that
/// block, `T B r R I` to read that word, and `T B v R Q` to move the block of root R to root Q. S and X are numbers of 64
/// bits, the roots and I of 32. A text that is no trace is refused with the number of its first line outside this grammar,
/// or, where it ends with no pool, with the number behind its last line.
pub fn read_trace(alloc: Global, bytes: &[u8]) -> Result<Trace, TextFault>
    ensures trace { IfOk result (λ trace. IsTrace bytes.now (pool_of trace) trace.calls.items) }
    ensures pool { IfOk result (λ trace. IsPool (pool_of trace)) }
    ensures each { IfOk result (λ trace. All (IsTraceCall trace.arenas) trace.calls.items) }
    ensures few { IfOk result (λ trace. length trace.calls.items ≤ length bytes.now) }
    ensures refused { IfErr result (λ fault. IfBadLine fault (IsRefusedLine bytes.now)) }
{
    read_kind(alloc, Kind::Every, bytes)
}

/// Reads the text of a trace without moves, as `read_trace` does, but that the pool is `pool A G`, of version 1, and no line is
/// `T B v R Q`: other lines are outside this grammar.
pub fn read_still_trace(alloc: Global, bytes: &[u8]) -> Result<Trace, TextFault>
    ensures trace { IfOk result (λ trace. IsStillTrace bytes.now (pool_of trace) trace.calls.items) }
    ensures pool { IfOk result (λ trace. IsPool (pool_of trace)) }
    ensures version { IfOk result (λ trace. trace.version ≡ 1) }
    ensures each { IfOk result (λ trace. All (IsTraceCall trace.arenas) trace.calls.items) }
    ensures still { IfOk result (λ trace. All (λ call. IsStill call.call) trace.calls.items) }
    ensures few { IfOk result (λ trace. length trace.calls.items ≤ length bytes.now) }
    ensures refused { IfErr result (λ fault. IfBadLine fault (IsRefusedStillLine bytes.now)) }
{
    read_kind(alloc, Kind::Still, bytes)
}
