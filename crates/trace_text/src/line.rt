// One line of a trace.
ghost use Rattle.std.specs.Prelude.{◌≡◌, ◌≢◌, ℕ, ◌<◌, ◌≤◌, ◌^◌, ◌∷◌, ◌++◌, decimal, MatchOption};
ghost use Rattle.pool_layout.specs.Layout.{IsVersion};
ghost use Rattle.heap_model.specs.declared.call.Call.{Call};
ghost use Rattle.trace_text.specs.declared.call.PoolSize.{PoolSize};
ghost use Rattle.trace_text.specs.declared.call.TraceCall.{TraceCall};
ghost use Rattle.trace_text.specs.Words.{call_text};
ghost use Rattle.trace_text.specs.Grammar.{IsAsked, IsCallLine, IsPoolLine};
ghost use Rattle.trace_text.specs.Lines.{IsPoolOf};

use crate::number::{after, read_field, whole_number};
use crate::{PoolSize, TraceCall};
use heap_model::Call;
use pool_layout::{POOL_GRANULES, all_granules, layout_of};

/// The greatest thread number.
const LAST_THREAD: u64 = 63;

/// The greatest root number.
const LAST_ROOT: u64 = 0xFFFF_FFFF;

/// The greatest number of a word in a block.
const LAST_INDEX: u64 = 0xFFFF_FFFF;

/// The most arenas of a pool.
const MOST_ARENAS: u64 = 16;

/// The pool of this version that the words behind its line's first word say; none where they say no pool.
fn read_pool_of(version: u32, words: &[u8]) -> Option<PoolSize>
    requires { IsVersion version }
    ensures { MatchOption result ((pool : PoolSize) → ¬ (IsPoolOf version words.now pool)) (IsPoolOf version words.now) }
{
    let (arenas, rest) = read_field(words, MOST_ARENAS)?;
    let layout = layout_of(version);
    let granules = whole_number(rest, u64::from(layout.most_granules))?;
    if arenas == 0 || granules < u64::from(layout.least_granules) {
        return None;
    }
    let pool = PoolSize {
        version,
        arenas: arenas as u32,
        granules: granules as u32,
    };
    if all_granules(pool.arenas, pool.granules) > POOL_GRANULES {
        return None;
    }
    Some(pool)
}

/// The pool that a line says; none where it says no pool.
pub(crate) fn read_pool_line(line: &[u8]) -> Option<PoolSize>
    ensures { MatchOption result ((pool : PoolSize) → ¬ (IsPoolLine line.now pool)) (λ pool. IsPoolLine line.now pool) }
{
    match after(line, b"pool2 ") {
        Some(words) => read_pool_of(2, words),
        None => read_pool_of(1, after(line, b"pool ")?),
    }
}

/// Two numbers with a space between, of 32 bits and of at most `most`; none where the words are something else.
#[inline(always)]
fn read_two(words: &[u8], most: u64) -> Option<(u32, u64)>
    ensures { MatchOption result ((first second : ℕ) → first < 2 ^ 32 → second ≤ most → words.now ≢ decimal first ++ 32 ∷ decimal second) (λ found. (found.1 ≤ most) × (words.now ≡ decimal found.0 ++ 32 ∷ decimal found.1)) }
{
    let (first, rest) = read_field(words, LAST_ROOT)?;
    let second = whole_number(rest, most)?;
    Some((first as u32, second))
}

/// A root, an index and a word, with a space between; none where the words are something else.
fn read_written(words: &[u8]) -> Option<(u32, u32, u64)>
    ensures { MatchOption result ((root index value : ℕ) → root < 2 ^ 32 → index < 2 ^ 32 → value < 2 ^ 64 → words.now ≢ decimal root ++ 32 ∷ decimal index ++ 32 ∷ decimal value) (λ found. words.now ≡ decimal found.0 ++ 32 ∷ decimal found.1 ++ 32 ∷ decimal found.2) }
{
    let (root, rest) = read_field(words, LAST_ROOT)?;
    let (index, value) = read_two(rest, u64::MAX)?;
    Some((root as u32, index, value))
}

/// A root; none where the words are something else.
fn read_root(words: &[u8]) -> Option<u32>
    ensures { MatchOption result ((root : ℕ) → root < 2 ^ 32 → words.now ≢ decimal root) (λ root. words.now ≡ decimal root) }
{
    let root = whole_number(words, LAST_ROOT)?;
    Some(root as u32)
}

/// What a call line asks behind its thread and arena; none where that is no call of a trace.
fn read_asked(words: &[u8]) -> Option<Call>
    ensures { MatchOption result ((call : Call) → IsAsked call → words.now ≢ call_text call) (λ call. IsAsked call × (words.now ≡ call_text call)) }
{
    if let Some(rest) = after(words, b"m ") {
        let (root, size) = read_two(rest, u64::MAX)?;
        return Some(Call::Malloc { root, size });
    }
    if let Some(rest) = after(words, b"f ") {
        let root = read_root(rest)?;
        return Some(Call::Free { root });
    }
    if let Some(rest) = after(words, b"w ") {
        let (root, index, value) = read_written(rest)?;
        return Some(Call::Write { root, index, value });
    }
    if let Some(rest) = after(words, b"r ") {
        let (root, index) = read_two(rest, LAST_INDEX)?;
        return Some(Call::Read {
            root,
            index: index as u32,
        });
    }
    let (from, to) = read_two(after(words, b"v ")?, LAST_ROOT)?;
    Some(Call::Move {
        from,
        to: to as u32,
    })
}

/// The call that a line makes in a pool of so many arenas, at least one; none where it makes no call.
pub(crate) fn read_call_line(arenas: u32, line: &[u8]) -> Option<TraceCall>
    requires { 1 ≤ arenas }
    ensures { MatchOption result ((call : TraceCall) → ¬ (IsCallLine arenas line.now call)) (λ call. IsCallLine arenas line.now call) }
{
    let (thread, rest) = read_field(line, LAST_THREAD)?;
    let (arena, words) = read_field(rest, u64::from(arenas) - 1)?;
    let call = read_asked(words)?;
    Some(TraceCall {
        thread: thread as u32,
        arena: arena as u32,
        call,
    })
}
