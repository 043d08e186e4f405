// The calls that a generator draws.
ghost use Rattle.std.specs.Prelude.{◌≡◌, ◌<◌, ◌^◌, length, IfOk};
ghost use Rattle.std.specs.List.{All};
ghost use Rattle.heap_model.specs.declared.call.Call.{Call};
ghost use Rattle.trace_text.specs.Grammar.{IsPool, IsTraceCall};
ghost use Rattle.pmem_lines.specs.Picks.{drawn};
ghost use Rattle.trace_gen.specs.Draws.{the_pool, size_in, asked_by, call_of, IsOwn, generated};

use heap_model::Call;
use pmem_lines::OutOfMemory;
use rand_core::SeedableRng;
use rand_core::utils::NextWord;
use rand_xoshiro::SplitMix64;
use std::alloc::Global;
use trace_text::{PoolSize, TraceCall};

/// The pool of generated work: 4 arenas of version 1, of 256 granules each.
pub fn generated_pool() -> PoolSize
    ensures pool { result ≡ the_pool }
    ensures valid { IsPool result }
{
    PoolSize {
        version: 1,
        arenas: 4,
        granules: 256,
    }
}

// How many bytes a word asks for: of 64 draws 60 are of a small block, and 4 of a large one.
fn size_in(word: u64) -> u64
    ensures size { result ≡ size_in word }
    ensures few { result < 2 ^ 17 }
{
    if word / 8192 % 64 < 60 {
        1 + word / 524_288 % 2048
    } else {
        16385 + word / 524_288 % 49152
    }
}

// What a word asks of an arena.
fn asked_by(word: u64) -> Call
    ensures { result ≡ asked_by word }
{
    let root = (word % 1024) as u32;
    match word / 1024 % 8 {
        0..=3 => Call::Malloc {
            root,
            size: size_in(word),
        },
        4 | 5 => Call::Free { root },
        6 => Call::Write {
            root,
            index: 0,
            value: word,
        },
        _ => Call::Read { root, index: 0 },
    }
}

// The call of this number, of a word.
fn call_of(number: u32, word: u64) -> TraceCall
    ensures call { result ≡ call_of number word }
    ensures valid { IsTraceCall 4 result }
    ensures own { IsOwn result }
{
    TraceCall {
        thread: number % 4,
        arena: number % 4,
        call: asked_by(word),
    }
}

// The generator's next word.
#[tactic(auto, unfolding(pmem_lines::specs::Picks::drawn))]
fn draw(generator: &mut SplitMix64) -> u64
    ensures word { result ≡ (drawn generator.old).0 }
    ensures state { generator.new ≡ (drawn generator.old).1 }
{
    generator.next_word()
}

/// So many calls of generated work, each of one word that the generator draws from a seed. They are calls of the pool of
/// generated work, and each arena has one thread, that of its number. It takes the memory of the list once.
pub fn generate(alloc: Global, count: u32, seed: u64) -> Result<Vec<TraceCall>, OutOfMemory>
    ensures calls { IfOk result (λ calls. calls.items ≡ generated count seed) }
    ensures each { IfOk result (λ calls. All (IsTraceCall 4) calls.items) }
    ensures own { IfOk result (λ calls. All IsOwn calls.items) }
    ensures many { IfOk result (λ calls. length calls.items ≡ count) }
{
    let mut generator = SplitMix64::seed_from_u64(seed);
    let mut calls = Vec::with_capacity(alloc, count as usize)?;
    for number in 0..count {
        calls.push(call_of(number, draw(&mut generator)))?;
    }
    Ok(calls)
}
