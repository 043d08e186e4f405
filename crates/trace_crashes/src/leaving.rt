// What a crash leaves within a call, and what is left with no call under way.
ghost use Rattle.std.specs.Prelude.{◌≡◌, ◌≢◌, ◌↔◌, ◌<◌, ◌≤◌, ◌^◌, IsTrue, IfOk, length, take};
ghost use Rattle.pmem_lines.specs.Words.{word_at};
ghost use Rattle.pmem_lines.specs.Events.{IsImage};
ghost use Rattle.pool_layout.specs.Places.{root_word};
ghost use Rattle.heap_model.specs.Step.{root_of};
ghost use Rattle.trace_text.specs.declared.call.CrashSide.{CrashSide};
ghost use Rattle.trace_text.specs.Grammar.{pool_of, IsPool};
ghost use Rattle.trace_runs.specs.Arenas.{header_for};
ghost use Rattle.trace_crashes.specs.Sides.{side_of, side_by};
ghost use Rattle.trace_crashes.specs.Crash.{crash_image, left_of, IsLeftWithin, IsLeftIdle};
ghost use Rattle.trace_crashes.specs.Seek.{last_stage, IsBehindEntry};

use crate::arenas::{SimArena, format_new};
use heap_model::{Call, Entry, Reply};
use pmem_lines::{OutOfMemory, Pmem, SimPmem};
use pool_layout::root_at;
use rand_core::SeedableRng;
use rand_xoshiro::SplitMix64;
use std::alloc::Global;
use trace_text::{CrashSide, Trace};

/// What a crash left: the number of the call under way, counted from 1, on which side of that call the heap stands, and
/// the image. With no call under way the number is 0 and the image is the formatted one.
#[derive(Drop)]
pub struct Crashed {
    pub call: u64,
    pub side: CrashSide,
    pub image: Vec<u64>,
}

/// What a crash leaves after the first events of the call that a device went through last, as a generator from the seed picks;
/// the call has this number and this entry. The heap is the one before the call or the one after it, and those differ at
/// the call's root alone.
pub(crate) fn left_within<A: SimArena>(
    alloc: Global,
    device: &SimPmem,
    entry: &Entry,
    number: u64,
    done: u32,
    seed: u64,
) -> Result<Crashed, OutOfMemory>
    requires behind { IsBehindEntry A.variant device.now entry.now }
    requires within { done ≤ length device.now.events }
    ensures { IfOk result (λ crashed. IsLeftWithin A.variant (last_stage device.now) number done seed (left_of crashed)) }
{
    let image = image_of(alloc, device, done, seed)?;
    let has = has_block(&image, root_of(&entry.call));
    Ok(Crashed {
        call: number,
        side: side_by(&entry.reply, has),
        image,
    })
}

/// What is left with no call under way: an arena as it is formatted.
pub(crate) fn left_idle<A: SimArena>(
    alloc: Global,
    trace: &Trace,
    arena: u32,
) -> Result<Crashed, OutOfMemory>
    requires pool { IsPool (pool_of trace.now) }
    requires can { A.can_format (pool_of trace.now) }
    requires inside { arena < trace.now.arenas }
    ensures idle { IfOk result (λ crashed. IsLeftIdle (A.formatted (header_for (pool_of trace.now) arena)) 0 (left_of crashed)) }
    ensures whole { IfOk result (λ crashed. A.variant.IsWhole crashed.image.items) }
{
    let made: A = format_new(alloc, trace, arena)?;
    let device = made.into_device();
    let image = copy_of(alloc, device.words(0, device.size_words()))?;
    Ok(Crashed {
        call: 0,
        side: CrashSide::Same,
        image,
    })
}

// A copy of these words.
fn copy_of(alloc: Global, words: &[u64]) -> Result<Vec<u64>, OutOfMemory>
    ensures { IfOk result (λ copy. copy.items ≡ words.now) }
{
    Ok(words.to_vec(alloc)?)
}

// The side of a call by whether its root has a block, which it has after a call that gives one or moves one there, and
// before one that takes one.
fn side_of(has: bool, given: bool) -> CrashSide
    ensures { result ≡ side_of has given }
{
    if has == given {
        CrashSide::After
    } else {
        CrashSide::Before
    }
}

/// The side of a call with this reply, by whether its root has a block. A call that gives none, takes none and moves none, as
/// a Write, changes no heap.
pub fn side_by(reply: &Reply, has: bool) -> CrashSide
    ensures { result ≡ side_by reply.now has }
{
    match *reply {
        Reply::Placed { .. } | Reply::Moved { .. } => side_of(has, true),
        Reply::Freed { .. } => side_of(has, false),
        _ => CrashSide::Same,
    }
}

/// The root that a call speaks of.
pub fn root_of(call: &Call) -> u32
    ensures { result ≡ root_of call.now }
{
    match *call {
        Call::Malloc { root, .. } => root,
        Call::Free { root } => root,
        Call::Write { root, .. } => root,
        Call::Read { root, .. } => root,
        Call::Move { to, .. } => to,
    }
}

/// The words that a crash leaves after the first `done` events of a device's last call, as a generator from the seed picks.
#[tactic(auto, unfolding(crate::specs::Crash::crash_image))]
pub fn image_of(
    alloc: Global,
    device: &SimPmem,
    done: u32,
    seed: u64,
) -> Result<Vec<u64>, OutOfMemory>
    requires { done ≤ length device.now.events }
    ensures image { IfOk result (λ image. image.items ≡ crash_image (last_stage device.now) done seed) }
    ensures one { IfOk result (λ image. IsImage device.now.base (take done device.now.events) image.items) }
{
    let mut picks = SplitMix64::seed_from_u64(seed);
    device.image(alloc, done, &mut picks)
}

/// Whether a root's word in an image is not 0.
#[tactic(auto, unfolding(pmem_lines::specs::Words::word_at))]
pub fn has_block(image: &[u64], root: u32) -> bool
    requires root { root < 2 ^ 16 }
    requires inside { root_word root < length image.now }
    ensures { IsTrue result ↔ (word_at image.now (root_word root) ≢ 0) }
{
    image[root_at(root) as usize / 8] != 0
}
