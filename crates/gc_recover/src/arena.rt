// An arena over a device, recovered first.
ghost use Rattle.std.specs.Prelude.{◌≡◌, ◌≤◌, OnOk, IfOk, IfErr};
ghost use Rattle.pmem_lines.specs.Events.{IsQuiet};
ghost use Rattle.pmem_lines.specs.Pmem.{words_of};
ghost use Rattle.heap_model.specs.Placement.{no_stacks};
ghost use Rattle.thread_cache.specs.Stacks.{stacks_of};
ghost use Rattle.gc_check.specs.Image.{IsGcSoundImage};
ghost use Rattle.gc_check.specs.Defects.{IsFirstGcDefect};
ghost use Rattle.gc_search.specs.Faults.{IfDefect};
ghost use Rattle.gc_recover.specs.Recovered.{IsPrepared, IsGcRecovered};

use crate::recovering::recover_sound;
use gc_heap::{GcArena, GcRoom};
use gc_recovery_steps::all_words;
use gc_search::{GcFault, GcImage, check_gc_arena};
use pmem_lines::Pmem;
use std::alloc::Global;

/// Makes an arena over a device of any words: of these the image becomes exact with the heap that it has, in which each block keeps
/// its words. The device is quiet and has room for 2048 events; of this one call's events 909 are done at most. Ok comes exactly where
/// the image is sound, a defect exactly where it is not, and it is the first in the order of the format; either yields to want of
/// memory, all of which is taken ahead of the first event. On a refusal the device comes back as it was. A crash within it leaves a
/// sound image with the same heap.
pub fn gc_recover<P: Pmem>(alloc: Global, p: P) -> Result<GcArena<P>, (GcFault, P)>
    requires quiet { IsQuiet (P.state p).events }
    requires room { 2048 ≤ (P.state p).room }
    ensures sound { OnOk result (IsGcSoundImage (words_of (P.state p))) }
    ensures recovered { IfOk result (λ arena. IsGcRecovered (P.state p) arena.device) }
    ensures stacks { IfOk result (λ arena. stacks_of arena.stacks ≡ no_stacks) }
    ensures defect { IfErr result (λ refused. IfDefect refused.0 (IsFirstGcDefect (words_of (P.state p)))) }
    ensures unchanged { IfErr result (λ refused. P.state refused.1 ≡ P.state p) }
{
    match prepare(alloc, all_words(&p)) {
        Ok(Prepared { image, space }) => Ok(GcArena::adopt(space, recover_sound(p, image).device)),
        Err(fault) => Err((fault, p)),
    }
}

// What was read of a sound image, and the memory of an arena of its size.
#[derive(Drop)]
pub(crate) struct Prepared {
    pub(crate) image: GcImage,
    pub(crate) space: GcRoom,
}

// Judges the words of an arena. It takes all the memory.
fn prepare(alloc: Global, words: &[u64]) -> Result<Prepared, GcFault>
    ensures sound { OnOk result (IsGcSoundImage words.now) }
    ensures prepared { IfOk result (IsPrepared words.now) }
    ensures defect { IfErr result (λ fault. IfDefect fault (IsFirstGcDefect words.now)) }
{
    let image = check_gc_arena(alloc, words)?;
    let space = GcRoom::new(alloc, image.log.granules())?;
    Ok(Prepared { image, space })
}
