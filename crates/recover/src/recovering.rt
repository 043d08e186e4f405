// An arena is recovered from its device.
ghost use Rattle.std.specs.Prelude.{◌≡◌, ◌≤◌, OnOk, IfOk, IfErr};
ghost use Rattle.pmem_lines.specs.Events.{IsQuiet};
ghost use Rattle.pmem_lines.specs.Pmem.{words_of};
ghost use Rattle.heap_check.specs.Image.{IsSoundImage};
ghost use Rattle.pool_layout.specs.Layout.{layout_of};
ghost use Rattle.pool_layout.specs.Header.{version_in, granules_in};
ghost use Rattle.log_steps.specs.Log.{IsBookOf};
ghost use Rattle.recovery_steps.specs.Names.{AreNames};
ghost use Rattle.image_defects.specs.Defects.{IsFirstDefect};
ghost use Rattle.recover.specs.Faults.{IfDefect};
ghost use Rattle.heap_model.specs.Placement.{no_stacks};
ghost use Rattle.thread_cache.specs.Stacks.{stacks_of};
ghost use Rattle.arena_core.specs.Call.{IsReady};
ghost use Rattle.recover.specs.Recovered.{HasVersionRoom, IsPrepared, IsRecovered};

use crate::RecoverFault;
use crate::preparing::{Prepared, prepare};
use arena_core::Arena;
use book_log::BookLog;
use pmem_lines::Pmem;
use recovery_steps::{RootNames, all_words, make_exact};
use std::alloc::Global;

/// Recovers an arena from its device: the image becomes exact with the heap that it has, in which each block keeps its
/// words, and an arena is made over it, in which no block is reserved: all stacks are empty. The device is quiet and has the room of its version, where its header line is good;
/// of this one call's events are done, the `recovery_events` of the version at most. Ok comes exactly where the image is
/// sound, a defect exactly where it is not, and it is the first in the order of the format; either yields to want of memory.
/// All memory is taken before the first event. On a refusal the device comes back as it was. From a steady image a crash
/// within it leaves a steady image with the same heap.
pub fn recover<P: Pmem>(alloc: Global, p: P) -> Result<Arena<P>, (RecoverFault, P)>
    requires quiet { IsQuiet (P.state p).events }
    requires room { HasVersionRoom (P.state p) }
    ensures sound { OnOk result (IsSoundImage (words_of (P.state p))) }
    ensures recovered { IfOk result (λ arena. IsRecovered (P.state p) arena.device) }
    ensures line { IfOk result (λ arena. arena.line ≡ 0) }
    ensures stacks { IfOk result (λ arena. stacks_of arena.stacks ≡ no_stacks) }
    ensures ready { IfOk result (λ arena. IsReady arena.device) }
    ensures defect { IfErr result (λ refused. IfDefect refused.0 (IsFirstDefect (words_of (P.state p)))) }
    ensures unchanged { IfErr result (λ refused. P.state refused.1 ≡ P.state p) }
{
    match prepare(alloc, all_words(&p)) {
        Ok(prepared) => Ok(recover_prepared(p, prepared)),
        Err(fault) => Err((fault, p)),
    }
}

// Recovers an arena for which all is at hand. It takes no memory.
fn recover_prepared<P: Pmem>(p: P, prepared: Prepared) -> Arena<P>
    requires quiet { IsQuiet (P.state p).events }
    requires room { (layout_of (version_in (words_of (P.state p)))).room ≤ (P.state p).room }
    requires sound { IsSoundImage (words_of (P.state p)) }
    requires prepared { IsPrepared (words_of (P.state p)) prepared }
    ensures recovered { IsRecovered (P.state p) result.device }
    ensures line { result.line ≡ 0 }
    ensures stacks { stacks_of result.stacks ≡ no_stacks }
    ensures ready { IsReady result.device }
{
    let Prepared {
        mut log,
        names,
        space,
    } = prepared;
    let p = make_device_exact(p, &mut log, &names);
    Arena::adopt(space, p)
}

// Makes the image of a device exact, in one call; the arena has the version and as many granules as before.
fn make_device_exact<P: Pmem>(mut p: P, log: &mut BookLog, names: &RootNames) -> P
    requires quiet { IsQuiet (P.state p).events }
    requires room { (layout_of (version_in (words_of (P.state p)))).room ≤ (P.state p).room }
    requires sound { IsSoundImage (words_of (P.state p)) }
    requires book { IsBookOf log.old (words_of (P.state p)) }
    requires names { AreNames names.now (words_of (P.state p)) }
    ensures recovered { IsRecovered (P.state p) (P.state result) }
    ensures granules { granules_in (words_of (P.state result)) ≡ granules_in (words_of (P.state p)) }
    ensures version { version_in (words_of (P.state result)) ≡ version_in (words_of (P.state p)) }
{
    p.begin();
    make_exact(&mut p, log, names);
    p
}
