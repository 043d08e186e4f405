// The device of an arena is recovered.
ghost use Rattle.std.specs.Prelude.{◌≡◌, ◌≤◌, OnOk, IfOk, IfErr};
ghost use Rattle.pmem_lines.specs.Events.{IsQuiet};
ghost use Rattle.pmem_lines.specs.Pmem.{words_of};
ghost use Rattle.log_steps.specs.Log.{IsBookOf};
ghost use Rattle.gc_check.specs.Image.{IsGcSoundImage};
ghost use Rattle.gc_check.specs.Defects.{IsFirstGcDefect};
ghost use Rattle.gc_search.specs.Faults.{IfDefect};
ghost use Rattle.gc_search.specs.Names.{AreNamesOf};
ghost use Rattle.gc_search.specs.Image.{IsSoundWith};
ghost use Rattle.gc_recover.specs.Recovered.{IsGcRecovered, IsRecoveredWith};

use book_log::BookLog;
use gc_recovery_steps::{all_words, make_exact};
use gc_search::{GcFault, GcImage, GcNames, check_gc_arena};
use pmem_lines::Pmem;
use std::alloc::Global;

/// A device whose image is exact, with its log, and which granules its roots' blocks begin in.
#[derive(Drop)]
pub struct RecoveredDevice<P: Pmem> {
    pub device: P,
    pub log: BookLog,
    pub names: GcNames,
}

/// Recovers the device of an arena: the image becomes exact with the heap that it has, in which each block keeps its words. The
/// device is quiet and has room for 2048 events; of this one call's events 909 are done at most. Ok comes exactly where the image is
/// sound, a defect exactly where it is not, and it is the first in the order of the format; either yields to want of memory, which is
/// told before anything is looked for. On a refusal the device comes back as it was. A crash within it leaves a sound image with the
/// same heap.
pub fn recover_device<P: Pmem>(alloc: Global, p: P) -> Result<RecoveredDevice<P>, (GcFault, P)>
    requires quiet { IsQuiet (P.state p).events }
    requires room { 2048 ≤ (P.state p).room }
    ensures sound { OnOk result (IsGcSoundImage (words_of (P.state p))) }
    ensures recovered { IfOk result (λ done. IsRecoveredWith done.log done.names (P.state p) (P.state done.device)) }
    ensures defect { IfErr result (λ refused. IfDefect refused.0 (IsFirstGcDefect (words_of (P.state p)))) }
    ensures unchanged { IfErr result (λ refused. P.state refused.1 ≡ P.state p) }
{
    match check_gc_arena(alloc, all_words(&p)) {
        Ok(image) => Ok(recover_sound(p, image)),
        Err(fault) => Err((fault, p)),
    }
}

/// Recovers the device of an arena whose image is sound. It takes no memory.
pub(crate) fn recover_sound<P: Pmem>(p: P, image: GcImage) -> RecoveredDevice<P>
    requires quiet { IsQuiet (P.state p).events }
    requires room { 2048 ≤ (P.state p).room }
    requires image { IsSoundWith (words_of (P.state p)) image }
    ensures { IsRecoveredWith result.log result.names (P.state p) (P.state result.device) }
{
    let GcImage { mut log, names } = image;
    let device = make_device_exact(p, &mut log, &names);
    RecoveredDevice { device, log, names }
}

/// Makes the image of a device exact, which is sound, in one call. `log` has read it, and `names` what its roots name. It takes no
/// memory.
pub fn make_device_exact<P: Pmem>(mut p: P, log: &mut BookLog, names: &GcNames) -> P
    requires quiet { IsQuiet (P.state p).events }
    requires room { 2048 ≤ (P.state p).room }
    requires sound { IsGcSoundImage (words_of (P.state p)) }
    requires book { IsBookOf log.old (words_of (P.state p)) }
    requires names { AreNamesOf (words_of (P.state p)) names.now }
    ensures recovered { IsGcRecovered (P.state p) (P.state result) }
    ensures book { IsBookOf log.new (words_of (P.state result)) }
    ensures names { AreNamesOf (words_of (P.state result)) names.now }
{
    p.begin();
    make_exact(&mut p, log, names);
    p
}
