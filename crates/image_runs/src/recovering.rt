// An arena is recovered, for `recover` and `crash`.
ghost use Rattle.std.specs.Prelude.{◌≡◌, ◌≤◌, ◌++◌, IfOk, IfErr, OnOk};
ghost use Rattle.pmem_lines.specs.Events.{IsQuiet};
ghost use Rattle.pmem_lines.specs.Pmem.{words_of};
ghost use Rattle.pool_layout.specs.Image.{IfDefect as IfPoolDefect};
ghost use Rattle.image_defects.specs.Defects.{IsFirstDefect};
ghost use Rattle.heap_check.specs.Image.{IsSoundImage};
ghost use Rattle.trace_runs.specs.Blocks.{blocks_in};
ghost use Rattle.recover.specs.Faults.{IfDefect};
ghost use Rattle.recover.specs.Recovered.{HasVersionRoom, IsRecovered};
ghost use Rattle.image_runs.specs.Checks.{IsOwnDefect};
ghost use Rattle.image_runs.specs.Recoveries.{fault_at, heap_lines};

use heap_model::Block;
use pmem_lines::Pmem;
use pool_layout::ImageFault;
use recover::{RecoverFault, recover};
use std::alloc::Global;
use trace_runs::blocks_of;
use trace_text::write_recovered;

/// The heap of an arena that was recovered, by rising root, and its device.
#[derive(Drop)]
pub struct Recovered<P: Pmem + Drop> {
    pub blocks: Vec<Block>,
    pub device: P,
}

/// Recovers an arena from its device, and gives the blocks that the device's words had before. The device is quiet and has
/// the room of its version, where its header line is good. `Defect` comes exactly where its image is not sound, and yields
/// to want of memory.
pub fn recover_heap<P: Pmem + Drop>(alloc: Global, device: P) -> Result<Recovered<P>, RecoverFault>
    requires quiet { IsQuiet (P.state device).events }
    requires room { HasVersionRoom (P.state device) }
    ensures sound { OnOk result (IsSoundImage (words_of (P.state device))) }
    ensures recovered { IfOk result (λ done. IsRecovered (P.state device) (P.state done.device)) }
    ensures heap { IfOk result (λ done. done.blocks.items ≡ blocks_in (words_of (P.state device))) }
    ensures defect { IfErr result (λ fault. IfDefect fault (IsFirstDefect (words_of (P.state device)))) }
{
    let arena = match recover(alloc, device) {
        Ok(arena) => arena,
        Err((fault, _device)) => return Err(fault),
    };
    let listed = blocks_of(alloc, &arena);
    let device = arena.into_pmem();
    match listed {
        Ok(blocks) => Ok(Recovered { blocks, device }),
        Err(error) => Err(RecoverFault::Memory(error)),
    }
}

/// Recovers the arena of this number from its device, and writes its heap behind what stands in `text`: how many blocks, and
/// each of them, as the device's words had them before. The device is quiet and has the room of its version, where its
/// header line is good. `Defect` comes exactly where its image is not sound, and yields to want of memory.
pub fn recover_arena<P: Pmem + Drop>(
    alloc: Global,
    device: P,
    arena: u32,
    text: &mut Vec<u8>,
) -> Result<P, ImageFault>
    requires quiet { IsQuiet (P.state device).events }
    requires room { HasVersionRoom (P.state device) }
    ensures sound { OnOk result (IsSoundImage (words_of (P.state device))) }
    ensures recovered { IfOk result (λ exact. IsRecovered (P.state device) (P.state exact)) }
    ensures text { OnOk result (text.new.items ≡ text.old.items ++ heap_lines arena (words_of (P.state device))) }
    ensures defect { IfErr result (λ fault. IfPoolDefect fault (IsOwnDefect (words_of (P.state device)) arena)) }
{
    let recovered = match recover_heap(alloc, device) {
        Ok(recovered) => recovered,
        Err(fault) => return Err(fault_at(arena, fault)),
    };
    match write_recovered(text, arena, &recovered.blocks) {
        Ok(()) => Ok(recovered.device),
        Err(error) => Err(ImageFault::Memory(error)),
    }
}

/// The fault of an arena's recovery, as one of its pool.
pub(crate) fn fault_at(arena: u32, fault: RecoverFault) -> ImageFault
    ensures { result ≡ fault_at arena fault }
{
    match fault {
        RecoverFault::Memory(error) => ImageFault::Memory(error),
        RecoverFault::Defect(defect) => ImageFault::Defect { arena, defect },
    }
}
