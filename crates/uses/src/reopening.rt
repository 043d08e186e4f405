// A stack over a device behind a power cut.
ghost use Rattle.std.specs.Prelude.{IfOk, IfErr, OnOk};
ghost use Rattle.pmem_lines.specs.Events.{IsQuiet};
ghost use Rattle.pmem_lines.specs.Pmem.{words_of};
ghost use Rattle.heap_check.specs.Image.{IsSoundImage};
ghost use Rattle.recover.specs.Recovered.{HasVersionRoom};
ghost use Rattle.uses.specs.Stack.{IsKept};
ghost use Rattle.uses.specs.Reopening.{IsReopened, IsFaultOf};

use crate::{RecordStack, ReopenFault};
use pmem_lines::Pmem;
use recover::{RecoverFault, recover};
use std::alloc::Global;

/// Recovers a device behind a power cut, and makes a stack over it with the records that its image is the stack of. Where there
/// was no memory, and else where the image is not sound, the device comes back as it was; where the heap is not a stack, it
/// comes back recovered. From a steady image a crash within it leaves a steady image with the same records. The device is quiet
/// and has the room of its version, where its header line is good.
pub fn reopen<P: Pmem>(alloc: Global, device: P) -> Result<RecordStack<P>, (ReopenFault, P)>
    requires quiet { IsQuiet (P.state device).events }
    requires room { HasVersionRoom (P.state device) }
    ensures sound { OnOk result (IsSoundImage (words_of (P.state device))) }
    ensures reopened { IfOk result (λ stack. IsReopened (P.state device) stack) }
    ensures kept { IfOk result IsKept }
    ensures fault { IfErr result (λ refused. IsFaultOf (P.state device) refused.0 (P.state refused.1)) }
{
    match recover(alloc, device) {
        Ok(arena) => match RecordStack::over(arena) {
            Ok(stack) => Ok(stack),
            Err(arena) => Err((ReopenFault::NoStack, arena.into_pmem())),
        },
        Err((RecoverFault::Memory(error), device)) => Err((ReopenFault::Memory(error), device)),
        Err((RecoverFault::Defect(defect), device)) => Err((ReopenFault::Defect(defect), device)),
    }
}
