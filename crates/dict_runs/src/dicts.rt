// The dictionary of a script, over an arena that is formatted.
ghost use Rattle.std.specs.Prelude.{◌*◌, IfOk};
ghost use Rattle.pmem_lines.specs.Pmem.{IsZeroed};
ghost use Rattle.pool_layout.specs.Layout.{layout_of};
ghost use Rattle.dict_text.specs.Script.{IsDictSize};
ghost use Rattle.dict_runs.specs.Turns.{IsNewDict};

use attach_dict::{Dict, OpenFault};
use pmem_lines::{OutOfMemory, Pmem};
use std::alloc::Global;
use trace_runs::new_arena;
use trace_text::PoolSize;

/// Formats a device of zeros as the one arena of a pool of version 1, with the room of that version, and opens it: there is no
/// pair.
pub(crate) fn new_dict<P: Pmem + Drop>(
    alloc: Global,
    device: P,
    granules: u32,
) -> Result<Dict<P>, OutOfMemory>
    requires size { IsDictSize granules }
    requires zeroed { IsZeroed (P.state device) (256 * granules) (layout_of 1).room }
    ensures { IfOk result (IsNewDict granules) }
{
    let pool = PoolSize {
        version: 1,
        arenas: 1,
        granules,
    };
    let arena = new_arena(alloc, device, pool, 0)?;
    match Dict::open(alloc, arena) {
        Ok(dict) => Ok(dict),
        Err((fault, arena)) => {
            drop(arena);
            match fault {
                OpenFault::Memory(fault) => Err(fault),
                OpenFault::NotDict { .. } => unreachable!(),
            }
        }
    }
}
