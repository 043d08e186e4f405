// Why a command refuses its input.
ghost use Rattle.std.specs.Prelude.{◌≡◌, ◌++◌, OnOk};
ghost use Rattle.nvheap.specs.Causes.{cause_text};

use pmem_lines::OutOfMemory;
use pool_layout::Defect;
use trace_text::{Refusal, write_defect, write_refusal, write_version};

/// Why a command refuses its input.
#[derive(Clone, Copy)]
pub enum Cause {
    /// A text, by its lines or by what is asked of it.
    Text(Refusal),
    /// The image of a pool: the first defect, and the number of the arena that has it.
    Image { arena: u32, defect: Defect },
    /// The image of a pool, which is of this version.
    Version { version: u32 },
}

/// Writes the line that says why behind what stands in `out`.
pub(crate) fn write_cause(out: &mut Vec<u8>, cause: Cause) -> Result<(), OutOfMemory>
    ensures text { OnOk result (out.new.items ≡ out.old.items ++ cause_text cause) }
{
    match cause {
        Cause::Text(refusal) => write_refusal(out, refusal),
        Cause::Image { arena, defect } => write_defect(out, arena, &defect),
        Cause::Version { version } => write_version(out, version),
    }
}
