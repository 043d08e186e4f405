// Why a command refuses its input.
ghost use Rattle.std.specs.Prelude.{◌≡◌, ◌++◌, OnOk};
ghost use Rattle.nvpool.specs.Causes.{cause_text};

use pmem_lines::OutOfMemory;
use pool_layout::Defect;
use trace_text::{Refusal, write_bytes, write_defect, write_refusal, write_word};

/// Why a command refuses its input.
#[derive(Clone, Copy)]
pub enum Cause {
    /// A text, by its lines or by what is asked of it.
    Text(Refusal),
    /// The first defect of the image of a pool, and the number of the arena that has it.
    Image { arena: u32, defect: Defect },
    /// The pool has fewer arenas.
    NoArena { arena: u32, arenas: u32 },
    /// The root of an arena has no block.
    NoBlock { arena: u32, root: u32 },
}

/// Writes the line that says why behind what stands in `out`.
pub(crate) fn write_cause(out: &mut Vec<u8>, cause: Cause) -> Result<(), OutOfMemory>
    ensures { OnOk result (out.new.items ≡ out.old.items ++ cause_text cause) }
{
    match cause {
        Cause::Text(refusal) => write_refusal(out, refusal),
        Cause::Image { arena, defect } => write_defect(out, arena, &defect),
        Cause::NoArena { arena, arenas } => {
            write_word(out, b"no arena ", u64::from(arena))?;
            write_word(out, b" of ", u64::from(arenas))?;
            write_bytes(out, b"\n")
        }
        Cause::NoBlock { arena, root } => {
            write_word(out, b"arena ", u64::from(arena))?;
            write_word(out, b" no block ", u64::from(root))?;
            write_bytes(out, b"\n")
        }
    }
}
