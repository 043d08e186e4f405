// What `migrate` has to say of its input.
ghost use Rattle.std.specs.Prelude.{List, ℕ, IfOk};
ghost use Rattle.pool_layout.specs.Image.{AreWordsOf, AreWords};
ghost use Rattle.nvheap.specs.Meaning.{Places};
ghost use Rattle.nvheap.specs.Migrating.{migrating};
ghost use Rattle.nvheap.specs.Ends.{IsAnswer};

use crate::answers::fault_line;
use crate::cause::Cause;
use image_runs::{PoolMigrateFault, migrate_pool};
use pmem_lines::OutOfMemory;
use pool_layout::pool_header;
use program_io::Answer;
use std::alloc::Global;

/// The image of the pool of version 2 that has what the pool of an image of version 1 has. The header lines of that are
/// tried first, then its version, then its arenas.
pub(crate) fn migrate_answer(
    alloc: Global,
    words: &[u64],
    bytes: u64,
) -> Result<Answer, OutOfMemory>
    requires { AreWords words.now bytes }
    ensures { IfOk result (λ answer. (image : List ℕ) (places : Places) → AreWordsOf words.now bytes image → IsAnswer migrating image places places answer) }
{
    let header = match pool_header(words, bytes) {
        Ok(header) => header,
        Err(found) => {
            return fault_line(
                alloc,
                Cause::Image {
                    arena: found.arena,
                    defect: found.defect,
                },
            );
        }
    };
    match migrate_pool(alloc, &header, words) {
        Ok(image) => Ok(Answer::Output(image)),
        Err(PoolMigrateFault::Newer { version }) => fault_line(alloc, Cause::Version { version }),
        Err(PoolMigrateFault::Defect { arena, defect }) => fault_line(
            alloc,
            Cause::Image { arena, defect },
        ),
        Err(PoolMigrateFault::Memory(fault)) => Err(fault),
    }
}
