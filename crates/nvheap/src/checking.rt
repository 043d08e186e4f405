// What `check` has to say of its input.
ghost use Rattle.std.specs.Prelude.{List, ℕ, IfOk};
ghost use Rattle.pool_layout.specs.Image.{AreWordsOf, AreWords};
ghost use Rattle.nvheap.specs.Meaning.{Places};
ghost use Rattle.nvheap.specs.Checking.{checking};
ghost use Rattle.nvheap.specs.Ends.{IsAnswer};

use crate::answers::fault_line;
use crate::cause::Cause;
use image_runs::check_pool;
use pmem_lines::OutOfMemory;
use pool_layout::ImageFault;
use program_io::Answer;
use std::alloc::Global;

/// What each arena of a pool's image has.
pub(crate) fn check_answer(alloc: Global, words: &[u64], bytes: u64) -> Result<Answer, OutOfMemory>
    requires { AreWords words.now bytes }
    ensures { IfOk result (λ answer. (image : List ℕ) (places : Places) → AreWordsOf words.now bytes image → IsAnswer checking image places places answer) }
{
    match check_pool(alloc, words, bytes) {
        Ok(text) => Ok(Answer::Output(text)),
        Err(ImageFault::Defect { arena, defect }) => fault_line(
            alloc,
            Cause::Image { arena, defect },
        ),
        Err(ImageFault::Memory(fault)) => Err(fault),
    }
}
