// What a command has to say of its input.
ghost use Rattle.std.specs.Prelude.{IfOk};
ghost use Rattle.nvpool.specs.Ends.{IsFaultLine};

use crate::cause::{Cause, write_cause};
use pmem_lines::OutOfMemory;
use program_io::Answer;
use std::alloc::Global;

/// One line that says why an input is refused.
pub(crate) fn fault_line(alloc: Global, cause: Cause) -> Result<Answer, OutOfMemory>
    ensures { IfOk result (IsFaultLine cause) }
{
    let mut text = Vec::new(alloc);
    write_cause(&mut text, cause)?;
    Ok(Answer::FaultLine(text))
}
