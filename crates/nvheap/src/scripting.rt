// What `dict` has to say of its input, and the device that it leaves.
ghost use Rattle.std.specs.Prelude.{◌≡◌, IfOk, IfErr, OnErr};
ghost use Rattle.dict_text.specs.Script.{IsDictSize, IsScript, IsRefusedScript};
ghost use Rattle.dict_text.specs.Calls.{calls_of, HasValues};
ghost use Rattle.nvheap.specs.Scripting.{scripting};
ghost use Rattle.nvheap.specs.Ends.{IsAnswer, IsBadLine};

use crate::answers::bad_line;
use crate::reporting::GRANULE_LINES;
use crate::shelf::Shelf;
use dict_runs::run_script;
use dict_text::{Script, read_script};
use pmem_lines::OutOfMemory;
use pool_layout::layout_of;
use program_io::Answer;
use std::alloc::Global;
use trace_text::TextFault;

/// The report of a script, whose calls are made on the dictionary of a device of the shelf. The device is put into place 0.
pub(crate) fn dict_answer<H: Shelf>(
    alloc: Global,
    input: &[u8],
    shelf: &mut H,
) -> Result<Answer, OutOfMemory>
    ensures answer { IfOk result (IsAnswer scripting input.now (H.places shelf.old) (H.places shelf.new)) }
    ensures kept { OnErr result (H.places shelf.new ≡ H.places shelf.old) }
    ensures images { H.images shelf.new ≡ H.images shelf.old }
{
    let script = match script_of(alloc, input) {
        Ok(script) => script,
        Err(answer) => return answer,
    };
    let device = shelf.take(alloc, GRANULE_LINES * script.granules, layout_of(1).room)?;
    let mut text = Vec::new(alloc);
    let left = run_script(alloc, &script, device, &mut text)?;
    shelf.put(0, left);
    Ok(Answer::Output(text))
}

/// The script that an input says, or the answer of each command that reads one: the line that says which line of the input is
/// outside the grammar.
pub(crate) fn script_of(alloc: Global, input: &[u8]) -> Result<Script, Result<Answer, OutOfMemory>>
    ensures script { IfOk result (λ script. IsScript input.now script.granules (calls_of script)) }
    ensures size { IfOk result (λ script. IsDictSize script.granules) }
    ensures values { IfOk result HasValues }
    ensures refused { IfErr result (λ answer. IfOk answer (IsBadLine (IsRefusedScript input.now))) }
{
    match read_script(alloc, input) {
        Ok(script) => Ok(script),
        Err(TextFault::Memory(fault)) => Err(Err(fault)),
        Err(TextFault::BadLine { line }) => Err(bad_line(alloc, line)),
    }
}
