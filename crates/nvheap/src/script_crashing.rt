// What `dict-crash` has to say of its input, and the device that it leaves.
ghost use Rattle.std.specs.Prelude.{◌≡◌, ◌≤◌, [], length, IfOk, OnOk, OnErr};
ghost use Rattle.pmem_lines.specs.Events.{IsQuiet};
ghost use Rattle.pmem_lines.specs.Pmem.{words_of, risen};
ghost use Rattle.recover.specs.Recovered.{HasVersionRoom, IsRecovered, IsRecoveredDevice};
ghost use Rattle.attach_dict.specs.Dict.{IsSteadyDict};
ghost use Rattle.dict_text.specs.Calls.{calls_of, HasValues};
ghost use Rattle.dict_runs.specs.Printing.{IsCrashText};
ghost use Rattle.dict_runs.specs.Watching.{HasSteadyDict};
ghost use Rattle.nvheap.specs.Crashing.{PutsRecovered};
ghost use Rattle.nvheap.specs.ScriptCrashing.{IsMapReport, script_crashing};
ghost use Rattle.nvheap.specs.Ends.{IsAnswer, CountsImages};

use crate::crashing::{lacks_event, room_of};
use crate::scripting::script_of;
use crate::shelf::Shelf;
use attach_dict::{Dict, OpenFault};
use dict_runs::{DictCrashed, crash_script, write_left};
use dict_text::Script;
use pmem_lines::{OutOfMemory, Pmem};
use program_io::Answer;
use recover::{RecoverFault, recover};
use std::alloc::Global;
use trace_crashes::CrashFault;

/// The report of what a crash leaves after an event of the calls of a script. The image is recovered on a device of the shelf,
/// which is put into place 0; its map is reported.
pub(crate) fn dict_crash_answer<H: Shelf>(
    alloc: Global,
    input: &[u8],
    event: u64,
    seed: u64,
    shelf: &mut H,
) -> Result<Answer, OutOfMemory>
    ensures answer { IfOk result (IsAnswer (script_crashing event seed) input.now (H.places shelf.old) (H.places shelf.new)) }
    ensures counts { IfOk result (CountsImages (script_crashing event seed) input.now (H.images shelf.old) (H.images shelf.new)) }
    ensures kept { OnErr result (H.places shelf.new ≡ H.places shelf.old) }
{
    let script = match script_of(alloc, input) {
        Ok(script) => script,
        Err(answer) => return answer,
    };
    match crash_script(alloc, &script, event, seed) {
        Ok(crashed) => Ok(Answer::Output(recovered_map(alloc, &crashed, &script, shelf)?)),
        Err(CrashFault::NoEvent { events }) => lacks_event(alloc, event, events),
        Err(CrashFault::Memory(fault)) => Err(fault),
    }
}

// Recovers the image that a crash left, opens its dictionary, and reports the map.
fn recovered_map<H: Shelf>(
    alloc: Global,
    crashed: &DictCrashed,
    script: &Script,
    shelf: &mut H,
) -> Result<Vec<u8>, OutOfMemory>
    requires steady { HasSteadyDict crashed.now.image.items }
    requires values { HasValues script.now }
    requires call { crashed.now.call ≤ length script.now.calls.items }
    ensures text { IfOk result (λ text. IsMapReport crashed.now (calls_of script.now) text.items) }
    ensures put { IfOk result (λ _. PutsRecovered IsRecoveredDevice crashed.now.image.items 0 (H.places shelf.old) (H.places shelf.new)) }
    ensures images { OnOk result (H.images shelf.new ≡ risen (H.images shelf.old) 1) }
    ensures kept { OnErr result (H.places shelf.new ≡ H.places shelf.old) }
{
    let image: &[u64] = &crashed.image;
    let device = shelf.take_image(alloc, image, room_of(image))?;
    let dict = reopen(alloc, device)?;
    let text = match map_text(alloc, crashed, script, &dict) {
        Ok(text) => text,
        Err(fault) => {
            drop(dict);
            return Err(fault);
        }
    };
    shelf.put(0, dict.into_arena().into_pmem());
    Ok(text)
}

// The report of a dictionary that was opened over what a crash left.
fn map_text<P: Pmem>(
    alloc: Global,
    crashed: &DictCrashed,
    script: &Script,
    dict: &Dict<P>,
) -> Result<Vec<u8>, OutOfMemory>
    requires values { HasValues script.now }
    requires call { crashed.now.call ≤ length script.now.calls.items }
    ensures { IfOk result (λ text. IsCrashText crashed.now (calls_of script.now) dict.now.pairs [] text.items) }
{
    let mut text = Vec::new(alloc);
    write_left(crashed, script, dict, &mut text)?;
    Ok(text)
}

// Recovers a device whose image is steady, and the dictionary of a map, and opens it.
fn reopen<P: Pmem + Drop>(alloc: Global, device: P) -> Result<Dict<P>, OutOfMemory>
    requires quiet { IsQuiet (P.state device).events }
    requires room { HasVersionRoom (P.state device) }
    requires steady { HasSteadyDict (words_of (P.state device)) }
    ensures recovered { IfOk result (λ dict. IsRecovered (P.state device) dict.arena.device) }
    ensures same { IfOk result (λ dict. IsSteadyDict dict.pairs (words_of (P.state device))) }
{
    let arena = match recover(alloc, device) {
        Ok(arena) => arena,
        Err((RecoverFault::Memory(fault), _)) => return Err(fault),
        Err((RecoverFault::Defect(_), _)) => unreachable!(),
    };
    match Dict::open(alloc, arena) {
        Ok(dict) => Ok(dict),
        Err((fault, arena)) => {
            drop(arena);
            match fault {
                OpenFault::Memory(fault) => Err(fault),
                OpenFault::NotDict { .. } => unreachable!(),
            }
        }
    }
}
