// A script, run and reported.
ghost use Rattle.std.specs.Prelude.{◌≡◌, ◌*◌, ◌++◌, ℕ, IfOk, OnOk};
ghost use Rattle.pmem_lines.specs.Pmem.{IsZeroed};
ghost use Rattle.pool_layout.specs.Layout.{layout_of};
ghost use Rattle.dict_text.specs.Script.{IsDictSize};
ghost use Rattle.dict_text.specs.Calls.{calls_of, HasValues};
ghost use Rattle.dict_text.specs.Report.{reply_line};
ghost use Rattle.dict_runs.specs.Making.{came_to};
ghost use Rattle.dict_runs.specs.Printing.{HasReported, IsReportOf};
ghost use Rattle.dict_runs.specs.Turns.{IsNewDict};

use crate::dicts::new_dict;
use crate::looking::Unseen;
use crate::making::{Came, make_call};
use crate::printing::write_map;
use attach_dict::Dict;
use dict_text::{PlainReply, Script, write_reply, write_value};
use pmem_lines::{OutOfMemory, Pmem};
use std::alloc::Global;

/// Makes the calls of a script, in order, on the dictionary of an arena that a device of zeros is formatted as, which has the
/// room of version 1. It writes what each line came to, and then the map behind them, behind what stands in `out`, and gives the
/// device.
pub fn run_script<P: Pmem + Drop>(
    alloc: Global,
    script: &Script,
    device: P,
    out: &mut Vec<u8>,
) -> Result<P, OutOfMemory>
    requires size { IsDictSize script.now.granules }
    requires values { HasValues script.now }
    requires zeroed { IsZeroed (P.state device) (256 * script.now.granules) (layout_of 1).room }
    ensures { IfOk result (λ left. HasReported script.now.granules (calls_of script.now) (P.state left) out.old.items out.new.items) }
{
    let mut dict = new_dict(alloc, device, script.granules)?;
    match report(&mut dict, script, out) {
        Ok(()) => Ok(dict.into_arena().into_pmem()),
        Err(fault) => {
            drop(dict);
            Err(fault)
        }
    }
}

// Makes the calls on a new dictionary, and writes what comes of them.
fn report<P: Pmem>(
    dict: &mut Dict<P>,
    script: &Script,
    out: &mut Vec<u8>,
) -> Result<(), OutOfMemory>
    requires new { IsNewDict script.now.granules dict.old }
    requires values { HasValues script.now }
    ensures { OnOk result (IsReportOf script.now.granules (calls_of script.now) dict.new out.old.items out.new.items) }
{
    for call in &script.calls {
        let came = make_call(dict, call, &script.values, &mut Unseen)?;
        write_came(dict, came, out)?;
    }
    write_map(dict, out)
}

// Writes the line of what a call came to.
fn write_came<P: Pmem>(dict: &Dict<P>, came: Came, out: &mut Vec<u8>) -> Result<(), OutOfMemory>
    ensures { OnOk result (out.new.items ≡ out.old.items ++ reply_line (came_to dict.now.pairs came)) }
{
    match came {
        Came::Plain(reply) => write_reply(out, reply),
        Came::Read { key } => match dict.get(key) {
            Some(value) => write_value(out, value),
            None => write_reply(out, PlainReply::Absent),
        },
    }
}
