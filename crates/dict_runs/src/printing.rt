// The map of a dictionary, written by rising key.
ghost use Rattle.std.specs.Prelude.{◌≡◌, ◌++◌, ◌≤◌, length, OnOk};
ghost use Rattle.trace_text.specs.declared.call.CrashSide.{CrashSide};
ghost use Rattle.dict_text.specs.Calls.{calls_of, HasValues};
ghost use Rattle.dict_text.specs.Report.{map_text};
ghost use Rattle.dict_runs.specs.Printing.{IsCrashText};

use crate::crashing::DictCrashed;
use attach_dict::Dict;
use dict_text::{Script, write_pair_line, write_size};
use pmem_lines::{OutOfMemory, Pmem};
use trace_text::write_crash_line;

/// Writes how many pairs a dictionary has, and each of them by rising key, behind what stands in `out`.
pub(crate) fn write_map<P: Pmem>(dict: &Dict<P>, out: &mut Vec<u8>) -> Result<(), OutOfMemory>
    ensures { OnOk result (out.new.items ≡ out.old.items ++ map_text dict.now.pairs) }
{
    let count = dict.len();
    write_size(out, u64::from(count))?;
    let mut from: u64 = 0;
    for _ in 0..count {
        let Some((key, value)) = dict.next_from(from) else {
            unreachable!();
        };
        write_pair_line(out, key, value)?;
        from = key.saturating_add(1);
    }
    Ok(())
}

/// Writes what a crash left behind what stands in `out`: the call under way, on which side of it the map stands, and the map of
/// the image, which this dictionary was opened over.
pub fn write_left<P: Pmem>(
    crashed: &DictCrashed,
    script: &Script,
    dict: &Dict<P>,
    out: &mut Vec<u8>,
) -> Result<(), OutOfMemory>
    requires values { HasValues script.now }
    requires call { crashed.now.call ≤ length script.now.calls.items }
    ensures { OnOk result (IsCrashText crashed.now (calls_of script.now) dict.now.pairs out.old.items out.new.items) }
{
    write_crash_line(out, crashed.call, crashed.side_in(script, dict))?;
    write_map(dict, out)
}
