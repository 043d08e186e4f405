// The input of a command.
ghost use Rattle.std.specs.Prelude.{◌≡◌, ◌≢◌, None, IfOk, IfErr, Err};
ghost use Rattle.nvheap.specs.Command.{meaning_of};
ghost use Rattle.program_io.specs.Streams.{Rose};
ghost use Rattle.program_io.specs.Inputs.{limit_of, IsInput, Fits, IsRead};
ghost use Rattle.program_io.specs.Ends.{IsUnread};

use crate::command::Command;
use program_io::{Input, Source, Status, read_input};
use std::alloc::Global;

/// The input of a command that reads one, or how a run of it ends without.
pub(crate) fn input_of<S: Source>(
    alloc: Global,
    command: Command,
    source: &mut S,
) -> Result<Input, Status>
    requires { (meaning_of command).reads ≢ None }
    ensures read { IfOk result (IsRead (limit_of (meaning_of command).reads) (S.left source.old) (S.left source.new)) }
    ensures fits { IfOk result (Fits (meaning_of command).reads) }
    ensures input { IfOk result IsInput }
    ensures unread { IfErr result (IsUnread (limit_of (meaning_of command).reads) (S.left source.old) (S.left source.new)) }
    ensures failed { result ≡ Err Status.ReadFault → Rose (S.faults source.old) (S.faults source.new) }
    ensures unfailed { result ≡ Err Status.TooLong → S.faults source.new ≡ S.faults source.old }
{
    let Some(kind) = command.reads() else {
        unreachable!();
    };
    read_input(alloc, kind, source)
}
