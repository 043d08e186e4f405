// The calls of a script, made on a dictionary and looked at behind each of its calls of the arena.
ghost use Rattle.std.specs.Prelude.{◌≤◌, ℕ, length, IfOk, OnOk};
ghost use Rattle.heap_model.specs.Machine.{Bounds};
ghost use Rattle.attach_dict.specs.Dict.{most_values};
ghost use Rattle.attach_dict.specs.Stages.{IsKept, IsStagedFor, HasFilledPhase};
ghost use Rattle.dict_text.specs.Calls.{call_of, HasWordsOf};
ghost use Rattle.dict_runs.specs.Acts.{Standing};
ghost use Rattle.dict_runs.specs.Making.{IsReady, IsTaken, IsFilled, IsShown, IsCleared, IsPut, IsRemovedBy, came_to};
ghost use Rattle.dict_runs.specs.Turns.{IsAt, HasMade};

use crate::looking::Look;
use attach_dict::{Dict, StageRefusal};
use dict_text::{PlainReply, ScriptCall};
use pmem_lines::{OutOfMemory, Pmem};

/// What a call came to.
#[derive(Clone, Copy)]
pub(crate) enum Came {
    Plain(PlainReply),
    /// What the key has, which may be read behind the call.
    Read { key: u64 },
}

/// Makes a call of a script, whose words stand among these values.
pub(crate) fn make_call<P: Pmem, L: Look<P>>(
    dict: &mut Dict<P>,
    call: &ScriptCall,
    values: &[u64],
    look: &mut L,
) -> Result<Came, OutOfMemory>
    requires ready { IsReady dict.old }
    requires words { HasWordsOf values.now call.now }
    ensures kept { IsKept dict.new }
    ensures made { IfOk result (λ came. (b : Bounds) (s : Standing) (n : ℕ) → IsAt b s n dict.old →
        HasMade L.sees b s n (call_of values.now call.now) dict.old look.old dict.new look.new (came_to dict.new.pairs came)) }
{
    match *call {
        ScriptCall::Put { key, from, count } => {
            let value = &values[from..from + count as usize];
            Ok(Came::Plain(put(dict, key, value, look)?))
        }
        ScriptCall::Get { key } => Ok(Came::Read { key }),
        ScriptCall::Del { key } => Ok(Came::Plain(remove(dict, key, look)?)),
    }
}

// A key gets a value: a pair is made ready and published, and the root that is stale then, if one is, is freed.
fn put<P: Pmem, L: Look<P>>(
    dict: &mut Dict<P>,
    key: u64,
    value: &[u64],
    look: &mut L,
) -> Result<PlainReply, OutOfMemory>
    requires ready { IsReady dict.old }
    requires few { length value.now ≤ most_values }
    ensures kept { IsKept dict.new }
    ensures put { IfOk result (IsPut L.sees key value.now dict.old look.old dict.new look.new) }
{
    let reply = take(dict, key, value.len() as u32, look)?;
    if let PlainReply::Stored = reply {
        store(dict, value, look)?;
    }
    Ok(reply)
}

// Gives the stage a block for a value of so many words, where there is room for it.
fn take<P: Pmem, L: Look<P>>(
    dict: &mut Dict<P>,
    key: u64,
    count: u32,
    look: &mut L,
) -> Result<PlainReply, OutOfMemory>
    requires ready { IsReady dict.old }
    requires few { count ≤ most_values }
    ensures kept { IsKept dict.new }
    ensures taken { IfOk result (IsTaken L.sees key count dict.old look.old dict.new look.new) }
{
    let reply = match dict.stage(key, count) {
        Ok(()) => PlainReply::Stored,
        Err(StageRefusal::Full) => return Ok(PlainReply::Full),
        Err(StageRefusal::NumbersSpent) => unreachable!(),
        Err(StageRefusal::NoSpace) => PlainReply::NoSpace,
    };
    look.look(dict.arena().pmem())?;
    Ok(reply)
}

// Fills the block at the stage and publishes it, and frees what is stale then.
fn store<P: Pmem, L: Look<P>>(
    dict: &mut Dict<P>,
    value: &[u64],
    look: &mut L,
) -> Result<(), OutOfMemory>
    requires { IsStagedFor dict.old.phase (length value.now) }
    ensures kept { IsKept dict.new }
    ensures filled { OnOk result (IsFilled L.sees value.now dict.old look.old dict.new look.new) }
{
    dict.fill(value);
    look.look(dict.arena().pmem())?;
    show(dict, look)
}

// Publishes the pair at the stage, and frees what is stale then.
fn show<P: Pmem, L: Look<P>>(dict: &mut Dict<P>, look: &mut L) -> Result<(), OutOfMemory>
    requires { HasFilledPhase dict.old.phase }
    ensures kept { IsKept dict.new }
    ensures shown { OnOk result (IsShown L.sees dict.old look.old dict.new look.new) }
{
    dict.publish();
    look.look(dict.arena().pmem())?;
    clear(dict, look)
}

// Frees the lowest stale root, if one is.
fn clear<P: Pmem, L: Look<P>>(dict: &mut Dict<P>, look: &mut L) -> Result<(), OutOfMemory>
    ensures kept { IsKept dict.new }
    ensures cleared { OnOk result (IsCleared L.sees dict.old look.old dict.new look.new) }
{
    if dict.tidy() {
        look.look(dict.arena().pmem())?;
    }
    Ok(())
}

// A key goes, with its value, where it is there.
fn remove<P: Pmem, L: Look<P>>(
    dict: &mut Dict<P>,
    key: u64,
    look: &mut L,
) -> Result<PlainReply, OutOfMemory>
    requires { IsReady dict.old }
    ensures kept { IsKept dict.new }
    ensures removed { IfOk result (IsRemovedBy L.sees key dict.old look.old dict.new look.new) }
{
    match dict.remove(key) {
        Ok(()) => {
            look.look(dict.arena().pmem())?;
            Ok(PlainReply::Removed)
        }
        Err(_) => Ok(PlainReply::Absent),
    }
}
