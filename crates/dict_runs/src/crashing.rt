// What a crash leaves after a chosen event of the calls of a script.
ghost use Rattle.std.specs.Prelude.{◌≡◌, ◌↔◌, ◌≤◌, [], length, None, IsTrue, IfOk, IfErr};
ghost use Rattle.trace_runs.specs.Arenas.{formatted};
ghost use Rattle.attach_dict.specs.Dict.{IsSteadyDict};
ghost use Rattle.dict_text.specs.Script.{IsDictSize};
ghost use Rattle.dict_text.specs.Calls.{calls_of, call_of, HasValues, HasWordsOf};
ghost use Rattle.dict_runs.specs.Crashes.{IfNoEvent};
ghost use Rattle.dict_runs.specs.Scripts.{header_of};
ghost use Rattle.dict_runs.specs.Turns.{IsNewDict};
ghost use Rattle.dict_runs.specs.Watching.{IsCrashed, HasSteadyDict, ChangesNothing, IsSideOf, IsSideIn, IsSought};

use crate::dicts::new_dict;
use crate::making::make_call;
use crate::watching::Watch;
use attach_dict::Dict;
use dict_text::{Script, ScriptCall};
use pmem_lines::{OutOfMemory, Pmem, SimPmem};
use pool_layout::layout_of;
use std::alloc::Global;
use trace_crashes::CrashFault;
use trace_text::CrashSide;

/// The bytes of a granule, in lines.
const GRANULE_LINES: u32 = 256;

/// What a crash left: the number of the script's call under way, counted from 1, and the image. With no call under way the number
/// is 0 and the image is the formatted one.
#[derive(Drop)]
pub struct DictCrashed {
    pub call: u64,
    pub image: Vec<u64>,
    // The call is a put of what its key has already.
    pub(crate) same: bool,
}

/// Where an event of the calls of a script lies.
#[derive(Drop)]
pub(crate) enum Sought {
    /// In this call.
    UnderWay(DictCrashed),
    /// In none: so many events are to come behind all calls.
    Past { left: u64 },
}

/// What a crash leaves after the first `event` events of the calls of a script, as a generator from `seed` picks. The calls are
/// made on a simulated device, in order, up to and with the one that is under way. `NoEvent` comes exactly where they have fewer
/// events.
pub fn crash_script(
    alloc: Global,
    script: &Script,
    event: u64,
    seed: u64,
) -> Result<DictCrashed, CrashFault>
    requires size { IsDictSize script.now.granules }
    requires values { HasValues script.now }
    ensures crashed { IfOk result (IsCrashed script.now.granules (calls_of script.now) event seed) }
    ensures steady { IfOk result (λ crashed. HasSteadyDict crashed.image.items) }
    ensures call { IfOk result (λ crashed. crashed.call ≤ length script.now.calls.items) }
    ensures fault { IfErr result (IfNoEvent script.now.granules (calls_of script.now) event) }
{
    match seek(alloc, script, event, seed)? {
        Sought::UnderWay(crashed) => Ok(crashed),
        Sought::Past { left } if left > 0 => Err(CrashFault::NoEvent {
            events: event - left,
        }),
        Sought::Past { .. } => Ok(left_idle(alloc, script.granules)?),
    }
}

// Makes the calls of a script on a new dictionary, up to and with the one under way at an event.
fn seek(alloc: Global, script: &Script, event: u64, seed: u64) -> Result<Sought, OutOfMemory>
    requires size { IsDictSize script.now.granules }
    requires values { HasValues script.now }
    ensures { IfOk result (IsSought script.now.granules (calls_of script.now) event seed) }
{
    let mut dict = format_new(alloc, script.granules)?;
    let sought = seek_in(&mut dict, script, Watch::new(alloc, event, seed));
    drop(dict);
    sought
}

// The dictionary of a new arena of so many granules, on a simulated device.
fn format_new(alloc: Global, granules: u32) -> Result<Dict<SimPmem>, OutOfMemory>
    requires { IsDictSize granules }
    ensures { IfOk result (IsNewDict granules) }
{
    let device = SimPmem::zeroed(alloc, GRANULE_LINES * granules, layout_of(1).room)?;
    new_dict(alloc, device, granules)
}

// The search in a new dictionary, by a watch that has seen no call.
fn seek_in(
    dict: &mut Dict<SimPmem>,
    script: &Script,
    mut watch: Watch,
) -> Result<Sought, OutOfMemory>
    requires new { IsNewDict script.now.granules dict.old }
    requires values { HasValues script.now }
    requires image { watch.image ≡ None }
    ensures { IfOk result (IsSought script.now.granules (calls_of script.now) watch.left watch.seed) }
{
    for (i, call) in script.calls.iter().enumerate() {
        let same = changes_nothing(dict, call, &script.values);
        make_call(dict, call, &script.values, &mut watch)?;
        if let Some(image) = watch.image.take() {
            return Ok(Sought::UnderWay(DictCrashed {
                call: i as u64 + 1,
                image,
                same,
            }));
        }
    }
    Ok(Sought::Past { left: watch.left })
}

// What is left with no call under way: an arena as it is formatted.
fn left_idle(alloc: Global, granules: u32) -> Result<DictCrashed, OutOfMemory>
    requires { IsDictSize granules }
    ensures idle { IfOk result (λ crashed. crashed.call ≡ 0) }
    ensures image { IfOk result (λ crashed. crashed.image.items ≡ formatted (header_of granules)) }
    ensures steady { IfOk result (λ crashed. IsSteadyDict [] crashed.image.items) }
{
    let device = format_new(alloc, granules)?.into_arena().into_pmem();
    Ok(DictCrashed {
        call: 0,
        image: copy_of(alloc, device.words(0, device.size_words()))?,
        same: false,
    })
}

// A copy of these words.
fn copy_of(alloc: Global, words: &[u64]) -> Result<Vec<u64>, OutOfMemory>
    ensures { IfOk result (λ copy. copy.items ≡ words.now) }
{
    Ok(words.to_vec(alloc)?)
}

// The call is a put of what its key has.
fn changes_nothing<P: Pmem>(dict: &Dict<P>, call: &ScriptCall, values: &[u64]) -> bool
    requires { HasWordsOf values.now call.now }
    ensures { IsTrue result ↔ ChangesNothing dict.now.pairs (call_of values.now call.now) }
{
    let ScriptCall::Put { key, from, count } = *call else {
        return false;
    };
    match dict.get(key) {
        Some(value) => value == &values[from..from + count as usize],
        None => false,
    }
}

// The side of a call that changes the map, on which the map of a dictionary stands.
fn side_of<P: Pmem>(call: &ScriptCall, values: &[u64], dict: &Dict<P>) -> CrashSide
    requires { HasWordsOf values.now call.now }
    ensures { IsSideOf (call_of values.now call.now) dict.now.pairs result }
{
    let is_done = match *call {
        ScriptCall::Put { .. } => changes_nothing(dict, call, values),
        ScriptCall::Del { key } => dict.get(key).is_none(),
        ScriptCall::Get { .. } => return CrashSide::Same,
    };
    if is_done {
        CrashSide::After
    } else {
        CrashSide::Before
    }
}

impl DictCrashed {
    /// On which side of the call under way the map of a dictionary stands, which was opened over the image.
    pub(crate) fn side_in<P: Pmem>(&self, script: &Script, dict: &Dict<P>) -> CrashSide
        requires values { HasValues script.now }
        requires call { self.now.call ≤ length script.now.calls.items }
        ensures { IsSideIn self.now (calls_of script.now) dict.now.pairs result }
    {
        if self.call == 0 || self.same {
            return CrashSide::Same;
        }
        side_of(&script.calls[self.call as usize - 1], &script.values, dict)
    }
}
