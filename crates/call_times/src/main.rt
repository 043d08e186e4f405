// The program `call_times`: how long the calls of a trace take alone, without the reading of its text and the report of its
// journals. The trace comes on standard input. The word `workers` has a worker for each thread make the calls, through the
// locks of a pool, as `replay` does; the word `alone` has one caller make them in the order of the lines, without a pool; and the
// word `queue` has one caller send each to the queue of a server's one arena, and then the arena's owner serve it.
// Standard output has the number of calls of each arena, standard error the time. The word `events` times nothing: it has the
// calls made on the one arena, and standard output has their events, as `event_text` says. It serves `bench/`, and nothing of
// it is promised but that it is safe.
#![tactic(auto)]

mod event_text;

ghost use Rattle.std.specs.Prelude.{◌≡◌, ◌<◌, ◌^◌, false, length, IfOk};
ghost use Rattle.std.specs.List.{All};
ghost use Rattle.shared_pool.specs.Passes.{part_at};
ghost use Rattle.arena_server.specs.Servers.{IsSenderOf, IsOwnerOf};
ghost use Rattle.trace_text.specs.Grammar.{pool_of, IsPool, IsTraceCall};

use arena_core::Arena;
use arena_journal::answer;
use arena_server::{Owner, Sender, Server};
use event_text::write_calls;
use heap_model::Entry;
use pmem_lines::{OutOfMemory, SimPmem};
use pool_layout::layout_of;
use shared_pool::OpenGate;
use single_server::{Single, open_one};
use std::alloc::{AllocError, Global};
use std::io::{Read, Write};
use std::process::ExitCode;
use std::rt::Runtime;
use std::sync::Wait;
use std::thread::Threads;
use std::time::Instant;
use std::{env, io};
use trace_runs::new_arena;
use trace_text::{TextFault, Trace, TraceCall, read_trace};
use trace_workers::make_calls;

const GRANULE_LINES: u32 = 256;

const LONGEST: usize = 67_108_864;

const QUEUE_ROOM: u32 = 1024;

/// Who makes the calls.
#[derive(Clone, Copy)]
enum Caller {
    Workers,
    Alone,
    Queue,
}

/// What is to be done with a trace.
#[derive(Clone, Copy)]
enum Task {
    Time(Caller),
    Events,
}

/// Why there is no time.
#[derive(Debug, Drop)]
enum Fault {
    Usage,
    Outside,
    Memory,
    NoTrace,
}

impl From<AllocError> for Fault {
    fn from(_error: AllocError) -> Self {
        Fault::Memory
    }
}

impl From<OutOfMemory> for Fault {
    fn from(_error: OutOfMemory) -> Self {
        Fault::Memory
    }
}

impl From<io::Error> for Fault {
    fn from(_error: io::Error) -> Self {
        Fault::Outside
    }
}

impl From<TextFault> for Fault {
    fn from(fault: TextFault) -> Self {
        match fault {
            TextFault::Memory(_) => Fault::Memory,
            TextFault::BadLine { .. } => Fault::NoTrace,
        }
    }
}

/// The task that the words name.
fn task_named<R: Runtime>(rt: &R) -> Result<Task, Fault> {
    let mut words = env::args(rt)?.skip(1);
    let (Some(word), None) = (words.next(), words.next()) else {
        return Err(Fault::Usage);
    };
    match word.as_str() {
        "workers" => Ok(Task::Time(Caller::Workers)),
        "alone" => Ok(Task::Time(Caller::Alone)),
        "queue" => Ok(Task::Time(Caller::Queue)),
        "events" => Ok(Task::Events),
        _ => Err(Fault::Usage),
    }
}

/// The trace of a reader's text.
fn trace_of<S: Read + Drop>(mut input: S, alloc: Global) -> Result<Trace, Fault>
    ensures pool { IfOk result (λ trace. IsPool (pool_of trace)) }
    ensures each { IfOk result (λ trace. All (IsTraceCall trace.arenas) trace.calls.items) }
    ensures few { IfOk result (λ trace. length trace.calls.items < 2 ^ 32) }
{
    let mut text = Vec::new(alloc);
    input.read_to_end(&mut text)?;
    if text.len() > LONGEST {
        return Err(Fault::NoTrace);
    }
    Ok(read_trace(alloc, &text)?)
}

/// The arenas of a trace's pool, over simulated devices.
#[tactic(auto, using(trace_text::proofs::Pools::pool_least, trace_text::proofs::Pools::pool_most))]
fn arenas_for(alloc: Global, trace: &Trace) -> Result<Vec<Arena<SimPmem>>, OutOfMemory>
    requires { IsPool (pool_of trace.now) }
    ensures { IfOk result (λ arenas. length arenas.items ≡ trace.now.arenas) }
{
    let pool = trace.pool();
    let room = layout_of(pool.version).room;
    let mut arenas = Vec::new(alloc);
    for number in 0..pool.arenas {
        let device = SimPmem::zeroed(alloc, GRANULE_LINES * pool.granules, room)?;
        arenas.push(new_arena(alloc, device, pool, number)?)?;
    }
    Ok(arenas)
}

/// Has a worker for each thread make the calls, and gives the number of entries of each journal.
fn by_workers<R: Threads + Wait + Sync>(
    rt: &R,
    alloc: Global,
    trace: &Trace,
    arenas: Vec<Arena<SimPmem>>,
) -> Result<Vec<usize>, OutOfMemory>
    requires pool { IsPool (pool_of trace.now) }
    requires each { All (IsTraceCall trace.now.arenas) trace.now.calls.items }
    requires few { length trace.now.calls.items < 2 ^ 32 }
    requires all { length arenas.items ≡ trace.now.arenas }
{
    let ended = make_calls(rt, alloc, trace, arenas, &OpenGate)?;
    let mut counts = Vec::new(alloc);
    for closed in ended.closed.iter() {
        counts.push(closed.journal.len())?;
    }
    Ok(counts)
}

/// Makes the calls in the order of the lines, and gives the number of entries of each arena.
fn by_one_caller(
    alloc: Global,
    trace: &Trace,
    mut arenas: Vec<Arena<SimPmem>>,
) -> Result<Vec<usize>, OutOfMemory> {
    let mut journals = empty_journals(alloc, arenas.len())?;
    make_each(&mut arenas, &mut journals, &trace.calls)?;
    lengths(alloc, &journals)
}

fn empty_journals(alloc: Global, arenas: usize) -> Result<Vec<Vec<Entry>>, OutOfMemory> {
    let mut journals = Vec::new(alloc);
    for _ in 0..arenas {
        journals.push(Vec::new(alloc))?;
    }
    Ok(journals)
}

fn make_each(
    arenas: &mut [Arena<SimPmem>],
    journals: &mut [Vec<Entry>],
    calls: &[TraceCall],
) -> Result<(), OutOfMemory> {
    for call in calls {
        let at = call.arena as usize;
        if let (Some(arena), Some(journal)) = (arenas.get_mut(at), journals.get_mut(at)) {
            journal.push(answer(arena, call.thread % 64, call.call))?;
        }
    }
    Ok(())
}

fn lengths(alloc: Global, journals: &[Vec<Entry>]) -> Result<Vec<usize>, OutOfMemory> {
    let mut counts = Vec::new(alloc);
    for journal in journals {
        counts.push(journal.len())?;
    }
    Ok(counts)
}

/// Has the owner of the one arena serve the calls, each once it was sent, and gives the number of entries.
fn by_queue<R: Wait>(
    rt: &R,
    alloc: Global,
    trace: &Trace,
    mut arenas: Vec<Arena<SimPmem>>,
) -> Result<Vec<usize>, OutOfMemory>
    requires one { length arenas.items ≡ 1 }
    requires few { length trace.now.calls.items < 2 ^ 32 }
{
    let Single {
        server,
        mut sender,
        mut owner,
    } = open_one(alloc, arenas.remove(0), QUEUE_ROOM)?;
    let served = serve_each(rt, alloc, &server, &mut sender, &mut owner, &trace.calls);
    let mut counts = Vec::new(alloc);
    counts.push(served)?;
    Ok(counts)
}

/// Sends each call to the first arena, and has its owner serve it. How many were served before memory ran out.
fn serve_each<R: Wait>(
    rt: &R,
    alloc: Global,
    server: &Server<SimPmem>,
    sender: &mut Sender,
    owner: &mut Owner,
    calls: &[TraceCall],
) -> usize
    requires sender { IsSenderOf server.now sender.old × (0 < length server.now.queues) }
    requires owner { IsOwnerOf server.now owner.old × (owner.old.skipped ≡ false) }
    requires turns { length calls.now < (part_at owner.old.pass owner.old.pass.number).turns }
{
    let mut served = 0;
    for call in calls {
        server.send(rt, sender, 0, call.call);
        if server.serve_one(rt, alloc, owner).is_err() {
            break;
        }
        served += 1;
    }
    served
}

/// Does what the words say with the trace of the input. Events are written to the sink.
fn do_task<R: Runtime + Threads + Wait + Sync, S: Read + Drop, W: Write>(
    rt: &R,
    alloc: Global,
    input: S,
    sink: &mut W,
) -> Result<(), Fault> {
    let task = task_named(rt)?;
    let trace = trace_of(input, alloc)?;
    let mut arenas = arenas_for(alloc, &trace)?;
    match task {
        Task::Time(caller) => time_calls(rt, alloc, caller, &trace, arenas),
        Task::Events if arenas.len() == 1 => {
            write_calls(alloc, &mut arenas[0], &trace.calls, sink)
        }
        Task::Events => Err(Fault::NoTrace),
    }
}

/// Times the calls, and says how many each arena had.
fn time_calls<R: Runtime + Threads + Wait + Sync>(
    rt: &R,
    alloc: Global,
    caller: Caller,
    trace: &Trace,
    arenas: Vec<Arena<SimPmem>>,
) -> Result<(), Fault>
    requires pool { IsPool (pool_of trace.now) }
    requires each { All (IsTraceCall trace.now.arenas) trace.now.calls.items }
    requires few { length trace.now.calls.items < 2 ^ 32 }
    requires all { length arenas.items ≡ trace.now.arenas }
{
    let begun = Instant::now(rt)?;
    let counts = made_by(rt, alloc, caller, trace, arenas)?;
    let took = begun.elapsed(rt)?.as_nanos();
    report(rt, &counts, took, trace.calls.len())
}

/// Has the caller make the calls, and gives the number of entries of each arena.
fn made_by<R: Threads + Wait + Sync>(
    rt: &R,
    alloc: Global,
    caller: Caller,
    trace: &Trace,
    arenas: Vec<Arena<SimPmem>>,
) -> Result<Vec<usize>, Fault>
    requires pool { IsPool (pool_of trace.now) }
    requires each { All (IsTraceCall trace.now.arenas) trace.now.calls.items }
    requires few { length trace.now.calls.items < 2 ^ 32 }
    requires all { length arenas.items ≡ trace.now.arenas }
{
    match caller {
        Caller::Workers => Ok(by_workers(rt, alloc, trace, arenas)?),
        Caller::Alone => Ok(by_one_caller(alloc, trace, arenas)?),
        Caller::Queue if arenas.len() == 1 => Ok(by_queue(rt, alloc, trace, arenas)?),
        Caller::Queue => Err(Fault::NoTrace),
    }
}

/// Writes how many calls each arena had, and how long they took, in nanoseconds.
fn report<R: Runtime>(rt: &R, counts: &[usize], took: u128, calls: usize) -> Result<(), Fault> {
    for (arena, count) in counts.iter().enumerate() {
        println!(rt; "arena {arena} calls {count}")?;
    }
    let each = took / (calls as u128).max(1);
    eprintln!(rt; "{} ms, {each} ns a call", took / 1_000_000)?;
    Ok(())
}

fn main(rt: HostRuntime) -> ExitCode {
    let line = match do_task(&rt, rt.alloc(), rt.stdin(), &mut rt.stdout()) {
        Ok(()) => return ExitCode::SUCCESS,
        Err(Fault::Usage) => "usage: call_times workers, alone, queue, events",
        Err(Fault::Outside) => "read, write or clock fault",
        Err(Fault::Memory) => "out of memory",
        Err(Fault::NoTrace) => "no trace",
    };
    let _ = eprintln!(rt; "{line}");
    ExitCode::FAILURE
}
