// The top call.
ghost use Rattle.std.specs.Prelude.{◌≡◌, ◌≢◌, ◌↔◌, ◌⊎◌, ℕ, List, Option, None, IsTrue, map, string_bytes};
ghost use Rattle.nvheap.specs.Outside.{told_by};
ghost use Rattle.program_io.specs.Streams.{Rose};
ghost use Rattle.nvheap.specs.Generating.{generating};
ghost use Rattle.nvheap.specs.Reporting.{reporting, seats_of};
ghost use Rattle.nvheap.specs.Command.{meaning_of, IsNoCommand, IsSaid};
ghost use Rattle.nvheap.specs.Ends.{Ends, HasAcceptable, IsSilent, IsAside};

use crate::answers::answer_to;
use crate::command::{Command, command_of};
use crate::generating::gen_answer;
use crate::input::input_of;
use crate::reporting::{Crew, report_answer};
use crate::shelf::Shelf;
use program_io::{Input, Sink, Source, Status, write_answer};
use shared_pool::Gate;
use std::alloc::Global;
use std::sync::Wait;
use std::thread::Threads;

/// Does all that the program does: reads the words, then all of the source where the command reads one, runs the command, and
/// then writes. `words` are the words after the program's name.
///
/// `Usage` comes exactly where the words say no command. The other answers come in the order `ReadFault`, `TooLong`,
/// `Refused`, `WriteFault`, `Done`, each where no earlier one came; `Memory` may stand in the place of any of them.
pub fn run<R: Threads + Wait + Sync, S: Source, K: Sink, G: Gate + Sync, H: Shelf>(
    rt: &R,
    alloc: Global,
    words: &[String],
    source: &mut S,
    sink: &mut K,
    gate: &G,
    shelf: &mut H,
) -> Status
    ensures usage { (result ≡ Status.Usage) ↔ IsNoCommand (map string_bytes words.now) }
    ensures untouched { result ≡ Status.Usage → (source.new ≡ source.old) × (sink.new ≡ sink.old) × (shelf.new ≡ shelf.old) }
    ensures done { let told = told_by S.left K.taken H.places H.images in
        result ≡ Status.Done → IsSaid (map string_bytes words.now) (λ m. Ends m (told source.old sink.old shelf.old) (told source.new sink.new shelf.new) Status.Done) }
    ensures refused { let told = told_by S.left K.taken H.places H.images in
        result ≡ Status.Refused → IsSaid (map string_bytes words.now) (λ m. Ends m (told source.old sink.old shelf.old) (told source.new sink.new shelf.new) Status.Refused) }
    ensures read_fault { result ≡ Status.ReadFault → Rose (S.faults source.old) (S.faults source.new) }
    ensures within_limit { let told = told_by S.left K.taken H.places H.images in
        result ≡ Status.ReadFault → IsSaid (map string_bytes words.now) (λ m. Ends m (told source.old sink.old shelf.old) (told source.new sink.new shelf.new) Status.ReadFault) }
    ensures write_fault { result ≡ Status.WriteFault → Rose (K.faults sink.old) (K.faults sink.new) }
    ensures cut_short { let told = told_by S.left K.taken H.places H.images in
        result ≡ Status.WriteFault → IsSaid (map string_bytes words.now) (λ m. Ends m (told source.old sink.old shelf.old) (told source.new sink.new shelf.new) Status.WriteFault) }
    ensures too_long { let told = told_by S.left K.taken H.places H.images in
        result ≡ Status.TooLong → IsSaid (map string_bytes words.now) (λ m. Ends m (told source.old sink.old shelf.old) (told source.new sink.new shelf.new) Status.TooLong) }
    ensures unfailed { result ≡ Status.TooLong → S.faults source.new ≡ S.faults source.old }
    ensures complete { IsSaid (map string_bytes words.now) (λ m. HasAcceptable m (S.left source.old)) → ¬ (Rose (S.faults source.old) (S.faults source.new)) → ¬ (Rose (K.faults sink.old) (K.faults sink.new)) →
        (result ≡ Status.Done) ⊎ (result ≡ Status.Memory) }
    ensures silent { IsSilent result → sink.new ≡ sink.old }
    ensures aside { IsAside result → H.places shelf.new ≡ H.places shelf.old }
    ensures idle { IsSaid (map string_bytes words.now) (λ m. IsTrue m.idle) → shelf.new ≡ shelf.old }
    ensures images { ¬ (IsSaid (map string_bytes words.now) (λ m. IsTrue m.recovers)) → H.images shelf.new ≡ H.images shelf.old }
    ensures unread { IsSaid (map string_bytes words.now) (λ m. m.reads ≡ None) → source.new ≡ source.old }
{
    let Some(command) = command_of(words) else {
        return Status::Usage;
    };
    match command {
        Command::Replay => run_report(rt, alloc, Crew::Workers, source, sink, gate, shelf),
        Command::Serve => run_report(rt, alloc, Crew::Owners, source, sink, gate, shelf),
        Command::Gen { count, seed } => run_gen(rt, alloc, count, seed, sink, gate, shelf),
        _ => run_returning(alloc, command, source, sink, shelf),
    }
}

// Runs `replay` or `serve`, which may wait.
fn run_report<R: Threads + Wait + Sync, S: Source, K: Sink, G: Gate + Sync, H: Shelf>(
    rt: &R,
    alloc: Global,
    crew: Crew,
    source: &mut S,
    sink: &mut K,
    gate: &G,
    shelf: &mut H,
) -> Status
    ensures ends { let told = told_by S.left K.taken H.places H.images in
        Ends (reporting (seats_of crew)) (told source.old sink.old shelf.old) (told source.new sink.new shelf.new) result }
    ensures read_fault { result ≡ Status.ReadFault → Rose (S.faults source.old) (S.faults source.new) }
    ensures unfailed { result ≡ Status.TooLong → S.faults source.new ≡ S.faults source.old }
    ensures write_fault { result ≡ Status.WriteFault → Rose (K.faults sink.old) (K.faults sink.new) }
    ensures silent { IsSilent result → sink.new ≡ sink.old }
    ensures aside { IsAside result → H.places shelf.new ≡ H.places shelf.old }
    ensures images { H.images shelf.new ≡ H.images shelf.old }
{
    let text = match input_of(alloc, Command::Replay, source) {
        Ok(Input::Text(text)) => text,
        Ok(Input::Image { .. }) => unreachable!(),
        Err(status) => return status,
    };
    match report_answer(rt, alloc, crew, text, gate, shelf) {
        Ok(answer) => write_answer(sink, &answer),
        Err(_) => Status::Memory,
    }
}

// Runs `gen`, which may wait. It reads no input.
fn run_gen<R: Threads + Wait + Sync, K: Sink, G: Gate + Sync, H: Shelf>(
    rt: &R,
    alloc: Global,
    count: u32,
    seed: u64,
    sink: &mut K,
    gate: &G,
    shelf: &mut H,
) -> Status
    ensures ends { let told = told_by (λ (left : Option (List ℕ)). left) K.taken H.places H.images in
        (left : Option (List ℕ)) → Ends (generating count seed) (told left sink.old shelf.old) (told left sink.new shelf.new) result }
    ensures write_fault { result ≡ Status.WriteFault → Rose (K.faults sink.old) (K.faults sink.new) }
    ensures silent { IsSilent result → sink.new ≡ sink.old }
    ensures aside { IsAside result → H.places shelf.new ≡ H.places shelf.old }
    ensures images { H.images shelf.new ≡ H.images shelf.old }
{
    match gen_answer(rt, alloc, count, seed, gate, shelf) {
        Ok(answer) => write_answer(sink, &answer),
        Err(_) => Status::Memory,
    }
}

// Runs one of the other commands. They wait for nobody.
fn run_returning<S: Source, K: Sink, H: Shelf>(
    alloc: Global,
    command: Command,
    source: &mut S,
    sink: &mut K,
    shelf: &mut H,
) -> Status
    requires returns { ¬ (IsTrue (meaning_of command).waits) }
    requires reads { (meaning_of command).reads ≢ None }
    ensures ends { let told = told_by S.left K.taken H.places H.images in
        Ends (meaning_of command) (told source.old sink.old shelf.old) (told source.new sink.new shelf.new) result }
    ensures read_fault { result ≡ Status.ReadFault → Rose (S.faults source.old) (S.faults source.new) }
    ensures unfailed { result ≡ Status.TooLong → S.faults source.new ≡ S.faults source.old }
    ensures write_fault { result ≡ Status.WriteFault → Rose (K.faults sink.old) (K.faults sink.new) }
    ensures silent { IsSilent result → sink.new ≡ sink.old }
    ensures aside { IsAside result → H.places shelf.new ≡ H.places shelf.old }
    ensures images { ¬ (IsTrue (meaning_of command).recovers) → H.images shelf.new ≡ H.images shelf.old }
    ensures idle { IsTrue (meaning_of command).idle → shelf.new ≡ shelf.old }
    ensures unread { (meaning_of command).reads ≡ None → source.new ≡ source.old }
{
    let input = match input_of(alloc, command, source) {
        Ok(input) => input,
        Err(status) => return status,
    };
    match answer_to(alloc, command, &input, shelf) {
        Ok(answer) => write_answer(sink, &answer),
        Err(_) => Status::Memory,
    }
}
