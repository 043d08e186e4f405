// The top call.
ghost use Rattle.std.specs.Prelude.{◌≡◌, ◌≢◌, ◌↔◌, ◌⊎◌, ℕ, List, IfOk, map, string_bytes};
ghost use Rattle.program_io.specs.Streams.{Rose};
ghost use Rattle.nvpool.specs.Command.{meaning_of, IsNoCommand, IsSaid};
ghost use Rattle.program_io.specs.Inputs.{HasBytes, IsInput, IsOfKind};
ghost use Rattle.nvpool.specs.Ends.{told_by, Ends, HasAcceptable, IsSilent, IsAnswer};

use crate::command::{Command, command_of};
use crate::cutting::cut_answer;
use crate::dumping::dump_answer;
use crate::repairing::repair_answer;
use crate::telling::{Form, told_answer};
use pmem_lines::OutOfMemory;
use program_io::{Answer, Input, Sink, Source, Status, read_input, write_answer};
use std::alloc::Global;

/// Does all that the program does: reads the words, then all of the source, runs the command, and then writes. `words` are
/// the words after the program's name.
///
/// `Usage` comes exactly where the words say no command. The other answers come in the order `ReadFault`, `TooLong`,
/// `Refused`, `WriteFault`, `Done`, each where no earlier one came; `Memory` may stand in the place of any of them.
pub fn operate<S: Source, K: Sink>(
    alloc: Global,
    words: &[String],
    source: &mut S,
    sink: &mut K,
) -> Status
    ensures usage { (result ≡ Status.Usage) ↔ IsNoCommand (map string_bytes words.now) }
    ensures untouched { result ≡ Status.Usage → (source.new ≡ source.old) × (sink.new ≡ sink.old) }
    ensures ends { result ≢ Status.Usage → IsSaid (map string_bytes words.now) (λ m. Ends m (told_by S.left K.taken source.old sink.old) (told_by S.left K.taken source.new sink.new) result) }
    ensures read_fault { result ≡ Status.ReadFault → Rose (S.faults source.old) (S.faults source.new) }
    ensures write_fault { result ≡ Status.WriteFault → Rose (K.faults sink.old) (K.faults sink.new) }
    ensures unfailed { result ≡ Status.TooLong → S.faults source.new ≡ S.faults source.old }
    ensures complete { IsSaid (map string_bytes words.now) (λ m. HasAcceptable m (S.left source.old)) → ¬ (Rose (S.faults source.old) (S.faults source.new)) → ¬ (Rose (K.faults sink.old) (K.faults sink.new)) →
        (result ≡ Status.Done) ⊎ (result ≡ Status.Memory) }
    ensures silent { IsSilent result → sink.new ≡ sink.old }
{
    match command_of(words) {
        Some(command) => carry_out(alloc, command, source, sink),
        None => Status::Usage,
    }
}

// Runs a command.
fn carry_out<S: Source, K: Sink>(
    alloc: Global,
    command: Command,
    source: &mut S,
    sink: &mut K,
) -> Status
    ensures ends { Ends (meaning_of command) (told_by S.left K.taken source.old sink.old) (told_by S.left K.taken source.new sink.new) result }
    ensures read_fault { result ≡ Status.ReadFault → Rose (S.faults source.old) (S.faults source.new) }
    ensures write_fault { result ≡ Status.WriteFault → Rose (K.faults sink.old) (K.faults sink.new) }
    ensures unfailed { result ≡ Status.TooLong → S.faults source.new ≡ S.faults source.old }
    ensures silent { IsSilent result → sink.new ≡ sink.old }
{
    let input = match read_input(alloc, command.reads(), source) {
        Ok(input) => input,
        Err(status) => return status,
    };
    match answer_to(alloc, command, &input) {
        Ok(answer) => write_answer(sink, &answer),
        Err(_) => Status::Memory,
    }
}

// What a command has to say of its input.
fn answer_to(alloc: Global, command: Command, input: &Input) -> Result<Answer, OutOfMemory>
    requires fits { IsOfKind (meaning_of command).reads input.now }
    requires input { IsInput input.now }
    ensures { IfOk result (λ answer. (bytes : List ℕ) → HasBytes input.now bytes → IsAnswer (meaning_of command) bytes answer) }
{
    match (command, input) {
        (Command::Map, Input::Image { words, bytes }) => {
            told_answer(alloc, Form::Picture, words, *bytes)
        }
        (Command::Text, Input::Image { words, bytes }) => {
            told_answer(alloc, Form::Letters, words, *bytes)
        }
        (Command::Info, Input::Image { words, bytes }) => {
            told_answer(alloc, Form::Numbers, words, *bytes)
        }
        (Command::Dump { arena, root }, Input::Image { words, bytes }) => {
            dump_answer(alloc, words, *bytes, arena, root)
        }
        (Command::Cut { arena, event, seed }, Input::Text(text)) => {
            cut_answer(alloc, text, arena, event, seed)
        }
        (Command::Repair, Input::Image { words, bytes }) => repair_answer(alloc, words, *bytes),
        _ => unreachable!(),
    }
}
