// The words of the program.
ghost use Rattle.std.specs.Prelude.{◌≡◌, [], ◌∷◌, codes, map, string_bytes, MatchOption};
ghost use Rattle.nvheap.specs.Command.{meaning_of, IsCommand, IsNoCommand};

use program_io::{Kind, is_word};
use trace_text::whole_number;

/// What the words after the program's name ask for.
#[derive(Clone, Copy)]
pub enum Command {
    /// Run a trace and print its report.
    Replay,
    /// Run a trace and write the image that it leaves.
    Image,
    /// Check the image of a pool, and print what each of its arenas has.
    Check,
    /// Recover the image of a pool, and print the heap of each of its arenas.
    Recover,
    /// Run a trace on one arena, from 0 to 15, up to an event, and print the heap that a crash leaves there.
    Crash { arena: u32, event: u64, seed: u64 },
    /// Run so many generated calls, from 1 to 1,000,000, and print what they came to.
    Gen { count: u32, seed: u64 },
    /// Migrate the image of a pool of version 1, and write that of the pool of version 2.
    Migrate,
    /// Run a script on a dictionary, and print what its lines came to and the map behind them.
    Dict,
    /// Run a script up to an event, and print the map that a crash leaves.
    DictCrash { event: u64, seed: u64 },
    /// Have a server of arenas run a trace, and print its report.
    Serve,
    /// Run a trace without moves on arenas of the GC variant, and print its report.
    Gc,
    /// Run a trace without moves on one arena of the GC variant, from 0 to 15, up to an event, and print the heap that a crash
    /// leaves there.
    GcCrash { arena: u32, event: u64, seed: u64 },
}

const MOST_CALLS: u64 = 1_000_000;

impl Command {
    /// The kind of input that it reads; none where it reads none.
    pub(crate) fn reads(self) -> Option<Kind>
        ensures { result ≡ (meaning_of self).reads }
    {
        match self {
            Command::Replay | Command::Image | Command::Crash { .. } => Some(Kind::Text),
            Command::Dict | Command::DictCrash { .. } | Command::Serve => Some(Kind::Text),
            Command::Gc | Command::GcCrash { .. } => Some(Kind::Text),
            Command::Check | Command::Recover | Command::Migrate => Some(Kind::Image),
            Command::Gen { .. } => None,
        }
    }
}

/// The command that the words say, if they say one.
pub(crate) fn command_of(words: &[String]) -> Option<Command>
    ensures { MatchOption result (IsNoCommand (map string_bytes words.now)) (IsCommand (map string_bytes words.now)) }
{
    if words.len() == 1 {
        return plain_command(&words[0]);
    }
    if words.len() == 3 {
        return with_two(&words[0], words[1].as_bytes(), words[2].as_bytes());
    }
    if words.len() == 4 {
        return with_three(
            &words[0],
            words[1].as_bytes(),
            words[2].as_bytes(),
            words[3].as_bytes(),
        );
    }
    None
}

// The command that one word says.
fn plain_command(word: &String) -> Option<Command>
    ensures { MatchOption result (IsNoCommand (string_bytes word.now ∷ [])) (IsCommand (string_bytes word.now ∷ [])) }
{
    if is_word(word, "replay") {
        return Some(Command::Replay);
    }
    if is_word(word, "image") {
        return Some(Command::Image);
    }
    if is_word(word, "check") {
        return Some(Command::Check);
    }
    if is_word(word, "recover") {
        return Some(Command::Recover);
    }
    if is_word(word, "migrate") {
        return Some(Command::Migrate);
    }
    if is_word(word, "dict") {
        return Some(Command::Dict);
    }
    if is_word(word, "serve") {
        return Some(Command::Serve);
    }
    if is_word(word, "gc") {
        return Some(Command::Gc);
    }
    None
}

// The command that a word and two others say.
fn with_two(word: &String, first: &[u8], second: &[u8]) -> Option<Command>
    ensures { MatchOption result (IsNoCommand (string_bytes word.now ∷ first.now ∷ second.now ∷ [])) (IsCommand (string_bytes word.now ∷ first.now ∷ second.now ∷ [])) }
{
    if is_word(word, "gen") {
        return gen_of(first, second);
    }
    if is_word(word, "dict-crash") {
        return dict_crash_of(first, second);
    }
    None
}

// The command that a word and three others say.
fn with_three(word: &String, first: &[u8], second: &[u8], third: &[u8]) -> Option<Command>
    ensures { MatchOption result (IsNoCommand (string_bytes word.now ∷ first.now ∷ second.now ∷ third.now ∷ [])) (IsCommand (string_bytes word.now ∷ first.now ∷ second.now ∷ third.now ∷ [])) }
{
    if is_word(word, "crash") {
        return crash_of(first, second, third);
    }
    if is_word(word, "gc-crash") {
        return gc_crash_of(first, second, third);
    }
    None
}

// The crash that these three numbers ask for, if they are numbers.
fn crash_of(arena: &[u8], event: &[u8], seed: &[u8]) -> Option<Command>
    ensures { MatchOption result (IsNoCommand (codes "crash" ∷ arena.now ∷ event.now ∷ seed.now ∷ [])) (IsCommand (codes "crash" ∷ arena.now ∷ event.now ∷ seed.now ∷ [])) }
{
    let arena = whole_number(arena, 15)?;
    let event = whole_number(event, u64::MAX)?;
    let seed = whole_number(seed, u64::MAX)?;
    Some(Command::Crash {
        arena: arena as u32,
        event,
        seed,
    })
}

// The crash of an arena of the GC variant that these three numbers ask for, if they are numbers.
fn gc_crash_of(arena: &[u8], event: &[u8], seed: &[u8]) -> Option<Command>
    ensures { MatchOption result (IsNoCommand (codes "gc-crash" ∷ arena.now ∷ event.now ∷ seed.now ∷ [])) (IsCommand (codes "gc-crash" ∷ arena.now ∷ event.now ∷ seed.now ∷ [])) }
{
    let arena = whole_number(arena, 15)?;
    let event = whole_number(event, u64::MAX)?;
    let seed = whole_number(seed, u64::MAX)?;
    Some(Command::GcCrash {
        arena: arena as u32,
        event,
        seed,
    })
}

// The crash of a script that these two numbers ask for, if they are numbers.
fn dict_crash_of(event: &[u8], seed: &[u8]) -> Option<Command>
    ensures { MatchOption result (IsNoCommand (codes "dict-crash" ∷ event.now ∷ seed.now ∷ [])) (IsCommand (codes "dict-crash" ∷ event.now ∷ seed.now ∷ [])) }
{
    let event = whole_number(event, u64::MAX)?;
    let seed = whole_number(seed, u64::MAX)?;
    Some(Command::DictCrash { event, seed })
}

// The generated work that these two numbers ask for, if they are numbers, and not of no calls.
fn gen_of(count: &[u8], seed: &[u8]) -> Option<Command>
    ensures { MatchOption result (IsNoCommand (codes "gen" ∷ count.now ∷ seed.now ∷ [])) (IsCommand (codes "gen" ∷ count.now ∷ seed.now ∷ [])) }
{
    let count = whole_number(count, MOST_CALLS)?;
    let seed = whole_number(seed, u64::MAX)?;
    if count == 0 {
        return None;
    }
    Some(Command::Gen {
        count: count as u32,
        seed,
    })
}
