// The words of the program.
ghost use Rattle.std.specs.Prelude.{◌≡◌, [], ◌∷◌, codes, map, string_bytes, MatchOption};
ghost use Rattle.nvpool.specs.Command.{meaning_of, IsCommand, IsNoCommand};

use program_io::{Kind, is_word};
use trace_text::whole_number;

/// What the words after the program's name ask for.
#[derive(Clone, Copy)]
pub enum Command {
    /// Print a picture of the granules of each arena, as a page of SVG.
    Map,
    /// Print a letter for each granule of each arena, and their numbers.
    Text,
    /// Print the numbers of each arena.
    Info,
    /// Print the words of the block of a root, below 65536, of an arena, from 0 to 15.
    Dump { arena: u32, root: u32 },
    /// Run a trace on one arena, from 0 to 15, up to an event, and on the others whole, and write the image that a power cut
    /// leaves.
    Cut { arena: u32, event: u64, seed: u64 },
    /// Write the image with each arena recovered.
    Repair,
}

impl Command {
    /// The kind of input that it reads.
    pub(crate) fn reads(self) -> Kind
        ensures { result ≡ (meaning_of self).reads }
    {
        match self {
            Command::Map | Command::Text | Command::Info | Command::Dump { .. } | Command::Repair =>
                Kind::Image,
            Command::Cut { .. } => Kind::Text,
        }
    }
}

/// The command that the words say, if they say one.
pub(crate) fn command_of(words: &[String]) -> Option<Command>
    ensures { MatchOption result (IsNoCommand (map string_bytes words.now)) (IsCommand (map string_bytes words.now)) }
{
    if words.len() == 1 {
        return plain_command(&words[0]);
    }
    if words.len() == 3 && is_word(&words[0], "dump") {
        return dump_of(words[1].as_bytes(), words[2].as_bytes());
    }
    if words.len() == 4 && is_word(&words[0], "cut") {
        return cut_of(
            words[1].as_bytes(),
            words[2].as_bytes(),
            words[3].as_bytes(),
        );
    }
    None
}

// The command that one word says.
fn plain_command(word: &String) -> Option<Command>
    ensures { MatchOption result (IsNoCommand (string_bytes word.now ∷ [])) (IsCommand (string_bytes word.now ∷ [])) }
{
    if is_word(word, "map") {
        return Some(Command::Map);
    }
    if is_word(word, "text") {
        return Some(Command::Text);
    }
    if is_word(word, "info") {
        return Some(Command::Info);
    }
    if is_word(word, "repair") {
        return Some(Command::Repair);
    }
    None
}

// The words of a block that these two numbers ask for, if they are numbers.
fn dump_of(arena: &[u8], root: &[u8]) -> Option<Command>
    ensures { MatchOption result (IsNoCommand (codes "dump" ∷ arena.now ∷ root.now ∷ [])) (IsCommand (codes "dump" ∷ arena.now ∷ root.now ∷ [])) }
{
    let arena = whole_number(arena, 15)?;
    let root = whole_number(root, 65535)?;
    Some(Command::Dump {
        arena: arena as u32,
        root: root as u32,
    })
}

// The power cut that these three numbers ask for, if they are numbers.
fn cut_of(arena: &[u8], event: &[u8], seed: &[u8]) -> Option<Command>
    ensures { MatchOption result (IsNoCommand (codes "cut" ∷ arena.now ∷ event.now ∷ seed.now ∷ [])) (IsCommand (codes "cut" ∷ arena.now ∷ event.now ∷ seed.now ∷ [])) }
{
    let arena = whole_number(arena, 15)?;
    let event = whole_number(event, u64::MAX)?;
    let seed = whole_number(seed, u64::MAX)?;
    Some(Command::Cut {
        arena: arena as u32,
        event,
        seed,
    })
}
