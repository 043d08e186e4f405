// One line of a script.
ghost use Rattle.std.specs.Prelude.{◌≡◌, ◌≢◌, ℕ, List, ◌<◌, ◌^◌, ◌++◌, codes, decimal, IfOk, IfErr, MatchOption};
ghost use Rattle.trace_text.specs.Texts.{IfBadLine};
ghost use Rattle.dict_text.specs.Script.{DictCall, words_text, IsValue, IsDictLine, IsCallLine};
ghost use Rattle.dict_text.specs.Lines.{IsWordThen, AddsWords, ReadsCall};

use crate::ScriptCall;
use pmem_lines::OutOfMemory;
use pool_layout::layout_of;
use trace_text::{TextFault, after, read_number, whole_number};

/// The most words of a value.
const MOST_VALUES: u32 = 509;

/// The granules of the arena that a line says; none where it says none.
pub(crate) fn read_size(line: &[u8]) -> Option<u32>
    ensures { MatchOption result ((granules : ℕ) → ¬ (IsDictLine line.now granules)) (λ granules. IsDictLine line.now granules) }
{
    let layout = layout_of(1);
    let words = after(line, b"dict ")?;
    let granules = whole_number(words, u64::from(layout.most_granules))?;
    if granules < u64::from(layout.least_granules) {
        return None;
    }
    Some(granules as u32)
}

/// The word behind the space that a text begins with, and what follows it; none where the text begins with no such word.
fn read_word(text: &[u8]) -> Option<(u64, &[u8])>
    ensures { MatchOption result ((word : ℕ) (rest : List ℕ) → ¬ (IsWordThen text.now word rest)) (λ found. IsWordThen text.now found.0 found.1.now) }
{
    read_number(after(text, b" ")?)
}

/// Puts the words of a value, of which a text is, behind those of a row, and answers how many they are. Where the text is no
/// value, the fault says the line of the number that is given.
fn read_value(text: &[u8], line: u64, values: &mut Vec<u64>) -> Result<u32, TextFault>
    ensures read { IfOk result (AddsWords text.now values.old.items values.new.items) }
    ensures refused { IfErr result (λ fault. IfBadLine fault (λ number. (number ≡ line) × ((words : List ℕ) → IsValue words → text.now ≢ words_text words))) }
{
    let mut rest = text;
    let mut count: u32 = 0;
    while !rest.is_empty() {
        let Some((word, behind)) = read_word(rest) else {
            return Err(TextFault::BadLine { line });
        };
        if count == MOST_VALUES {
            return Err(TextFault::BadLine { line });
        }
        if values.push(word).is_err() {
            return Err(TextFault::Memory(OutOfMemory));
        }
        rest = behind;
        count += 1;
    }
    Ok(count)
}

/// The put whose key and value stand behind the first word of a line; the words of the value go behind those of a row. Where they
/// make none, the fault says the line of the number that is given.
fn read_put(words: &[u8], line: u64, values: &mut Vec<u64>) -> Result<ScriptCall, TextFault>
    ensures read { IfOk result (ReadsCall (codes "put " ++ words.now) values.old.items values.new.items) }
    ensures refused { IfErr result (λ fault. IfBadLine fault (λ number. (number ≡ line) × ((call : DictCall) → ¬ (IsCallLine (codes "put " ++ words.now) call)))) }
{
    let Some((key, rest)) = read_number(words) else {
        return Err(TextFault::BadLine { line });
    };
    let from = values.len();
    let count = read_value(rest, line, values)?;
    Ok(ScriptCall::Put { key, from, count })
}

/// The key behind these bytes at the front of a line; none where the line is something else.
fn read_key(line: &[u8], front: &[u8]) -> Option<u64>
    ensures { MatchOption result ((key : ℕ) → key < 2 ^ 64 → line.now ≢ front.now ++ decimal key) (λ key. line.now ≡ front.now ++ decimal key) }
{
    whole_number(after(line, front)?, u64::MAX)
}

/// The call that a line makes; the words of a put go behind those of a row. Where it makes none, the fault says the number that
/// is given.
pub(crate) fn read_call(
    line: &[u8],
    number: u64,
    values: &mut Vec<u64>,
) -> Result<ScriptCall, TextFault>
    ensures read { IfOk result (ReadsCall line.now values.old.items values.new.items) }
    ensures refused { IfErr result (λ fault. IfBadLine fault (λ refused. (refused ≡ number) × ((call : DictCall) → ¬ (IsCallLine line.now call)))) }
{
    if let Some(words) = after(line, b"put ") {
        return read_put(words, number, values);
    }
    if let Some(key) = read_key(line, b"get ") {
        return Ok(ScriptCall::Get { key });
    }
    match read_key(line, b"del ") {
        Some(key) => Ok(ScriptCall::Del { key }),
        None => Err(TextFault::BadLine { line: number }),
    }
}
