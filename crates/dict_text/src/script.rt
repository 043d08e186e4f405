// Scripts, read from their text.
ghost use Rattle.std.specs.Prelude.{◌≡◌, ◌+◌, ◌<◌, ◌≤◌, ◌^◌, ℕ, length, IfOk, IfErr, OnOk, MatchResult};
ghost use Rattle.trace_text.specs.Texts.{lines_of, AreCalls, IfBadLine};
ghost use Rattle.trace_text.specs.Lines.{IsBehindHead, IsRefusedCall};
ghost use Rattle.dict_text.specs.Script.{DictCall, script_lines, IsDictSize, IsCallLine, IsScript, IsRefusedScript};
ghost use Rattle.dict_text.specs.Calls.{calls_of, HasValues};
ghost use Rattle.dict_text.specs.Lines.{AddsCall};

use crate::line::{read_call, read_size};
use pmem_lines::OutOfMemory;
use std::alloc::Global;
use trace_text::{TextFault, is_passed_over, next_line};

/// What a line of a script asks of a dictionary.
#[derive(Clone, Copy, Debug, PartialEq, Eq)]
pub enum ScriptCall {
    /// The key gets so many words of the script's, from this one on.
    Put { key: u64, from: usize, count: u32 },
    Get { key: u64 },
    Del { key: u64 },
}

/// What a script says: the granules of its arena, the calls in order, and the words of all puts, one after another.
#[derive(Debug, Drop)]
pub struct Script {
    pub granules: u32,
    pub calls: Vec<ScriptCall>,
    pub values: Vec<u64>,
}

/// What stands behind the line of the size: the size that it says, the number of lines up to it, and the rest.
#[derive(Clone, Copy)]
struct BehindSize<'a> {
    granules: u32,
    many: u64,
    rest: &'a [u8],
}

/// The size that a text begins with, behind lines that are passed over; the number of the line that says none where it doesn't.
fn read_head(text: &[u8]) -> Result<BehindSize<'_>, u64>
    ensures { MatchResult result (λ behind. IsBehindHead script_lines text.now behind.rest.now behind.granules behind.many) (IsRefusedScript text.now) }
{
    let mut rest = text;
    let mut many: u64 = 0;
    while !rest.is_empty() {
        let (line, after) = next_line(rest);
        if !is_passed_over(line) {
            return match read_size(line) {
                Some(granules) => Ok(BehindSize {
                    granules,
                    many: many + 1,
                    rest: after,
                }),
                None => Err(many + 1),
            };
        }
        rest = after;
        many += 1;
    }
    Err(many + 1)
}

/// Puts the call that a line makes behind those of a script. Where it makes none, the fault says the number that is given.
fn add_call(script: &mut Script, line: &[u8], number: u64) -> Result<(), TextFault>
    requires { HasValues script.old }
    ensures added { OnOk result (AddsCall line.now script.old script.new) }
    ensures refused { IfErr result (λ fault. IfBadLine fault (λ refused. (refused ≡ number) × ((call : DictCall) → ¬ (IsCallLine line.now call)))) }
{
    let call = read_call(line, number, &mut script.values)?;
    if script.calls.push(call).is_err() {
        return Err(TextFault::Memory(OutOfMemory));
    }
    Ok(())
}

/// The script of an arena of so many granules whose calls a text makes, of which as many lines stand before it.
fn read_calls(alloc: Global, granules: u32, text: &[u8], before: u64) -> Result<Script, TextFault>
    requires { before + length text.now < 2 ^ 64 }
    ensures calls { IfOk result (λ script. AreCalls script_lines granules (lines_of text.now) (calls_of script)) }
    ensures values { IfOk result HasValues }
    ensures size { IfOk result (λ script. script.granules ≡ granules) }
    ensures few { IfOk result (λ script. length script.calls.items ≤ length text.now) }
    ensures refused { IfErr result (λ fault. IfBadLine fault (IsRefusedCall script_lines granules text.now before)) }
{
    let mut script = Script {
        granules,
        calls: Vec::new(alloc),
        values: Vec::new(alloc),
    };
    let mut rest = text;
    let mut many: u64 = 0;
    while !rest.is_empty() {
        let (line, after) = next_line(rest);
        rest = after;
        many += 1;
        if !is_passed_over(line) {
            add_call(&mut script, line, before + many)?;
        }
    }
    Ok(script)
}

/// Reads the text of a script: lines, each ended by a line feed that the last one may lack, of which those that are empty or
/// begin with `#` are passed over. The first of the others is `dict G`: a dictionary over an arena of version 1 that has G
/// granules, from 16 to 1024. Each after it is `put K` with 0 to 509 words, each behind a space, which gives the key K this
/// value, `get K`, which asks for the value of K, or `del K`, which removes it. Keys and words are numbers of 64 bits, decimal,
/// without a sign and without leading zeros. A text that is no script is refused with the number of its first line outside this
/// grammar, or, where it ends with no `dict`, with the number behind its last line.
pub fn read_script(alloc: Global, bytes: &[u8]) -> Result<Script, TextFault>
    ensures script { IfOk result (λ script. IsScript bytes.now script.granules (calls_of script)) }
    ensures size { IfOk result (λ script. IsDictSize script.granules) }
    ensures values { IfOk result HasValues }
    ensures few { IfOk result (λ script. length script.calls.items ≤ length bytes.now) }
    ensures refused { IfErr result (λ fault. IfBadLine fault (IsRefusedScript bytes.now)) }
{
    match read_head(bytes) {
        Err(line) => Err(TextFault::BadLine { line }),
        Ok(behind) => read_calls(alloc, behind.granules, behind.rest, behind.many),
    }
}
