// What is printed of a dictionary: what the calls of a script come to, and the map.
ghost use Rattle.std.specs.Prelude.{◌≡◌, ◌++◌, OnOk, OnErr};
ghost use Rattle.trace_text.specs.Fronts.{BeginsWith};
ghost use Rattle.dict_text.specs.Script.{words_text};
ghost use Rattle.dict_text.specs.Report.{DictReply, reply_of, reply_line, pair_line, size_line};

use pmem_lines::OutOfMemory;
use trace_text::{write_bytes, write_number, write_word};

/// What a call of a script comes to where that is no value.
#[derive(Clone, Copy, Debug, PartialEq, Eq)]
pub enum PlainReply {
    /// The key has the value.
    Stored,
    /// No root is free for the pair.
    Full,
    /// No block is free for the pair.
    NoSpace,
    /// The key has no value.
    Absent,
    /// The key has no value any more.
    Removed,
}

/// Writes the line of a reply behind what stands in `out`. Where memory runs out, what stood there still stands at the front.
pub fn write_reply(out: &mut Vec<u8>, reply: PlainReply) -> Result<(), OutOfMemory>
    ensures text { OnOk result (out.new.items ≡ out.old.items ++ reply_line (reply_of reply)) }
    ensures kept { OnErr result (BeginsWith out.new.items out.old.items) }
{
    match reply {
        PlainReply::Stored => write_bytes(out, b"stored\n"),
        PlainReply::Full => write_bytes(out, b"full\n"),
        PlainReply::NoSpace => write_bytes(out, b"no space\n"),
        PlainReply::Absent => write_bytes(out, b"absent\n"),
        PlainReply::Removed => write_bytes(out, b"removed\n"),
    }
}

/// Writes words, each behind a space.
fn write_words(out: &mut Vec<u8>, words: &[u64]) -> Result<(), OutOfMemory>
    ensures text { OnOk result (out.new.items ≡ out.old.items ++ words_text words.now) }
    ensures kept { OnErr result (BeginsWith out.new.items out.old.items) }
{
    for word in words {
        write_word(out, b" ", *word)?;
    }
    Ok(())
}

/// Writes the line of a value behind what stands in `out`: its words, which may be none. Where memory runs out, what stood there
/// still stands at the front.
pub fn write_value(out: &mut Vec<u8>, words: &[u64]) -> Result<(), OutOfMemory>
    ensures text { OnOk result (out.new.items ≡ out.old.items ++ reply_line (DictReply.Value words.now)) }
    ensures kept { OnErr result (BeginsWith out.new.items out.old.items) }
{
    write_bytes(out, b"value")?;
    write_words(out, words)?;
    write_bytes(out, b"\n")
}

/// Writes the line that a map begins with behind what stands in `out`: how many pairs it has. Where memory runs out, what stood
/// there still stands at the front.
pub fn write_size(out: &mut Vec<u8>, size: u64) -> Result<(), OutOfMemory>
    ensures text { OnOk result (out.new.items ≡ out.old.items ++ size_line size) }
    ensures kept { OnErr result (BeginsWith out.new.items out.old.items) }
{
    write_word(out, b"size ", size)?;
    write_bytes(out, b"\n")
}

/// Writes the line of a pair of a map behind what stands in `out`: its key, and the words of its value, which may be none. Where
/// memory runs out, what stood there still stands at the front.
pub fn write_pair_line(out: &mut Vec<u8>, key: u64, value: &[u64]) -> Result<(), OutOfMemory>
    ensures text { OnOk result (out.new.items ≡ out.old.items ++ pair_line (record { key = key; value = value.now })) }
    ensures kept { OnErr result (BeginsWith out.new.items out.old.items) }
{
    write_number(out, key)?;
    write_words(out, value)?;
    write_bytes(out, b"\n")
}
