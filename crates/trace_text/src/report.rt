// What is printed: reports of arenas and of crashes, and refusals.
ghost use Rattle.std.specs.Prelude.{◌≡◌, [], ◌+◌, ◌≤◌, ◌∷◌, ◌++◌, codes, decimal, flat_map, length, OnOk, OnErr};
ghost use Rattle.trace_text.specs.Words.{call_text};
ghost use Rattle.trace_text.specs.Fronts.{BeginsWith};
ghost use Rattle.trace_text.specs.Report.{reply_text, arena_line, entry_line, block_line, heap_text, side_text, crash_line, crash_text, refusal_text};

use crate::line_end::LineEnd;
use crate::writing::{write_bytes, write_number, write_pair, write_word};
use crate::{CrashSide, Refusal};
use heap_model::{Block, Call, Entry, Reply};
use pmem_lines::OutOfMemory;

/// Writes the line that a report begins with behind what stands in `out`: the arena, and how many calls its journal has.
/// The entries and the heap follow it. Where memory runs out, what stood there still stands at the front.
pub fn write_arena(out: &mut Vec<u8>, arena: u32, calls: u64) -> Result<(), OutOfMemory>
    ensures text { OnOk result (out.new.items ≡ out.old.items ++ arena_line arena calls) }
    ensures kept { OnErr result (BeginsWith out.new.items out.old.items) }
{
    write_word(out, b"arena ", u64::from(arena))?;
    write_word(out, b" calls ", calls)?;
    write_bytes(out, b"\n")
}

// Puts what a call asks ahead of the end of a line.
fn put_call(line: &mut LineEnd, call: Call)
    requires { 64 + length line.old ≤ 160 }
    ensures text { line.new ≡ call_text call ++ line.old }
    ensures few { length line.new ≤ 64 + length line.old }
{
    match call {
        Call::Malloc { root, size } => line.put_pair(b"m ", u64::from(root), size),
        Call::Free { root } => line.put_word(b"f ", u64::from(root)),
        Call::Write { root, index, value } => {
            line.put_word(b" ", value);
            line.put_pair(b"w ", u64::from(root), u64::from(index));
        }
        Call::Read { root, index } => line.put_pair(b"r ", u64::from(root), u64::from(index)),
        Call::Move { from, to } => line.put_pair(b"v ", u64::from(from), u64::from(to)),
    }
}

// Puts an answer ahead of the end of a line.
fn put_reply(line: &mut LineEnd, reply: Reply)
    requires { 50 + length line.old ≤ 160 }
    ensures text { line.new ≡ reply_text reply ++ line.old }
    ensures few { length line.new ≤ 50 + length line.old }
{
    match reply {
        Reply::Placed { at, size } => line.put_pair(b"placed ", u64::from(at), u64::from(size)),
        Reply::Freed { at, size } => line.put_pair(b"freed ", u64::from(at), u64::from(size)),
        Reply::Wrote => line.put(b"wrote"),
        Reply::Value { word } => line.put_word(b"value ", word),
        Reply::Moved { at, size } => line.put_pair(b"moved ", u64::from(at), u64::from(size)),
        Reply::NoRoot => line.put(b"no root"),
        Reply::Occupied { at } => line.put_word(b"occupied ", u64::from(at)),
        Reply::Empty => line.put(b"empty"),
        Reply::ZeroSize => line.put(b"zero size"),
        Reply::TooLarge => line.put(b"too large"),
        Reply::OutOfRange => line.put(b"out of range"),
        Reply::NoSpace => line.put(b"no space"),
    }
}

// Puts the line of an entry into a line that has no text.
fn put_entry(line: &mut LineEnd, entry: Entry)
    requires { line.old ≡ [] }
    ensures { line.new ≡ entry_line entry }
{
    line.put(b"\n");
    put_reply(line, entry.reply);
    line.put(b" ");
    put_call(line, entry.call);
    line.put(b" ");
    line.put_number(u64::from(entry.seat));
}

/// Writes the line of an entry of a journal behind what stands in `out`. Where memory runs out, what stood there still
/// stands at the front.
pub fn write_entry(out: &mut Vec<u8>, entry: Entry) -> Result<(), OutOfMemory>
    ensures text { OnOk result (out.new.items ≡ out.old.items ++ entry_line entry) }
    ensures kept { OnErr result (BeginsWith out.new.items out.old.items) }
{
    let mut line = LineEnd::new();
    put_entry(&mut line, entry);
    write_bytes(out, line.text())
}

/// Writes a block of a heap.
fn write_block(out: &mut Vec<u8>, block: Block) -> Result<(), OutOfMemory>
    ensures text { OnOk result (out.new.items ≡ out.old.items ++ block_line block) }
    ensures kept { OnErr result (BeginsWith out.new.items out.old.items) }
{
    write_number(out, u64::from(block.root))?;
    write_pair(out, b" ", u64::from(block.at), u64::from(block.size))?;
    write_bytes(out, b"\n")
}

/// Writes the blocks of a heap.
fn write_blocks(out: &mut Vec<u8>, blocks: &[Block]) -> Result<(), OutOfMemory>
    ensures text { OnOk result (out.new.items ≡ out.old.items ++ flat_map block_line blocks.now) }
    ensures kept { OnErr result (BeginsWith out.new.items out.old.items) }
{
    for block in blocks {
        write_block(out, *block)?;
    }
    Ok(())
}

/// Writes a heap behind what stands in `out`: how many blocks, and each of them. Where memory runs out, what stood there
/// still stands at the front.
pub fn write_heap(out: &mut Vec<u8>, blocks: &[Block]) -> Result<(), OutOfMemory>
    ensures text { OnOk result (out.new.items ≡ out.old.items ++ heap_text blocks.now) }
    ensures kept { OnErr result (BeginsWith out.new.items out.old.items) }
{
    write_word(out, b"heap ", blocks.len() as u64)?;
    write_bytes(out, b"\n")?;
    write_blocks(out, blocks)
}

/// Writes a space, the name of a side, and the end of the line.
fn write_side(out: &mut Vec<u8>, side: CrashSide) -> Result<(), OutOfMemory>
    ensures text { OnOk result (out.new.items ≡ out.old.items ++ (32 ∷ side_text side ++ 10 ∷ [])) }
    ensures kept { OnErr result (BeginsWith out.new.items out.old.items) }
{
    match side {
        CrashSide::Same => write_bytes(out, b" same\n"),
        CrashSide::Before => write_bytes(out, b" before\n"),
        CrashSide::After => write_bytes(out, b" after\n"),
    }
}

/// Writes the line that the report of a crash begins with behind what stands in `out`: the number of the call under way,
/// counted from 1, and on which side of it that stands which the crash left. Where memory runs out, what stood there still
/// stands at the front.
pub fn write_crash_line(out: &mut Vec<u8>, call: u64, side: CrashSide) -> Result<(), OutOfMemory>
    ensures text { OnOk result (out.new.items ≡ out.old.items ++ crash_line call side) }
    ensures kept { OnErr result (BeginsWith out.new.items out.old.items) }
{
    write_word(out, b"call ", call)?;
    write_side(out, side)
}

/// Writes the report of a crash behind what stands in `out`: its line, and the blocks of the heap that the crash left. Where
/// memory runs out, what stood there still stands at the front.
pub fn write_crash(
    out: &mut Vec<u8>,
    call: u64,
    side: CrashSide,
    blocks: &[Block],
) -> Result<(), OutOfMemory>
    ensures text { OnOk result (out.new.items ≡ out.old.items ++ crash_text call side blocks.now) }
    ensures kept { OnErr result (BeginsWith out.new.items out.old.items) }
{
    write_crash_line(out, call, side)?;
    write_heap(out, blocks)
}

/// Writes these bytes, a number, and of how many it is.
fn write_share(out: &mut Vec<u8>, bytes: &[u8], number: u64, all: u64) -> Result<(), OutOfMemory>
    ensures text { OnOk result (out.new.items ≡ out.old.items ++ (bytes.now ++ decimal number ++ codes " of " ++ decimal all)) }
    ensures kept { OnErr result (BeginsWith out.new.items out.old.items) }
{
    write_word(out, bytes, number)?;
    write_word(out, b" of ", all)
}

/// Writes the line of a refusal behind what stands in `out`. Where memory runs out, what stood there still stands at
/// the front.
pub fn write_refusal(out: &mut Vec<u8>, refusal: Refusal) -> Result<(), OutOfMemory>
    ensures text { OnOk result (out.new.items ≡ out.old.items ++ refusal_text refusal) }
    ensures kept { OnErr result (BeginsWith out.new.items out.old.items) }
{
    match refusal {
        Refusal::BadLine { line } => write_word(out, b"bad line ", line)?,
        Refusal::NoArena { arena, arenas } => write_share(out, b"no arena ", arena, arenas)?,
        Refusal::NoEvent { event, events } => write_share(out, b"no event ", event, events)?,
    }
    write_bytes(out, b"\n")
}
