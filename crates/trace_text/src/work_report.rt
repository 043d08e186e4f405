// What is printed of generated work: a line for each arena.
ghost use Rattle.std.specs.Prelude.{◌≡◌, [], ◌∷◌, ◌++◌, codes, decimal, OnOk, OnErr};
ghost use Rattle.trace_text.specs.Fronts.{BeginsWith};
ghost use Rattle.trace_text.specs.WorkReport.{work_line};

use crate::writing::{write_bytes, write_word};
use pmem_lines::OutOfMemory;

/// What the calls of an arena came to: how many there were, how many blocks they placed and freed, how many were refused,
/// and how many blocks live at the end, with how many bytes.
#[derive(Clone, Copy, Debug, PartialEq, Eq)]
pub struct Work {
    pub calls: u64,
    pub placed: u64,
    pub freed: u64,
    pub refused: u64,
    pub live: u64,
    pub bytes: u64,
}

// Writes how many blocks were placed and freed, and how many calls were refused.
fn write_replies(out: &mut Vec<u8>, work: Work) -> Result<(), OutOfMemory>
    ensures text { OnOk result (out.new.items ≡ out.old.items ++ (codes " placed " ++ decimal work.placed ++ codes " freed " ++ decimal work.freed ++ codes " refused " ++ decimal work.refused)) }
    ensures kept { OnErr result (BeginsWith out.new.items out.old.items) }
{
    write_word(out, b" placed ", work.placed)?;
    write_word(out, b" freed ", work.freed)?;
    write_word(out, b" refused ", work.refused)
}

// Writes how many blocks live, how many bytes they have, and the end of the line.
fn write_live(out: &mut Vec<u8>, work: Work) -> Result<(), OutOfMemory>
    ensures text { OnOk result (out.new.items ≡ out.old.items ++ (codes " live " ++ decimal work.live ++ codes " bytes " ++ decimal work.bytes ++ 10 ∷ [])) }
    ensures kept { OnErr result (BeginsWith out.new.items out.old.items) }
{
    write_word(out, b" live ", work.live)?;
    write_word(out, b" bytes ", work.bytes)?;
    write_bytes(out, b"\n")
}

/// Writes the line of an arena behind what stands in `out`: what its calls came to. Where memory runs out, what stood there
/// still stands at the front.
pub fn write_work(out: &mut Vec<u8>, arena: u32, work: Work) -> Result<(), OutOfMemory>
    ensures text { OnOk result (out.new.items ≡ out.old.items ++ work_line arena work) }
    ensures kept { OnErr result (BeginsWith out.new.items out.old.items) }
{
    write_word(out, b"arena ", u64::from(arena))?;
    write_word(out, b" calls ", work.calls)?;
    write_replies(out, work)?;
    write_live(out, work)
}
