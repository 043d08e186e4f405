// What the calls of an arena came to.
ghost use Rattle.std.specs.Prelude.{◌≡◌, ℕ, ◌<◌, ◌+◌, ◌^◌, ◌++◌, length, cond, OnOk};
ghost use Rattle.trace_text.specs.WorkReport.{work_line};
ghost use Rattle.trace_gen.specs.Works.{is_placed, is_freed, is_refused, replies_of, bytes_of, work_of};

use heap_model::{Block, Entry, Reply};
use pmem_lines::OutOfMemory;
use trace_text::{Work, write_work};

// How many replies placed a block, freed one, and refused.
#[derive(Clone, Copy)]
struct Tally {
    placed: u64,
    freed: u64,
    refused: u64,
}

impl Tally {
    // With one reply more.
    fn with(self, reply: Reply) -> Tally
        requires placed { self.placed + 1 < 2 ^ 64 }
        requires freed { self.freed + 1 < 2 ^ 64 }
        requires refused { self.refused + 1 < 2 ^ 64 }
        ensures placed { result.placed ≡ self.placed + cond (is_placed reply) 1 0 }
        ensures freed { result.freed ≡ self.freed + cond (is_freed reply) 1 0 }
        ensures refused { result.refused ≡ self.refused + cond (is_refused reply) 1 0 }
    {
        match reply {
            Reply::Placed { .. } => Tally {
                placed: self.placed + 1,
                ..self
            },
            Reply::Freed { .. } => Tally {
                freed: self.freed + 1,
                ..self
            },
            Reply::Wrote | Reply::Value { .. } => self,
            Reply::Moved { .. }
            | Reply::NoRoot
            | Reply::Occupied { .. }
            | Reply::Empty
            | Reply::ZeroSize
            | Reply::TooLarge
            | Reply::OutOfRange
            | Reply::NoSpace => Tally {
                refused: self.refused + 1,
                ..self
            },
        }
    }
}

// The replies of a journal.
fn counted(journal: &[Entry]) -> Tally
    ensures placed { result.placed ≡ replies_of is_placed journal.now }
    ensures freed { result.freed ≡ replies_of is_freed journal.now }
    ensures refused { result.refused ≡ replies_of is_refused journal.now }
{
    let mut tally = Tally {
        placed: 0,
        freed: 0,
        refused: 0,
    };
    for entry in journal {
        tally = tally.with(entry.reply);
    }
    tally
}

// How many bytes blocks have together.
fn bytes_of(blocks: &[Block]) -> u64
    requires { length blocks.now < 2 ^ 32 }
    ensures { result ≡ bytes_of blocks.now }
{
    let mut bytes = 0;
    for block in blocks {
        bytes += u64::from(block.size);
    }
    bytes
}

/// Writes the line of an arena behind what stands in `out`: what so many calls came to, by the replies of the arena's journal,
/// and by the blocks that live at its end, of which there are fewer than 2^32.
pub fn put_summary(
    out: &mut Vec<u8>,
    arena: u32,
    calls: u64,
    journal: &[Entry],
    blocks: &[Block],
) -> Result<(), OutOfMemory>
    requires { length blocks.now < 2 ^ 32 }
    ensures { OnOk result (out.new.items ≡ out.old.items ++ work_line arena (work_of calls journal.now blocks.now)) }
{
    let Tally {
        placed,
        freed,
        refused,
    } = counted(journal);
    let work = Work {
        calls,
        placed,
        freed,
        refused,
        live: blocks.len() as u64,
        bytes: bytes_of(blocks),
    };
    write_work(out, arena, work)
}
