// The words of a root's block: where they lie, and writing them.
ghost use Rattle.std.specs.Prelude.{◌≡◌, ◌+◌, ◌*◌, ◌%◌, ◌^◌, ◌<◌, ◌≤◌, ℕ, List, [], length};
ghost use Rattle.pmem_lines.specs.Pmem.{words_of};
ghost use Rattle.pmem_lines.specs.Steps.{IsQuietStep};
ghost use Rattle.durable_steps.specs.Rows.{IsOldOrNewRow};
ghost use Rattle.heap_check.specs.Image.{IsExactImage};
ghost use Rattle.arena_core.specs.Arena.{IsArena};
ghost use Rattle.arena_core.specs.Call.{IsReady};
ghost use Rattle.arena_core.specs.Events.{words_events};
ghost use Rattle.arena_core.specs.Payload.{IsBlockPlan, IsWritePlan, IsWriteCarried};

use crate::BlockRefusal;
use crate::plan::{freed_of, layout_in};
use crate::volatile::Volatile;
use durable_steps::write_row;
use heap_model::Block;
use pmem_lines::Pmem;

impl Volatile {
    /// The block of a root, or why there is none.
    #[tactic(auto, using(crate::proofs::PayloadCalls::held_block_at))]
    pub(crate) fn block_of<P: Pmem>(&self, device: &P, root: u32) -> Result<Block, BlockRefusal>
        requires arena { IsArena (P.state device.now) self.now }
        ensures { IsBlockPlan (words_of (P.state device.now)) root result }
    {
        if root >= layout_in(device).roots {
            return Err(BlockRefusal::NoRoot);
        }
        match self.held_by(device, root) {
            Some(held) => {
                let block = freed_of(held);
                Ok(Block {
                    root,
                    at: block.at,
                    size: block.size,
                })
            }
            None => Err(BlockRefusal::Empty),
        }
    }
}

/// The byte at which a write of `count` words begins, from word `from` of a root's block on, or why there is none.
pub(crate) fn plan_write(
    block: Result<Block, BlockRefusal>,
    from: u32,
    count: u64,
) -> Result<u32, BlockRefusal>
    requires few { count ≤ 512 }
    requires block { (words : List ℕ) × (root : ℕ) × IsBlockPlan words root block }
    ensures { (words : List ℕ) (root : ℕ) → IsBlockPlan words root block → IsWritePlan words root from count result }
{
    match block {
        Ok(block) => {
            if u64::from(from) + count > u64::from(block.size / 8) {
                return Err(BlockRefusal::OutOfRange);
            }
            Ok(block.at + 8 * from)
        }
        Err(refusal) => Err(refusal),
    }
}

/// Does what the plan of a write says, and answers the call.
pub(crate) fn carry_out_write<P: Pmem>(
    device: &mut P,
    plan: Result<u32, BlockRefusal>,
    words: &[u64],
) -> Result<(), BlockRefusal>
    requires ready { IsReady (P.state device.old) }
    requires exact { IsExactImage (words_of (P.state device.old)) }
    requires fresh { (P.state device.old).events ≡ [] }
    requires few { length words.now ≤ 512 }
    requires plan { (root : ℕ) × (from : ℕ) × IsWritePlan (words_of (P.state device.old)) root from (length words.now) plan }
    ensures { (root from : ℕ) → IsWritePlan (words_of (P.state device.old)) root from (length words.now) plan → IsWriteCarried (P.state device.old) (P.state device.new) root from words.now result }
{
    match plan {
        Ok(at) => {
            write_words(device, at, words);
            Ok(())
        }
        Err(refusal) => Err(refusal),
    }
}

/// Writes words one after another from byte `at` on and makes them durable, under one fence: an event for each word, one for each
/// line that they touch, and the fence; no words make no event. They begin at a multiple of 8, are 512 at most, and end within the
/// memory, which is of whole lines, and below 2^32 bytes. A call has begun in the memory and has no event yet, and the memory has
/// room for those of a call. After a crash within the write each of the words is old or new, and every other word of the memory is
/// as before. It never refuses, and takes no memory.
#[tactic(auto, using(crate::proofs::Readiness::room_rules))]
pub fn write_words<P: Pmem>(device: &mut P, at: u32, words: &[u64])
    requires ready { IsReady (P.state device.old) }
    requires fresh { (P.state device.old).events ≡ [] }
    requires few { length words.now ≤ 512 }
    requires aligned { at % 8 ≡ 0 }
    requires inside { at + 8 * length words.now ≤ 8 * length (words_of (P.state device.old)) }
    requires fits { at + 8 * length words.now < 2 ^ 32 }
    requires lines { length (words_of (P.state device.old)) % 8 ≡ 0 }
    ensures step { IsQuietStep (P.state device.old) (P.state device.new) (words_events at words.now) (IsOldOrNewRow (words_of (P.state device.old)) at words.now) }
{
    if !words.is_empty() {
        write_row(device, at, words);
    }
}
