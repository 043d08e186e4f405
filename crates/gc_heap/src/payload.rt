// Writing the words of a root's block.
ghost use Rattle.std.specs.Prelude.{◌≡◌, ◌≤◌, ℕ, List, [], length};
ghost use Rattle.pmem_lines.specs.Pmem.{words_of};
ghost use Rattle.arena_core.specs.Call.{IsReady};
ghost use Rattle.gc_check.specs.Image.{IsGcExactImage};
ghost use Rattle.gc_heap.specs.Plan.{IsGcBlockPlan};
ghost use Rattle.gc_heap.specs.Writing.{IsGcWritePlan, IsGcWriteCarried};

use arena_core::{BlockRefusal, write_words};
use heap_model::Block;
use pmem_lines::Pmem;

/// The byte at which a write of `count` words begins, from word `from` of a root's block on, or why there is none.
pub(crate) fn plan_write(
    block: Result<Block, BlockRefusal>,
    from: u32,
    count: u64,
) -> Result<u32, BlockRefusal>
    requires few { count ≤ 512 }
    requires block { (words : List ℕ) × (root : ℕ) × IsGcBlockPlan words root block }
    ensures { (words : List ℕ) (root : ℕ) → IsGcBlockPlan words root block → IsGcWritePlan words root from count result }
{
    match block {
        Ok(block) => {
            if u64::from(from) + count > u64::from(block.size / 8) {
                return Err(BlockRefusal::OutOfRange);
            }
            Ok(block.at + 8 * from)
        }
        Err(refusal) => Err(refusal),
    }
}

/// Does what the plan of a write says, and answers the call.
pub(crate) fn carry_out_write<P: Pmem>(
    device: &mut P,
    plan: Result<u32, BlockRefusal>,
    words: &[u64],
) -> Result<(), BlockRefusal>
    requires ready { IsReady (P.state device.old) }
    requires exact { IsGcExactImage (words_of (P.state device.old)) }
    requires fresh { (P.state device.old).events ≡ [] }
    requires few { length words.now ≤ 512 }
    requires plan { (root : ℕ) × (from : ℕ) × IsGcWritePlan (words_of (P.state device.old)) root from (length words.now) plan }
    ensures { (root from : ℕ) → IsGcWritePlan (words_of (P.state device.old)) root from (length words.now) plan → IsGcWriteCarried (P.state device.old) (P.state device.new) root from words.now result }
{
    match plan {
        Ok(at) => {
            write_words(device, at, words);
            Ok(())
        }
        Err(refusal) => Err(refusal),
    }
}
