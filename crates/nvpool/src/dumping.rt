// What `dump` has to say of its input.
ghost use Rattle.std.specs.Prelude.{ℕ, List, IfOk};
ghost use Rattle.pool_layout.specs.Image.{AreWordsOf, AreWords};
ghost use Rattle.heap_map.specs.Blocks.{IsRootBlock};
ghost use Rattle.nvpool.specs.Dumping.{HaveWholeLines, dumping_by, dumping};
ghost use Rattle.nvpool.specs.Ends.{IsAnswer, IsArenaAnswer, IsDumpAnswer};

use crate::answer::fault_line;
use crate::cause::Cause;
use crate::variant::{Gc, Log, Variant};
use heap_map::RootBlock;
use image_check::CheckFault;
use map_text::write_dump;
use pmem_lines::OutOfMemory;
use pool_layout::{has_gc_text, parts};
use program_io::Answer;
use std::alloc::Global;

/// The words of the block of a root of an arena of a pool of either variant, or the line that says why there are none. Its text
/// says which variant it is judged as.
pub(crate) fn dump_answer(
    alloc: Global,
    words: &[u64],
    bytes: u64,
    arena: u32,
    root: u32,
) -> Result<Answer, OutOfMemory>
    requires { AreWords words.now bytes }
    ensures { IfOk result (λ answer. (image : List ℕ) → AreWordsOf words.now bytes image → IsAnswer (dumping arena root) image answer) }
{
    if has_gc_text(words) {
        dump_by::<Gc>(alloc, words, bytes, arena, root)
    } else {
        dump_by::<Log>(alloc, words, bytes, arena, root)
    }
}

// The same of a pool of one variant: the first defect of the bytes as the image of a pool; else that the pool has not the arena;
// else the first defect of that; else that the root has no block.
fn dump_by<V: Variant>(
    alloc: Global,
    words: &[u64],
    bytes: u64,
    arena: u32,
    root: u32,
) -> Result<Answer, OutOfMemory>
    requires words { AreWords words.now bytes }
    requires lines { HaveWholeLines V.rules.maps }
    ensures { IfOk result (λ answer. (image : List ℕ) → AreWordsOf words.now bytes image → IsAnswer (dumping_by V.rules arena root) image answer) }
{
    let header = match V::header(words, bytes) {
        Ok(header) => header,
        Err(found) => {
            return fault_line(
                alloc,
                Cause::Image {
                    arena: found.arena,
                    defect: found.defect,
                },
            );
        }
    };
    if arena >= header.arenas {
        return fault_line(
            alloc,
            Cause::NoArena {
                arena,
                arenas: header.arenas,
            },
        );
    }
    dump_arena::<V>(alloc, parts(&header, words, arena), arena, root)
}

// The same of the words of the arena.
fn dump_arena<V: Variant>(
    alloc: Global,
    words: &[u64],
    arena: u32,
    root: u32,
) -> Result<Answer, OutOfMemory>
    ensures { IfOk result (IsArenaAnswer V.rules words.now arena root) }
{
    match V::block(alloc, words, root) {
        Ok(Some(block)) => dump_block::<V>(alloc, words, root, block),
        Ok(None) => fault_line(alloc, Cause::NoBlock { arena, root }),
        Err(CheckFault::Defect(defect)) => fault_line(alloc, Cause::Image { arena, defect }),
        Err(CheckFault::Memory(error)) => Err(error),
    }
}

// The words of a block.
fn dump_block<V: Variant>(
    alloc: Global,
    words: &[u64],
    root: u32,
    block: RootBlock,
) -> Result<Answer, OutOfMemory>
    requires sound { V.rules.maps.IsSound words.now }
    requires block { IsRootBlock V.rules.maps words.now root block }
    ensures { IfOk result (IsDumpAnswer V.rules words.now root) }
{
    let mut text = Vec::new(alloc);
    write_dump(&mut text, words, block.at, block.size)?;
    Ok(Answer::Output(text))
}
