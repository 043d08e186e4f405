// The calls of the arena that the calls of a dictionary make, one each.
ghost use Rattle.std.specs.Prelude.{◌≡◌, ◌<◌, ◌≤◌, length};
ghost use Rattle.pmem_lines.specs.Pmem.{words_of};
ghost use Rattle.heap_check.specs.Image.{bounds_of};
ghost use Rattle.attach_dict.specs.Dict.{stage, most_values, HasSome, HasNone};
ghost use Rattle.attach_dict.specs.Steps.{IsTakenBy, HasRoomFor, IsFilled, IsShown, IsFreed};

use crate::StageRefusal;
use crate::layout::{STAGE, bytes_for};
use arena_core::Arena;
use pmem_lines::Pmem;

// A dictionary has one caller: those of its calls that take a seat are this one's.
const SEAT: u32 = 0;

/// Gives the stage a block for a value of so many words. `NoSpace` is the only refusal.
pub(crate) fn take_block<P: Pmem>(arena: &mut Arena<P>, count: u32) -> Result<(), StageRefusal>
    requires none { HasNone (words_of arena.old.device) stage }
    requires few { count ≤ most_values }
    ensures { IsTakenBy arena.old arena.new count result }
{
    match arena.malloc_to(SEAT, STAGE, bytes_for(count)) {
        Ok(_) => Ok(()),
        Err(_) => Err(StageRefusal::NoSpace),
    }
}

/// Writes words into the stage's block, from its first on.
pub(crate) fn fill_block<P: Pmem>(arena: &mut Arena<P>, words: &[u64])
    requires room { HasRoomFor (words_of arena.old.device) (length words.now) }
    requires few { length words.now ≤ 512 }
    ensures { IsFilled arena.old arena.new words.now }
{
    arena.write(STAGE, 0, words).unwrap();
}

/// Moves the stage's block to a root that has none.
pub(crate) fn show_block<P: Pmem>(arena: &mut Arena<P>, root: u32)
    requires block { HasSome (words_of arena.old.device) stage }
    requires root { root < (bounds_of (words_of arena.old.device)).roots }
    requires none { HasNone (words_of arena.old.device) root }
    ensures { IsShown arena.old arena.new root }
{
    let _ = arena.move_to(STAGE, root).unwrap();
}

/// Frees a root's block.
pub(crate) fn free_block<P: Pmem>(arena: &mut Arena<P>, root: u32)
    requires { HasSome (words_of arena.old.device) root }
    ensures { IsFreed arena.old arena.new root }
{
    let _ = arena.free_from(SEAT, root).unwrap();
}
