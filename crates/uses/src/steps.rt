// The calls of the arena that a call of a stack is made of.
ghost use Rattle.std.specs.Prelude.{◌≡◌, ◌↔◌, ◌<◌, ◌≤◌, IsTrue};
ghost use Rattle.pmem_lines.specs.Pmem.{words_of};
ghost use Rattle.uses.specs.Stack.{stage, HasNone};
ghost use Rattle.uses.specs.Steps.{HasRecordBlock, HasSome, IsTakenBy, IsFilled, IsShown, IsReleased, IsTidied, AreLeading, AreNone};

use crate::{PushRefusal, Record};
use arena_core::Arena;
use pmem_lines::Pmem;
use pool_layout::layout_of;

// The bytes of a record.
const RECORD_BYTES: u64 = 64;

// A stack has one caller: all of its calls are those of this seat.
const SEAT: u32 = 0;

// The version of the layout that has as many roots as a stack.
const FEWEST_ROOTS: u32 = 1;

/// The last root of a stack, whose block is being made ready. The roots below it are those of records.
pub(crate) fn stage() -> u32
    ensures { result ≡ stage }
{
    layout_of(FEWEST_ROOTS).roots - 1
}

/// Gives the stage a block of 64 bytes. `NoSpace` is the only refusal.
pub(crate) fn take_block<P: Pmem>(arena: &mut Arena<P>) -> Result<(), PushRefusal>
    requires { HasNone (words_of arena.old.device) stage }
    ensures { IsTakenBy arena.old arena.new result }
{
    match arena.malloc_to(SEAT, stage(), RECORD_BYTES) {
        Ok(_) => Ok(()),
        Err(_) => Err(PushRefusal::NoSpace),
    }
}

/// Writes a record into the block of the stage.
pub(crate) fn fill_block<P: Pmem>(arena: &mut Arena<P>, words: &Record)
    requires { HasRecordBlock (words_of arena.old.device) stage }
    ensures { IsFilled arena.old arena.new words.now }
{
    arena.write(stage(), 0, words).unwrap();
}

/// Moves the block of the stage to a root that has none.
pub(crate) fn show_block<P: Pmem>(arena: &mut Arena<P>, root: u32)
    requires block { HasRecordBlock (words_of arena.old.device) stage }
    requires root { root < stage }
    requires none { HasNone (words_of arena.old.device) root }
    ensures { IsShown arena.old arena.new root }
{
    let _ = arena.move_to(stage(), root).unwrap();
}

/// Frees the block of a root.
pub(crate) fn release_block<P: Pmem>(arena: &mut Arena<P>, root: u32)
    requires { HasSome (words_of arena.old.device) root }
    ensures { IsReleased arena.old arena.new root }
{
    let _ = arena.free_from(SEAT, root).unwrap();
}

/// Frees the block of the stage, where it has one.
pub(crate) fn clear_stage<P: Pmem>(arena: &mut Arena<P>)
    ensures { IsTidied arena.old arena.new }
{
    match arena.block(stage()) {
        Some(_) => release_block(arena, stage()),
        None => {
            let _device = arena.pmem();
        }
    }
}

/// How many roots name blocks of 64 bytes, from root 0 on, below the stage.
pub(crate) fn leading_blocks<P: Pmem>(arena: &Arena<P>) -> u32
    ensures { AreLeading (words_of arena.now.device) result }
{
    let end = stage();
    for root in 0..end {
        if !has_record_block(arena, root) {
            return root;
        }
    }
    end
}

// A root names a block of 64 bytes.
fn has_record_block<P: Pmem>(arena: &Arena<P>, root: u32) -> bool
    ensures { IsTrue result ↔ HasRecordBlock (words_of arena.now.device) root }
{
    match arena.block(root) {
        Some(block) => u64::from(block.size) == RECORD_BYTES,
        None => false,
    }
}

/// No root from one on, below the stage, names a block.
pub(crate) fn are_none<P: Pmem>(arena: &Arena<P>, low: u32) -> bool
    ensures { IsTrue result ↔ AreNone (words_of arena.now.device) low }
{
    for root in low..stage() {
        if arena.block(root).is_some() {
            return false;
        }
    }
    true
}
