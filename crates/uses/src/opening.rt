// A stack over an arena that has one.
ghost use Rattle.std.specs.Prelude.{◌≡◌, IfOk, IfErr, OnOk, OnErr};
ghost use Rattle.pmem_lines.specs.Pmem.{words_of};
ghost use Rattle.uses.specs.Stack.{HoldsStack, IsKept};
ghost use Rattle.uses.specs.Opening.{IsOpened};

use crate::RecordStack;
use crate::steps::{are_none, clear_stage, leading_blocks};
use arena_core::Arena;
use pmem_lines::Pmem;

impl<P: Pmem> RecordStack<P> {
    /// Makes a stack over an arena whose heap is one, with its records: one of no records over an arena just formatted. Where
    /// a push was interrupted the stage has a block, which is freed. The arena comes back as it was exactly where its heap is
    /// not a stack. A crash within it leaves the same records. It takes no memory.
    pub fn over(arena: Arena<P>) -> Result<RecordStack<P>, Arena<P>>
        ensures stack { OnOk result (HoldsStack (words_of arena.device)) }
        ensures no_stack { OnErr result (¬ (HoldsStack (words_of arena.device))) }
        ensures opened { IfOk result (λ stack. IsOpened arena stack) }
        ensures kept { IfOk result IsKept }
        ensures refused_unchanged { IfErr result (λ refused. refused ≡ arena) }
    {
        let mut arena = arena;
        let depth = leading_blocks(&arena);
        if !are_none(&arena, depth) {
            return Err(arena);
        }
        clear_stage(&mut arena);
        Ok(RecordStack { arena, depth })
    }
}
