// One call of an arena, as an entry of its journal.
ghost use Rattle.std.specs.Prelude.{◌≡◌, ◌<◌};
ghost use Rattle.trace_text.specs.Grammar.{IsStill};
ghost use Rattle.gc_runs.specs.Answered.{HasGcAnswered};

use arena_journal::{free_reply, malloc_reply, read_reply, write_reply};
use gc_heap::GcArena;
use heap_model::{Call, Entry};
use pmem_lines::Pmem;

/// Makes one call of an arena by a seat, below 64, and gives its entry. The call moves no block. A Write writes one word, and a Read
/// gives one of the block's view. It takes no memory.
pub fn answer<P: Pmem>(arena: &mut GcArena<P>, seat: u32, call: Call) -> Entry
    requires seat { seat < 64 }
    requires still { IsStill call }
    ensures seat { result.seat ≡ seat }
    ensures call { result.call ≡ call }
    ensures answered { HasGcAnswered seat arena.old arena.new call result.reply }
{
    let reply = match call {
        Call::Malloc { root, size } => malloc_reply(arena.malloc_to(seat, root, size)),
        Call::Free { root } => free_reply(arena.free_from(seat, root)),
        Call::Write { root, index, value } => write_reply(arena.write(root, index, &[value])),
        Call::Read { root, index } => read_reply(arena.view(root), index),
        Call::Move { .. } => unreachable!(),
    };
    Entry { seat, call, reply }
}
