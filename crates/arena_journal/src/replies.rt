// The machine's words for what the calls of an arena answer.
ghost use Rattle.std.specs.Prelude.{◌≡◌};
ghost use Rattle.arena_core.specs.Answer.{malloc_reply, free_reply, move_reply, write_reply, read_reply, block_refusal};

use arena_core::{BlockRefusal, FreeRefusal, Freed, MallocRefusal, MoveRefusal, Moved, Placed};
use heap_model::Reply;

/// The machine's word for the answer to a malloc.
pub fn malloc_reply(answered: Result<Placed, MallocRefusal>) -> Reply
    ensures { result ≡ malloc_reply answered }
{
    match answered {
        Ok(placed) => Reply::Placed {
            at: placed.at,
            size: placed.size,
        },
        Err(MallocRefusal::NoRoot) => Reply::NoRoot,
        Err(MallocRefusal::Occupied { at }) => Reply::Occupied { at },
        Err(MallocRefusal::ZeroSize) => Reply::ZeroSize,
        Err(MallocRefusal::TooLarge) => Reply::TooLarge,
        Err(MallocRefusal::NoSpace) => Reply::NoSpace,
    }
}

/// The machine's word for the answer to a free.
pub fn free_reply(answered: Result<Freed, FreeRefusal>) -> Reply
    ensures { result ≡ free_reply answered }
{
    match answered {
        Ok(freed) => Reply::Freed {
            at: freed.at,
            size: freed.size,
        },
        Err(FreeRefusal::NoRoot) => Reply::NoRoot,
        Err(FreeRefusal::Empty) => Reply::Empty,
    }
}

/// The machine's word for the answer to a move.
pub fn move_reply(answered: Result<Moved, MoveRefusal>) -> Reply
    ensures { result ≡ move_reply answered }
{
    match answered {
        Ok(moved) => Reply::Moved {
            at: moved.at,
            size: moved.size,
        },
        Err(MoveRefusal::NoRoot) => Reply::NoRoot,
        Err(MoveRefusal::Empty) => Reply::Empty,
        Err(MoveRefusal::Occupied { at }) => Reply::Occupied { at },
    }
}

/// The machine's word for the answer to a write.
pub fn write_reply(answered: Result<(), BlockRefusal>) -> Reply
    ensures { result ≡ write_reply answered }
{
    match answered {
        Ok(()) => Reply::Wrote,
        Err(refusal) => refused(refusal),
    }
}

/// The machine's word for what a view has at an index.
pub fn read_reply(answered: Result<&[u64], BlockRefusal>, index: u32) -> Reply
    ensures { result ≡ read_reply answered.entry index }
{
    match answered {
        Ok(words) => {
            if (index as usize) < words.len() {
                Reply::Value {
                    word: words[index as usize],
                }
            } else {
                Reply::OutOfRange
            }
        }
        Err(refusal) => refused(refusal),
    }
}

// The machine's word for the refusal of a write or a view.
fn refused(refusal: BlockRefusal) -> Reply
    ensures { result ≡ block_refusal refusal }
{
    match refusal {
        BlockRefusal::NoRoot => Reply::NoRoot,
        BlockRefusal::Empty => Reply::Empty,
        BlockRefusal::OutOfRange => Reply::OutOfRange,
    }
}
