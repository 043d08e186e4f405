// The heap machine of one arena, as a plain body: lists that are searched from end to end.
//
// Here are its state and its calls. `blocks` has ranges of bytes and the sizes of small blocks, `placement` which block a malloc
// gets, and `calls` the calls of a trace.
pub(crate) mod blocks;
pub(crate) mod calls;
mod placement;

use crate::machine::blocks::{GRANULE, Range, Slab, least_size};
use crate::machine::calls::{Call, Pool};
use std::alloc::{AllocError, Global};

/// A root and the block that it names.
#[derive(Clone, Copy)]
pub(crate) struct Named {
    pub(crate) root: u64,
    pub(crate) block: Range,
}

// A word that was written into the block of a root.
#[derive(Clone, Copy)]
struct Written {
    root: u64,
    index: u64,
    value: u64,
}

/// A block in the stack of a seat. Of one seat's blocks of one size those that came last are nearer to the top.
#[derive(Clone, Copy)]
pub(crate) struct Reserved {
    pub(crate) seat: u64,
    pub(crate) block: Range,
}

/// A reply of the machine.
#[derive(Clone, Copy)]
pub(crate) enum Reply {
    Placed(Range),
    Freed(Range),
    Moved(Range),
    Wrote,
    /// The word that was written last.
    Value(u64),
    /// A word that was not written since the root was given its block.
    AnyValue,
    NoRoot,
    Occupied(Range),
    Empty,
    ZeroSize,
    TooLarge,
    OutOfRange,
    NoSpace,
}

impl Reply {
    /// The words of a report. The number is that of a word that may be any.
    pub(crate) fn text(self, alloc: Global, any: u64) -> Result<String, AllocError> {
        match self {
            Reply::Placed(block) => ranged(alloc, "placed", block),
            Reply::Freed(block) => ranged(alloc, "freed", block),
            Reply::Moved(block) => ranged(alloc, "moved", block),
            Reply::Wrote => String::from_str(alloc, "wrote"),
            Reply::Value(word) => numbered(alloc, "value", word),
            Reply::AnyValue => numbered(alloc, "value", any),
            Reply::NoRoot => String::from_str(alloc, "no root"),
            Reply::Occupied(block) => numbered(alloc, "occupied", block.at),
            Reply::Empty => String::from_str(alloc, "empty"),
            Reply::ZeroSize => String::from_str(alloc, "zero size"),
            Reply::TooLarge => String::from_str(alloc, "too large"),
            Reply::OutOfRange => String::from_str(alloc, "out of range"),
            Reply::NoSpace => String::from_str(alloc, "no space"),
        }
    }
}

// A word and a range.
fn ranged(alloc: Global, word: &str, block: Range) -> Result<String, AllocError> {
    let at = block.at;
    let size = block.size;
    format!(in alloc; "{word} {at} {size}")
}

// A word and a number.
fn numbered(alloc: Global, word: &str, number: u64) -> Result<String, AllocError> {
    format!(in alloc; "{word} {number}")
}

/// Whose stacks a call goes by.
#[derive(Clone, Copy, Debug)]
pub(crate) enum Seats {
    /// Those of its thread, as under `replay`.
    OfThreads,
    /// Those of the arena's owner, who has the arena's number, as under `serve`.
    OfOwners,
}

impl Seats {
    /// The seat by which a thread's call at an arena is placed.
    pub(crate) fn at(self, arena: u64, thread: u64) -> u64 {
        match self {
            Seats::OfThreads => thread,
            Seats::OfOwners => arena,
        }
    }
}

/// How often each way of a malloc was taken, and what else came of calls.
#[derive(Clone, Copy, Debug, PartialEq, Eq)]
pub(crate) struct Counts {
    /// The seat's own stack gave its top.
    pub(crate) own: u64,
    /// A slab of the size had an available block.
    pub(crate) refilled: u64,
    /// Another seat's stack gave its top.
    pub(crate) stolen: u64,
    /// A slab took the size.
    pub(crate) taken: u64,
    /// A slab was made.
    pub(crate) opened: u64,
    /// A large block was placed.
    pub(crate) large: u64,
    /// No space.
    pub(crate) none: u64,
    /// A slab left.
    pub(crate) left: u64,
    /// A block was freed that was given before its slab took its size.
    pub(crate) old: u64,
    /// A block was moved.
    pub(crate) moved: u64,
}

impl Counts {
    /// Nothing yet.
    pub(crate) const ZERO: Counts = Counts {
        own: 0,
        refilled: 0,
        stolen: 0,
        taken: 0,
        opened: 0,
        large: 0,
        none: 0,
        left: 0,
        old: 0,
        moved: 0,
    };

    /// Both together.
    pub(crate) fn with(self, other: Counts) -> Counts {
        Counts {
            own: self.own.saturating_add(other.own),
            refilled: self.refilled.saturating_add(other.refilled),
            stolen: self.stolen.saturating_add(other.stolen),
            taken: self.taken.saturating_add(other.taken),
            opened: self.opened.saturating_add(other.opened),
            large: self.large.saturating_add(other.large),
            none: self.none.saturating_add(other.none),
            left: self.left.saturating_add(other.left),
            old: self.old.saturating_add(other.old),
            moved: self.moved.saturating_add(other.moved),
        }
    }
}

/// Counts one more.
pub(crate) fn one_more(count: &mut u64) {
    *count = count.saturating_add(1);
}

/// The state of an arena and its stacks.
#[derive(Drop)]
pub(crate) struct Machine {
    pub(crate) pool: Pool,
    pub(crate) named: Vec<Named>,
    written: Vec<Written>,
    pub(crate) slabs: Vec<Slab>,
    pub(crate) stacks: Vec<Reserved>,
    pub(crate) counts: Counts,
}

impl Machine {
    /// An arena of a pool, with nothing in it.
    pub(crate) fn new(alloc: Global, pool: Pool) -> Machine {
        Machine {
            pool,
            named: Vec::new(alloc),
            written: Vec::new(alloc),
            slabs: Vec::new(alloc),
            stacks: Vec::new(alloc),
            counts: Counts::ZERO,
        }
    }

    /// The block that a root names.
    pub(crate) fn block_of(&self, root: u64) -> Option<Range> {
        for named in &self.named {
            if named.root == root {
                return Some(named.block);
            }
        }
        None
    }

    /// Makes a call for a seat.
    pub(crate) fn answer(
        &mut self,
        alloc: Global,
        seat: u64,
        call: Call,
    ) -> Result<Reply, AllocError> {
        match call {
            Call::Malloc { root, size } => self.malloc(alloc, seat, root, size),
            Call::Free { root } => self.free(seat, root),
            Call::Write { root, index, value } => self.write(root, index, value),
            Call::Read { root, index } => Ok(self.read(root, index)),
            Call::Move { from, to } => Ok(self.give_to(from, to)),
        }
    }

    fn malloc(
        &mut self,
        alloc: Global,
        seat: u64,
        root: u64,
        size: u64,
    ) -> Result<Reply, AllocError> {
        if root >= self.pool.roots {
            return Ok(Reply::NoRoot);
        }
        if let Some(block) = self.block_of(root) {
            return Ok(Reply::Occupied(block));
        }
        if size == 0 {
            return Ok(Reply::ZeroSize);
        }
        let granules = self.pool.granules.saturating_sub(self.pool.first);
        if size > granules.saturating_mul(GRANULE) {
            return Ok(Reply::TooLarge);
        }
        let site = match least_size(size) {
            Some(small) => self.small_site(alloc, seat, small)?,
            None => self.large_site(size),
        };
        let Some(block) = site else {
            one_more(&mut self.counts.none);
            return Ok(Reply::NoSpace);
        };
        self.named.push(Named { root, block })?;
        self.forget(root);
        Ok(Reply::Placed(block))
    }

    fn free(&mut self, seat: u64, root: u64) -> Result<Reply, AllocError> {
        if root >= self.pool.roots {
            return Ok(Reply::NoRoot);
        }
        let Some(block) = self.block_of(root) else {
            return Ok(Reply::Empty);
        };
        self.named.retain(|named| named.root != root);
        self.forget(root);
        self.bring_back(seat, block)?;
        Ok(Reply::Freed(block))
    }

    fn give_to(&mut self, from: u64, to: u64) -> Reply {
        if from >= self.pool.roots || to >= self.pool.roots {
            return Reply::NoRoot;
        }
        let Some(block) = self.block_of(from) else {
            return Reply::Empty;
        };
        if let Some(other) = self.block_of(to) {
            return Reply::Occupied(other);
        }
        for named in self.named.iter_mut() {
            if named.root == from {
                named.root = to;
            }
        }
        for word in self.written.iter_mut() {
            if word.root == from {
                word.root = to;
            }
        }
        one_more(&mut self.counts.moved);
        Reply::Moved(block)
    }

    fn write(&mut self, root: u64, index: u64, value: u64) -> Result<Reply, AllocError> {
        if let Some(refusal) = self.refusal_at(root, index) {
            return Ok(refusal);
        }
        self.written
            .retain(|word| word.root != root || word.index != index);
        self.written.push(Written { root, index, value })?;
        Ok(Reply::Wrote)
    }

    fn read(&self, root: u64, index: u64) -> Reply {
        if let Some(refusal) = self.refusal_at(root, index) {
            return refusal;
        }
        for word in &self.written {
            if word.root == root && word.index == index {
                return Reply::Value(word.value);
            }
        }
        Reply::AnyValue
    }

    // How a write or a read of a word is refused, if it is.
    fn refusal_at(&self, root: u64, index: u64) -> Option<Reply> {
        if root >= self.pool.roots {
            return Some(Reply::NoRoot);
        }
        match self.block_of(root) {
            None => Some(Reply::Empty),
            Some(block) if index >= block.size / 8 => Some(Reply::OutOfRange),
            Some(_) => None,
        }
    }

    // The words of a root's block are not known any more.
    fn forget(&mut self, root: u64) {
        self.written.retain(|word| word.root != root);
    }

    /// The line of the heap for a root, where it names a block.
    pub(crate) fn heap_line(&self, alloc: Global, root: u64) -> Result<Option<String>, AllocError> {
        let Some(block) = self.block_of(root) else {
            return Ok(None);
        };
        let at = block.at;
        let size = block.size;
        let line = format!(in alloc; "{root} {at} {size}")?;
        Ok(Some(line))
    }

    /// The lines of the heap behind the line that counts them.
    pub(crate) fn heap_lines(&self, alloc: Global) -> Result<Vec<String>, AllocError> {
        let mut lines = Vec::new(alloc);
        for root in 0..self.pool.roots {
            if let Some(line) = self.heap_line(alloc, root)? {
                lines.push(line)?;
            }
        }
        Ok(lines)
    }
}
