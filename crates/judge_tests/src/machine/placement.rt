// Which block a malloc gets, and where a block that comes back goes.
use crate::machine::blocks::{GRANULE, Range, Slab};
use crate::machine::{Machine, Reserved, one_more};
use std::alloc::{AllocError, Global};

// How many seats there are, and how many blocks a stack has at most.
const SEATS: u64 = 64;

const MOST: usize = 8;

impl Machine {
    // No large block and no slab has a byte in the granule.
    fn is_free(&self, granule: u64) -> bool {
        let range = Range {
            at: granule.saturating_mul(GRANULE),
            size: GRANULE,
        };
        !self.named.iter().any(|named| named.block.meets(range))
            && !self.slabs.iter().any(|slab| slab.range().meets(range))
    }

    // How many free granules stand in the run that begins at a granule; 0 where none begins there.
    fn run_at(&self, start: u64) -> u64 {
        if start > self.pool.first && self.is_free(start.saturating_sub(1)) {
            return 0;
        }
        let mut length = 0u64;
        for granule in start..self.pool.granules {
            if !self.is_free(granule) {
                return length;
            }
            length = length.saturating_add(1);
        }
        length
    }

    // The address at which the shortest run begins that has so many granules, the lowest among equals.
    fn best_fit(&self, count: u64) -> Option<u64> {
        let mut best = None;
        let mut least = u64::MAX;
        for start in self.pool.first..self.pool.granules {
            let length = self.run_at(start);
            if length >= count && length < least {
                least = length;
                best = Some(start.saturating_mul(GRANULE));
            }
        }
        best
    }

    /// Where a large request goes.
    pub(crate) fn large_site(&mut self, size: u64) -> Option<Range> {
        let count = size.div_ceil(GRANULE);
        let at = self.best_fit(count)?;
        one_more(&mut self.counts.large);
        Some(Range {
            at,
            size: count.saturating_mul(GRANULE),
        })
    }

    // No live block has a byte in the block.
    fn is_unused(&self, block: Range) -> bool {
        !self.named.iter().any(|named| named.block.meets(block))
    }

    // The block is in a stack.
    fn is_reserved(&self, block: Range) -> bool {
        self.stacks.iter().any(|own| own.block == block)
    }

    // The lowest available blocks of a slab, eight at most.
    fn available(&self, alloc: Global, slab: Slab) -> Result<Vec<Range>, AllocError> {
        let mut blocks = Vec::new(alloc);
        for number in 0..slab.capacity() {
            if blocks.len() >= MOST {
                return Ok(blocks);
            }
            let block = slab.block(number);
            if self.is_unused(block) && !self.is_reserved(block) {
                blocks.push(block)?;
            }
        }
        Ok(blocks)
    }

    // The lowest available blocks of the lowest slab of a size that has one, eight at most.
    fn lowest(&self, alloc: Global, size: u64) -> Result<Vec<Range>, AllocError> {
        let mut lowest = Vec::new(alloc);
        let mut least = u64::MAX;
        for slab in &self.slabs {
            if slab.size == size && slab.at < least {
                let blocks = self.available(alloc, *slab)?;
                if !blocks.is_empty() {
                    least = slab.at;
                    lowest = blocks;
                }
            }
        }
        Ok(lowest)
    }

    // Takes the top of a seat's stack for a size.
    fn pop(&mut self, seat: u64, size: u64) -> Option<Range> {
        let mut top = None;
        for (at, own) in self.stacks.iter().enumerate() {
            if own.seat == seat && own.block.size == size {
                top = Some(at);
            }
        }
        match top {
            Some(at) if at < self.stacks.len() => Some(self.stacks.remove(at).block),
            _ => None,
        }
    }

    // Gives the lowest available block of a size. The next ones go on the seat's stack, the lowest on top.
    fn refill(&mut self, alloc: Global, seat: u64, size: u64) -> Result<Option<Range>, AllocError> {
        let blocks = self.lowest(alloc, size)?;
        let Some((given, others)) = blocks.as_slice().split_first() else {
            return Ok(None);
        };
        for block in others.iter().rev() {
            self.stacks.push(Reserved {
                seat,
                block: *block,
            })?;
        }
        Ok(Some(*given))
    }

    // Takes the top of the stack for a size of the lowest-numbered seat that has one.
    fn steal(&mut self, size: u64) -> Option<Range> {
        for seat in 0..SEATS {
            if let Some(block) = self.pop(seat, size) {
                return Some(block);
            }
        }
        None
    }

    // How many live blocks lie in a slab.
    fn live_in(&self, slab: Slab) -> u64 {
        let mut live = 0u64;
        for named in &self.named {
            if named.block.meets(slab.range()) {
                live = live.saturating_add(1);
            }
        }
        live
    }

    // A live block in the slab has another size than the slab's.
    fn is_in_transition(&self, slab: Slab) -> bool {
        self.named.iter().any(|named| named.block.meets(slab.range())
            && named.block.size != slab.size)
    }

    // Some block of the slab overlaps no live block.
    fn has_unused(&self, slab: Slab) -> bool {
        for number in 0..slab.capacity() {
            if self.is_unused(slab.block(number)) {
                return true;
            }
        }
        false
    }

    // The slab is fit for a size.
    fn is_fit(&self, slab: Slab, size: u64) -> bool {
        let live = self.live_in(slab);
        let then = Slab { at: slab.at, size };
        slab.size != size
            && live <= 64
            && live.saturating_mul(5) <= slab.capacity()
            && !self.is_in_transition(slab)
            && self.has_unused(then)
    }

    // The slab that is fit for a size and has the fewest live blocks, the lowest among equals.
    fn fit_slab(&self, size: u64) -> Option<Slab> {
        let mut best: Option<Slab> = None;
        let mut fewest = u64::MAX;
        for slab in &self.slabs {
            if self.is_fit(*slab, size) {
                let live = self.live_in(*slab);
                let is_lower = match best {
                    Some(other) => slab.at < other.at,
                    None => true,
                };
                if live < fewest || live == fewest && is_lower {
                    fewest = live;
                    best = Some(*slab);
                }
            }
        }
        best
    }

    // The blocks of a slab leave all stacks.
    fn purge(&mut self, slab: Slab) {
        self.stacks.retain(|own| !own.block.meets(slab.range()));
    }

    // A slab takes a size.
    fn take_size(&mut self, slab: Slab, size: u64) {
        self.purge(slab);
        for own in self.slabs.iter_mut() {
            if own.at == slab.at {
                own.size = size;
            }
        }
        one_more(&mut self.counts.taken);
    }

    // A slab of a size is made, where four granules are free in a row. Whether they are.
    fn open(&mut self, size: u64) -> Result<bool, AllocError> {
        let Some(at) = self.best_fit(4) else {
            return Ok(false);
        };
        self.slabs.push(Slab { at, size })?;
        one_more(&mut self.counts.opened);
        Ok(true)
    }

    /// Where a small request goes, of a seat and of blocks of a size.
    pub(crate) fn small_site(
        &mut self,
        alloc: Global,
        seat: u64,
        size: u64,
    ) -> Result<Option<Range>, AllocError> {
        if let Some(block) = self.pop(seat, size) {
            one_more(&mut self.counts.own);
            return Ok(Some(block));
        }
        if let Some(block) = self.refill(alloc, seat, size)? {
            one_more(&mut self.counts.refilled);
            return Ok(Some(block));
        }
        if let Some(block) = self.steal(size) {
            one_more(&mut self.counts.stolen);
            return Ok(Some(block));
        }
        if let Some(slab) = self.fit_slab(size) {
            self.take_size(slab, size);
            return self.refill(alloc, seat, size);
        }
        if self.open(size)? {
            return self.refill(alloc, seat, size);
        }
        Ok(None)
    }

    // How many blocks of a size a seat's stack has.
    fn height(&self, seat: u64, size: u64) -> usize {
        self.stacks
            .iter()
            .filter(|own| own.seat == seat && own.block.size == size)
            .count()
    }

    /// A block was freed for a seat: its slab leaves, or the block may go on the seat's stack.
    pub(crate) fn bring_back(&mut self, seat: u64, block: Range) -> Result<(), AllocError> {
        let found = self
            .slabs
            .iter()
            .copied()
            .find(|slab| slab.range().meets(block));
        let Some(slab) = found else {
            return Ok(());
        };
        if block.size != slab.size {
            one_more(&mut self.counts.old);
        }
        if self.live_in(slab) == 0 {
            self.purge(slab);
            self.slabs.retain(|own| own.at != slab.at);
            one_more(&mut self.counts.left);
        } else if block.size == slab.size && self.height(seat, slab.size) < MOST {
            self.stacks.push(Reserved { seat, block })?;
        }
        Ok(())
    }
}
