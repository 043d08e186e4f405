// An arena.
ghost use Rattle.std.specs.Prelude.{◌≡◌, ◌*◌, ◌<◌, ◌≤◌, length};
ghost use Rattle.pmem_lines.specs.Words.{AreZeros};
ghost use Rattle.pmem_lines.specs.Events.{CrashOnly, IsQuiet};
ghost use Rattle.pmem_lines.specs.Pmem.{words_of, began, appended};
ghost use Rattle.pool_layout.specs.Header.{granules_in};
ghost use Rattle.pool_layout.specs.Layout.{layout_of};
ghost use Rattle.heap_model.specs.declared.call.Call.TheVariants as calls;
ghost use Rattle.heap_model.specs.Machine.{no_heap};
ghost use Rattle.heap_model.specs.Placement.{no_stacks};
ghost use Rattle.thread_cache.specs.Stacks.{stacks_of};
ghost use Rattle.arena_core.specs.Answer.{malloc_reply, free_reply};
ghost use Rattle.arena_core.specs.Call.{IsReady};
ghost use Rattle.gc_check.specs.Image.{IsGcExactImage};
ghost use Rattle.gc_check.specs.State.{HasGcState};
ghost use Rattle.gc_heap.specs.Answered.{IsGcAnswered};
ghost use Rattle.gc_heap.specs.Arena.{IsGcBlockOfRoot};
ghost use Rattle.gc_heap.specs.Events.{gc_format_events};
ghost use Rattle.gc_heap.specs.Formatted.{IsGcFormattedOrNot};
ghost use Rattle.gc_heap.specs.Payload.{IsGcViewOf, IsGcWriteAnswered};

use crate::GcRoom;
use crate::adopting::read_image;
use crate::blocks::block_of;
use crate::carrying::{carry_out_given, carry_out_place};
use crate::payload::{carry_out_write, plan_write};
use crate::planning::{plan_free, plan_malloc};
use crate::room::VERSION;
use arena_core::{BlockRefusal, FreeRefusal, Freed, MallocRefusal, Placed, write_header};
use book_log::BookLog;
use heap_indexes::HeapIndexes;
use heap_model::Block;
use pmem_lines::Pmem;
use pool_layout::{PoolHeader, PoolVariant};
use std::marker::Model;

/// An arena of the GC variant over a memory of granules of 16384 bytes, with 4096 roots of which each names a block or none. A small
/// block, of at most 16384 bytes, is one of a slab; a large one is whole granules. In contracts it is what its memory means, and
/// the stacks of reserved blocks.
#[derive(Drop)]
pub struct GcArena<P: Pmem> {
    device: P,
    log: BookLog,
    indexes: HeapIndexes,
}

impl<P: Pmem> Model for GcArena<P> {
    ghost use Rattle.gc_heap.specs.Arena.{GcState, IsGcArena};

    ghost Value = { GcState };

    ghost view = { λ a. record { device = P.state a.device; stacks = a.indexes.supply.stacks } };

    ghost invariant = { λ a. IsGcArena (P.state a.device) a.log a.indexes };
}

impl<P: Pmem> GcArena<P> {
    /// Makes an arena anew over a memory of zeros, as number `number` of a pool of `arenas`: at most 16. The memory has the room of
    /// version 1. It begins one call, and has five events. Afterwards no root names a block. After a crash within it the image is
    /// refused for its first word, or it is exact and has no block. It takes no memory.
    pub fn format(space: GcRoom, p: P, number: u32, arenas: u32) -> GcArena<P>
        requires quiet { IsQuiet (P.state p).events }
        requires room { (layout_of 1).room ≤ (P.state p).room }
        requires size { length (words_of (P.state p)) ≡ 2048 * space }
        requires zero { AreZeros (words_of (P.state p)) }
        requires number { number < arenas }
        requires few { arenas ≤ 16 }
        ensures device { result.device ≡ appended (began (P.state p)) (gc_format_events (record { version = 1; number = number; arenas = arenas; granules = space })) }
        ensures stacks { stacks_of result.stacks ≡ no_stacks }
        ensures ready { IsReady result.device }
        ensures exact { IsGcExactImage (words_of result.device) }
        ensures empty { HasGcState (words_of result.device) no_heap }
        ensures crash { CrashOnly result.device.base result.device.events IsGcFormattedOrNot }
    {
        let granules = space.granules();
        let GcRoom { mut log, indexes } = space;
        let header = PoolHeader {
            version: VERSION,
            number,
            arenas,
            granules,
        };
        let mut device = p;
        device.begin();
        write_header(&mut device, PoolVariant::Gc, &header);
        log.load(&device);
        GcArena {
            device,
            log,
            indexes,
        }
    }

    /// Makes an arena over a memory whose image is exact; `space` is for as many granules as the image has, and the memory has the
    /// room of version 1. It begins no call and has no event, and the heap is that of the image. It takes no memory.
    pub fn adopt(space: GcRoom, p: P) -> GcArena<P>
        requires quiet { IsQuiet (P.state p).events }
        requires room { (layout_of 1).room ≤ (P.state p).room }
        requires exact { IsGcExactImage (words_of (P.state p)) }
        requires size { granules_in (words_of (P.state p)) ≡ space }
        ensures device { result.device ≡ P.state p }
        ensures stacks { stacks_of result.stacks ≡ no_stacks }
        ensures ready { IsReady result.device }
    {
        let GcRoom {
            mut log,
            mut indexes,
        } = space;
        log.load(&p);
        read_image(&p, &log, &mut indexes);
        GcArena {
            device: p,
            log,
            indexes,
        }
    }

    /// Gives a root a block of at least `size` bytes. A size of at most 16384 takes a block of its class: the top of the seat's own
    /// stack; where that is empty, the lowest available block of the lowest slab of the class that has one, and the next ones of
    /// that slab, up to seven, go on the seat's stack; where there is none, the top of the stack of the lowest-numbered seat that
    /// has one; where there is none either, the lowest unused block of the slab that takes the class, while its live blocks live on:
    /// the one with the fewest of those that are fit, which leaves all stacks; and else the first of a slab that is opened at the
    /// best fit of four granules. Behind the last two the next blocks go on the seat's stack. Any other size takes whole granules at
    /// their best fit. The answer is the machine's: `NoRoot` where there is no such root word, `Occupied` where the root names a
    /// block, `ZeroSize`, `TooLarge` above the bytes of the whole heap, `NoSpace`.
    /// It begins one call, ahead of its events, also where it refuses; a refusal has no event and changes no word and no stack. Every
    /// other block keeps its words. After a crash within it the heap is the one before the call or the one after it. It takes no
    /// memory. `seat` is the caller's, below 64.
    pub fn malloc_to(&mut self, seat: u32, root: u32, size: u64) -> Result<Placed, MallocRefusal>
        requires { seat < 64 }
        ensures { IsGcAnswered seat self.old self.new (calls.Malloc root size) (malloc_reply result) }
    {
        let plan = plan_malloc(&self.device, &mut self.indexes, seat, root, size);
        self.device.begin();
        match plan {
            Ok(place) => Ok(carry_out_place(&mut self.device, &mut self.log, root, place)),
            Err(refusal) => Err(refusal),
        }
    }

    /// Takes a root its block, and the block's slab out of the heap, and its blocks out of all stacks, where no other block is left in
    /// it. A block of its slab's class goes on the seat's stack where that has less than eight. The answer is the machine's: `NoRoot`
    /// where there is no such root word, then `Empty` where the root names no block. It begins one call, ahead of its events, also
    /// where it refuses; a refusal has no event and changes no word. Every other block keeps its words. After a crash within it the
    /// heap is the one before the call or the one after it. It takes no memory. `seat` is the caller's, below 64.
    pub fn free_from(&mut self, seat: u32, root: u32) -> Result<Freed, FreeRefusal>
        requires { seat < 64 }
        ensures { IsGcAnswered seat self.old self.new (calls.Free root) (free_reply result) }
    {
        let plan = plan_free(&self.device, &self.log, root);
        self.device.begin();
        match plan {
            Ok(block) => {
                let given = self.indexes.give_back(seat, block.at, block.size);
                carry_out_given(&mut self.device, &mut self.log, root, given);
                Ok(Freed {
                    at: block.at,
                    size: block.size,
                })
            }
            Err(refusal) => Err(refusal),
        }
    }

    /// Makes the words of a root's block from word `from` on those that are given, durably. The answer is the machine's: `NoRoot`
    /// where there is no such root word, then `Empty` where the root names no block, then `OutOfRange` where `from` plus the number
    /// of words is above the block's size divided by 8. It begins one call, ahead of its events, also where it refuses; a refusal
    /// has no event and changes no word, and no words make no event. Every other word of the arena is as before. After a crash
    /// within it each word of the range is old or new, and all else is as before. It takes no memory. `words` has at most 512
    /// words.
    pub fn write(&mut self, root: u32, from: u32, words: &[u64]) -> Result<(), BlockRefusal>
        requires { length words.now ≤ 512 }
        ensures { IsGcWriteAnswered self.old self.new root from words.now result }
    {
        let block = block_of(&self.device, &self.log, root);
        let plan = plan_write(block, from, words.len() as u64);
        self.device.begin();
        carry_out_write(&mut self.device, plan, words)
    }

    /// Lends all words of a root's block, in place: as many as its size in bytes divided by 8. `NoRoot` exactly where there is no such
    /// root word, then `Empty` exactly where the root names no block.
    pub fn view(&self, root: u32) -> Result<&[u64], BlockRefusal>
        ensures view { IsGcViewOf (words_of self.now.device) root result }
        ensures exact { IsGcExactImage (words_of self.now.device) }
        ensures ready { IsReady self.now.device }
    {
        match block_of(&self.device, &self.log, root) {
            Ok(block) => Ok(self.device.words(block.at, block.size / 8)),
            Err(refusal) => Err(refusal),
        }
    }

    /// The block that a root names. `None` exactly where there is no such root word, or it names no block.
    #[tactic(auto, using(std::proofs::lemmas::Grind::common_steps, crate::proofs::RootBlocks::block_refused))]
    pub fn block(&self, root: u32) -> Option<Block>
        ensures { IsGcBlockOfRoot (words_of self.now.device) root result }
    {
        match block_of(&self.device, &self.log, root) {
            Ok(block) => Some(block),
            Err(_) => None,
        }
    }

    /// Lends the memory.
    pub fn pmem(&self) -> &P
        ensures device { P.state result.now ≡ self.now.device }
        ensures ready { IsReady self.now.device }
        ensures exact { IsGcExactImage (words_of self.now.device) }
    {
        &self.device
    }

    /// Gives the memory back.
    pub fn into_pmem(self) -> P
        ensures device { P.state result ≡ self.device }
        ensures ready { IsReady self.device }
        ensures exact { IsGcExactImage (words_of self.device) }
    {
        let GcArena {
            device,
            log,
            indexes,
        } = self;
        drop(log);
        drop(indexes);
        device
    }
}
