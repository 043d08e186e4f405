// The slabs with their available blocks, and the stacks of reserved ones.
ghost use Rattle.std.specs.Prelude.{◌≡◌, ◌↔◌, ℕ, ◌<◌, ◌≤◌, List, None, Some, [], ◌∷◌, true, false, length, MatchOption, IfSome, IfOk};
ghost use Rattle.size_classes.specs.Classes.{class_capacity};
ghost use Rattle.heap_model.specs.Placement.{no_stacks, Has, addresses};
ghost use Rattle.bit_words.specs.Numbers.{has as has_number};
ghost use Rattle.slab_index.specs.SlabSet.{class_in, IsSlab, IsBlock};
ghost use Rattle.thread_cache.specs.Stacks.{stacks_of};
ghost use Rattle.block_supply.specs.Supply.{MayBeGiven, IsInSlabOf, IsInNoSlabOf, IsClearOf, HasSlabMore, HasSlabLess, IsWith, TookBlock, HadNoOpen, CameBack};
ghost use Rattle.block_supply.specs.Kept.{HadNoTop, TookTop, HadNoAvailable, TookLowest, HadNoStack, TookFirst};

use crate::place::{address_of, block_at, note_slab, slab_with};
use crate::{SlabAt, SlabBlock};
use arrayvec::ArrayVec;
use pmem_lines::OutOfMemory;
use pool_layout::granule_at;
use slab_index::{SlabBlocks, SlabIndex};
use std::alloc::Global;
use std::marker::Model;
use thread_cache::ThreadCaches;

/// How many blocks of a slab are taken at once where a seat has none of a class: one to be given out, and the rest for the
/// seat's stack.
const REFILL: u32 = 8;

/// Which slabs an arena has, which of their blocks are available, and which are reserved in the stacks of 64 seats and 36
/// classes. In contracts it is a `Supply`.
#[derive(Drop)]
pub struct BlockSupply {
    slabs: SlabIndex,
    // For each granule of a slab how many granules before it the slab begins. Nothing is known of the others.
    notes: Vec<u8>,
    caches: ThreadCaches,
}

impl Model for BlockSupply {
    ghost use Rattle.block_supply.specs.Supply.{Supply};

    ghost Value = { Supply };

    ghost use Rattle.block_supply.specs.Kept.{IsKept};

    ghost view = { λ a. record { slabs = a.slabs; stacks = a.caches } };

    ghost invariant = { λ a. IsKept a.slabs a.caches };
}

impl BlockSupply {
    /// The supply of an arena of 16 to 4096 granules, in which no slab begins, and all stacks are empty. It takes 523 bytes
    /// for each granule and some 111,000 beside, and refuses where there is no memory for them; no later call takes any.
    pub fn new(alloc: Global, granules: u32) -> Result<BlockSupply, OutOfMemory>
        requires least { 16 ≤ granules }
        requires most { granules ≤ 4096 }
        ensures granules { IfOk result (λ supply. supply.slabs.granules ≡ granules) }
        ensures classes { IfOk result (λ supply. (s : ℕ) → class_in supply.slabs s ≡ None) }
        ensures stacks { IfOk result (λ supply. stacks_of supply.stacks ≡ no_stacks) }
    {
        let notes = vec![in alloc; 0; granules as usize]?;
        let slabs = SlabIndex::new(alloc, granules)?;
        match ThreadCaches::new(alloc) {
            Ok(caches) => Ok(BlockSupply {
                slabs,
                notes,
                caches,
            }),
            Err(fault) => {
                drop(slabs);
                Err(fault)
            }
        }
    }

    /// The class of the slab that begins at a granule. `None` exactly where none does, and so past the arena's end.
    pub fn class_at(&self, start: u32) -> Option<u8>
        ensures class { result ≡ class_in self.now.slabs start }
        ensures inside { IfSome result (λ _. start < self.now.slabs.granules) }
        ensures known { IfSome result (λ class. class < 36) }
    {
        self.slabs.class_at(start)
    }

    /// The slab that has a granule. `None` exactly where none has it.
    pub fn slab_with(&self, granule: u32) -> Option<SlabAt>
        ensures { MatchOption result (IsInNoSlabOf (class_in self.now.slabs) granule) (λ slab. IsInSlabOf (class_in self.now.slabs) granule slab.start slab.class) }
    {
        slab_with(&self.slabs, &self.notes, granule)
    }

    /// Whether a block of a slab is open: available, or in a stack.
    pub fn is_open(&self, start: u32, number: u32) -> bool
        requires { IsBlock self.now.slabs start number }
        ensures { (result ≡ true) ↔ MayBeGiven self.now start number }
    {
        match self.slabs.class_at(start) {
            Some(class) => {
                let at = address_of(class, SlabBlock { start, number });
                self.slabs.is_available(start, number) || self.caches.holds(at)
            }
            None => false,
        }
    }

    /// Takes an open block of the class for a seat, so that it is not open any more: the top of the seat's own stack; where
    /// that is empty, the lowest available block of the lowest slab of the class that has one, and the next ones of that
    /// slab, up to seven, go on the seat's stack; where there is none, the top of the stack of the lowest-numbered seat that
    /// has one. `None` exactly where no block of the class is open.
    pub fn take(&mut self, seat: u32, class: u8) -> Option<SlabBlock>
        requires seat { seat < 64 }
        requires class { class < 36 }
        ensures { MatchOption result (HadNoOpen self.old class self.new) (λ block. TookBlock self.old seat class block self.new) }
    {
        if let Some(block) = self.pop(seat, class) {
            return Some(block);
        }
        if let Some(block) = self.refill(seat, class) {
            return Some(block);
        }
        self.steal(class)
    }

    /// Brings a block of a slab back that is not open: it goes on top of the seat's stack of the slab's class where that has
    /// less than eight, and else it is available. All else stays.
    pub fn put_back(&mut self, seat: u32, block: SlabBlock)
        requires seat { seat < 64 }
        requires block { IsBlock self.old.slabs block.start block.number }
        requires used { ¬ (MayBeGiven self.old block.start block.number) }
        ensures { (class : ℕ) → class_in self.old.slabs block.start ≡ Some class → CameBack self.old seat class block self.new }
    {
        if let Some(class) = self.slabs.class_at(block.start) {
            let at = address_of(class, block);
            if !self.caches.put_back(seat, class, at) {
                self.slabs.give(block.start, block.number);
            }
        }
    }

    /// Makes a block of a slab available that is not open. All else stays.
    pub fn make_available(&mut self, start: u32, number: u32)
        requires block { IsBlock self.old.slabs start number }
        requires used { ¬ (MayBeGiven self.old start number) }
        ensures block { IsWith self.old self.new start number }
        ensures stacks { self.new.stacks ≡ self.old.stacks }
    {
        self.slabs.give(start, number);
    }

    /// Adds a slab of the class on four granules that no other has. All of its blocks are available. All else stays.
    pub fn add(&mut self, start: u32, class: u8)
        requires inside { start < self.old.slabs.granules }
        requires class { class < 36 }
        requires fresh { class_in self.old.slabs start ≡ None }
        requires clear { IsClearOf self.old start }
        ensures { HasSlabMore self.old self.new start class (λ i. i < class_capacity class) }
    {
        self.slabs.add(start, class);
        note_slab(&mut self.notes, start);
    }

    /// Adds a slab of the class on four granules that no other has, of which the blocks are available that a set of 4096
    /// numbers lacks. All else stays.
    pub fn add_used(&mut self, start: u32, class: u8, used: &[u64])
        requires inside { start < self.old.slabs.granules }
        requires class { class < 36 }
        requires fresh { class_in self.old.slabs start ≡ None }
        requires clear { IsClearOf self.old start }
        requires size { length used.now ≡ 64 }
        ensures { HasSlabMore self.old self.new start class (λ i. (i < class_capacity class) × (has_number used.now i ≡ false)) }
    {
        self.slabs.add(start, class);
        self.slabs.take_all(start, used);
        note_slab(&mut self.notes, start);
    }

    /// Takes the slab that begins at a granule out, with all of its blocks, from all stacks too. All else stays.
    pub fn remove(&mut self, start: u32)
        requires { IsSlab self.old.slabs start }
        ensures { HasSlabLess self.old self.new start }
    {
        self.caches.purge_slab(granule_at(start));
        self.slabs.remove(start);
    }

    // Takes the top of the seat's own stack.
    fn pop(&mut self, seat: u32, class: u8) -> Option<SlabBlock>
        requires seat { seat < 64 }
        requires class { class < 36 }
        ensures { MatchOption result (HadNoTop self.old seat class self.new) (λ block. TookTop self.old seat class block self.new) }
    {
        match self.caches.pop(seat, class) {
            Some(at) => Some(block_at(&self.slabs, &self.notes, class, at)),
            None => None,
        }
    }

    // Takes the lowest available block of the class, and puts the next ones of its slab on the seat's stack, which is empty.
    fn refill(&mut self, seat: u32, class: u8) -> Option<SlabBlock>
        requires seat { seat < 64 }
        requires class { class < 36 }
        requires empty { stacks_of self.old.stacks seat class ≡ [] }
        ensures { MatchOption result (HadNoAvailable self.old class self.new) (λ block. TookLowest self.old seat class block self.new) }
    {
        match self.slabs.take_lowest(class, REFILL) {
            Some(blocks) => {
                self.caches.refill(seat, class, &rest_of(class, &blocks));
                Some(SlabBlock {
                    start: blocks.start,
                    number: blocks.numbers[0],
                })
            }
            None => None,
        }
    }

    // Takes the top of the stack of the lowest-numbered seat that has one of the class.
    fn steal(&mut self, class: u8) -> Option<SlabBlock>
        requires class { class < 36 }
        ensures { MatchOption result (HadNoStack self.old class self.new) (λ block. TookFirst self.old class block self.new) }
    {
        match self.caches.steal(class) {
            Some(at) => Some(block_at(&self.slabs, &self.notes, class, at)),
            None => None,
        }
    }
}

// The bytes at which blocks of a slab of the class begin, but for the first one.
fn rest_of(class: u8, blocks: &SlabBlocks) -> ArrayVec<u32, 8>
    requires class { class < 36 }
    requires few { blocks.now.start < 4096 }
    requires within { (number : ℕ) → Has blocks.now.numbers.items number → number < class_capacity class }
    ensures { (first : ℕ) (rest : List ℕ) → blocks.now.numbers.items ≡ first ∷ rest → result.items ≡ addresses blocks.now.start class rest }
{
    let mut rest = ArrayVec::new();
    for i in 1..blocks.numbers.len() {
        let block = SlabBlock {
            start: blocks.start,
            number: blocks.numbers[i],
        };
        rest.push(address_of(class, block));
    }
    rest
}
