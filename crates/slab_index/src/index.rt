// The index of slabs.
ghost use Rattle.std.specs.Prelude.{◌≡◌, ◌==◌, ℕ, ◌/◌, ◌%◌, ◌<◌, ◌≤◌, ◌&&◌, nat_lt, true, false, Some, None, length, if◌then◌else◌, MatchOption, IfSome, IfOk};
ghost use Rattle.std.specs.Int.{bit_at};
ghost use Rattle.size_classes.specs.Classes.{class_capacity};
ghost use Rattle.heap_model.specs.Machine.{with_key};
ghost use Rattle.bit_words.specs.Numbers.{has as has_number};
ghost use Rattle.slab_index.specs.SlabSet.{class_in, is_available, IsSlab, IsBlock, HasNoBlock, IsLowest, HadNoBlock, TookLowest};
ghost use Rattle.slab_index.specs.Kept.{IsUsedUp, IsFirstBlock, WasUsedUp, TookFirst, TookSome};

use crate::words::{NUMBERS, Summed, least_at, put_summed, summarize};
use crate::{SlabBlock, SlabBlocks};
use arrayvec::ArrayVec;
use bit_words::has;
use pmem_lines::OutOfMemory;
use size_classes::capacity;
use std::alloc::Global;
use std::marker::Model;

// How many words have the blocks of a slab.
const WORDS: u32 = 64;

const CLASSES: usize = 36;

/// Which slabs an arena has, and which of their blocks may be given out. A slab is known by the granule that it begins at.
/// In contracts it is a set of slabs.
#[derive(Drop)]
pub struct SlabIndex {
    granules: u32,
    classes: Vec<Option<u8>>,
    // The available blocks, by granule.
    blocks: Summed,
    // The slabs that have an available block, by class.
    starts: Summed,
}

impl Model for SlabIndex {
    ghost use Rattle.slab_index.specs.SlabSet.{SlabSet};

    ghost Value = { SlabSet };

    ghost use Rattle.slab_index.specs.Kept.{set_of, IsIndex};

    ghost view = { λ a. set_of a.granules a.classes.items a.blocks.words.items };

    ghost invariant = { λ a. IsIndex a.granules a.classes.items a.blocks.words.items a.blocks.some.items a.starts.words.items a.starts.some.items };
}

impl SlabIndex {
    /// An index of an arena of 16 to 4096 granules, in which no slab begins. It takes 522 bytes for each granule and 18,720
    /// beside, and refuses where there is no memory for them; no later call takes any.
    pub fn new(alloc: Global, granules: u32) -> Result<SlabIndex, OutOfMemory>
        requires least { 16 ≤ granules }
        requires most { granules ≤ 4096 }
        ensures granules { IfOk result (λ index. index.granules ≡ granules) }
        ensures classes { IfOk result (λ index. (s : ℕ) → class_in index s ≡ None) }
        ensures blocks { IfOk result (λ index. (s i : ℕ) → is_available index s i ≡ false) }
    {
        let classes = vec![in alloc; None; granules as usize]?;
        let blocks = Summed::new(alloc, granules as usize)?;
        let starts = Summed::new(alloc, CLASSES)?;
        Ok(SlabIndex {
            granules,
            classes,
            blocks,
            starts,
        })
    }

    /// The class of the slab that begins at a granule. `None` exactly where none does, and so past the arena's end. Only
    /// blocks below the capacity of that class are available.
    pub fn class_at(&self, start: u32) -> Option<u8>
        ensures class { result ≡ class_in self.now start }
        ensures inside { IfSome result (λ _. start < self.now.granules) }
        ensures known { IfSome result (λ class. class < 36) }
        ensures blocks { (i : ℕ) → is_available self.now start i ≡ true → IsBlock self.now start i }
    {
        if start < self.granules {
            self.classes[start as usize]
        } else {
            None
        }
    }

    /// Whether block `number` of the slab that begins at a granule is available. None is where no slab begins.
    pub fn is_available(&self, start: u32, number: u32) -> bool
        ensures { result ≡ is_available self.now start number }
    {
        if start >= self.granules || number >= NUMBERS {
            return false;
        }
        has(&self.blocks.words, NUMBERS * start + number)
    }

    /// Adds a slab of the class at a granule where none begins. All of its blocks are available. The other slabs and their
    /// blocks stay as they are.
    pub fn add(&mut self, start: u32, class: u8)
        requires inside { start < self.old.granules }
        requires class { class < 36 }
        requires fresh { class_in self.old start ≡ None }
        ensures granules { self.new.granules ≡ self.old.granules }
        ensures classes { (s : ℕ) → class_in self.new s ≡ with_key (class_in self.old) start (Some class) s }
        ensures blocks { (s i : ℕ) → is_available self.new s i ≡ (if s == start then nat_lt i (class_capacity class) else is_available self.old s i) }
    {
        self.classes[start as usize] = Some(class);
        self.blocks.fill(start, capacity(class));
        put_summed(&mut self.starts, NUMBERS * u32::from(class) + start, true);
    }

    /// Takes the slab that begins at a granule out of the set, with all of its blocks. The other slabs and their blocks
    /// stay as they are.
    pub fn remove(&mut self, start: u32)
        requires { IsSlab self.old start }
        ensures granules { self.new.granules ≡ self.old.granules }
        ensures classes { (s : ℕ) → class_in self.new s ≡ with_key (class_in self.old) start None s }
        ensures blocks { (s i : ℕ) → is_available self.new s i ≡ (if s == start then false else is_available self.old s i) }
    {
        if let Some(class) = self.class_at(start) {
            self.classes[start as usize] = None;
            self.blocks.fill(start, 0);
            put_summed(&mut self.starts, NUMBERS * u32::from(class) + start, false);
        }
    }

    /// The lowest available block of the lowest slab of the class that has one. `None` exactly where no slab of the class
    /// has an available block. It looks at four words.
    pub fn lowest(&self, class: u8) -> Option<SlabBlock>
        requires { class < 36 }
        ensures { MatchOption result (HasNoBlock self.now class) (IsLowest self.now class) }
    {
        let start = least_at(&self.starts, u32::from(class))?;
        let number = least_at(&self.blocks, start)?;
        Some(SlabBlock { start, number })
    }

    /// Takes up to `most` blocks, from one to eight: the lowest available ones of the lowest slab of the class that has one,
    /// so that they are not available any more. Their numbers rise. `None` exactly where no slab of the class has an
    /// available block. The slabs and the other blocks stay as they are. It looks at four words, and at six for each block.
    pub fn take_lowest(&mut self, class: u8, most: u32) -> Option<SlabBlocks>
        requires class { class < 36 }
        requires some { 0 < most }
        requires few { most ≤ 8 }
        ensures { MatchOption result (HadNoBlock self.old class self.new) (λ blocks. TookLowest self.old class most blocks self.new) }
    {
        // That only blocks of slabs are available is known of the fields alone.
        let _ = &self.blocks;
        let start = self.lowest(class)?.start;
        let numbers = self.take_some(start, most);
        Some(SlabBlocks { start, numbers })
    }

    /// Takes a block that is available, so that it is not any more. The slabs and the other blocks stay as they are.
    pub fn take(&mut self, start: u32, number: u32)
        requires { is_available self.old start number ≡ true }
        ensures granules { self.new.granules ≡ self.old.granules }
        ensures classes { (s : ℕ) → class_in self.new s ≡ class_in self.old s }
        ensures blocks { (s i : ℕ) → is_available self.new s i ≡ (if s == start && i == number then false else is_available self.old s i) }
    {
        // That only blocks of slabs are available is known of the fields alone.
        let _ = &self.blocks;
        self.turn(start, number, false);
    }

    /// Makes a block of a slab available that is not. The slabs and the other blocks stay as they are.
    pub fn give(&mut self, start: u32, number: u32)
        requires block { IsBlock self.old start number }
        requires taken { is_available self.old start number ≡ false }
        ensures granules { self.new.granules ≡ self.old.granules }
        ensures classes { (s : ℕ) → class_in self.new s ≡ class_in self.old s }
        ensures blocks { (s i : ℕ) → is_available self.new s i ≡ (if s == start && i == number then true else is_available self.old s i) }
    {
        self.turn(start, number, true);
    }

    /// Takes the blocks of a slab that a set of 4096 numbers has, those of them that are available. The slabs and the other
    /// blocks stay as they are.
    pub fn take_all(&mut self, start: u32, numbers: &[u64])
        requires slab { IsSlab self.old start }
        requires size { length numbers.now ≡ 64 }
        ensures granules { self.new.granules ≡ self.old.granules }
        ensures classes { (s : ℕ) → class_in self.new s ≡ class_in self.old s }
        ensures blocks { (s i : ℕ) → is_available self.new s i ≡ (if s == start && has_number numbers.now i then false else is_available self.old s i) }
    {
        for at in 0..WORDS {
            self.take_word(start, at, numbers[at as usize]);
        }
    }

    // Takes up to so many of the lowest available blocks of a slab.
    fn take_some(&mut self, start: u32, most: u32) -> ArrayVec<u32, 8>
        requires slab { IsSlab self.old start }
        requires few { most ≤ 8 }
        ensures { TookSome self.old start most result.items self.new }
    {
        let mut numbers = ArrayVec::new();
        for _ in 0..most {
            let Some(number) = self.take_first(start) else {
                return numbers;
            };
            numbers.push(number);
        }
        numbers
    }

    // Takes the lowest available block of a slab.
    fn take_first(&mut self, start: u32) -> Option<u32>
        requires { IsSlab self.old start }
        ensures { MatchOption result (WasUsedUp self.old start self.new) (λ number. TookFirst self.old start number self.new) }
    {
        let number = self.first_of(start)?;
        self.take(start, number);
        Some(number)
    }

    // The lowest available block of a slab.
    fn first_of(&self, start: u32) -> Option<u32>
        requires { IsSlab self.now start }
        ensures { MatchOption result (IsUsedUp self.now start) (IsFirstBlock self.now start) }
    {
        least_at(&self.blocks, start)
    }

    // Takes those blocks of a slab that a word of a set has, which is word `at` of it.
    fn take_word(&mut self, start: u32, at: u32, word: u64)
        requires slab { IsSlab self.old start }
        requires at { at < 64 }
        ensures granules { self.new.granules ≡ self.old.granules }
        ensures classes { (s : ℕ) → class_in self.new s ≡ class_in self.old s }
        ensures blocks { (s i : ℕ) → is_available self.new s i ≡ (if s == start && (i / 64 == at && bit_at word (i % 64) == 1) then false else is_available self.old s i) }
    {
        if let Some(class) = self.class_at(start) {
            let place = 64 * start + at;
            self.blocks.take(place, word);
            summarize(&mut self.blocks, &mut self.starts, class, place);
        }
    }

    // Makes a block of a slab available or not.
    fn turn(&mut self, start: u32, number: u32, on: bool)
        requires { IsBlock self.old start number }
        ensures granules { self.new.granules ≡ self.old.granules }
        ensures classes { (s : ℕ) → class_in self.new s ≡ class_in self.old s }
        ensures blocks { (s i : ℕ) → is_available self.new s i ≡ (if s == start && i == number then on else is_available self.old s i) }
    {
        if let Some(class) = self.class_at(start) {
            self.blocks.put(NUMBERS * start + number, on);
            let place = 64 * start + number / 64;
            summarize(&mut self.blocks, &mut self.starts, class, place);
        }
    }
}
