// The normal slabs of an arena, and which of them may take another class.
ghost use Rattle.std.specs.Prelude.{◌≡◌, ℕ, ◌<◌, ◌≤◌, length, Some, None, MatchOption, IfSome, IfOk};
ghost use Rattle.heap_model.specs.Machine.{with_key};
ghost use Rattle.slab_index.specs.Candidates.{normal_in, HasNoCandidate, IsFirstCandidate};

use crate::UnfitSlabs;
use crate::sparse::{COUNTS, in_row, mark_anew, mark_class, mark_sparse};
use crate::words::Summed;
use pmem_lines::OutOfMemory;
use std::alloc::Global;
use std::marker::Model;

// How many words have the starts of the slabs of a class.
const START_WORDS: usize = 64;

const CLASSES: usize = 36;

/// A normal slab: no live block in it has another size than that of its class. Its class, and how many live blocks lie in it.
#[derive(Clone, Copy, Debug, PartialEq, Eq)]
pub struct NormalSlab {
    pub class: u8,
    pub live: u32,
}

/// A slab that may take another class, by the granule that it begins at, and how many live blocks lie in it.
#[derive(Clone, Copy, Debug, PartialEq, Eq)]
pub struct Candidate {
    pub start: u32,
    pub live: u32,
}

/// The normal slabs of an arena, and which of them have so few live blocks that they may take another class: at most 64, and
/// at most a fifth of the blocks that they hold. In contracts it is the list of what begins at each granule.
///
/// A search looks at one word for each number of live blocks from 0 to 64, and of those numbers that some slab has at a bit for
/// each 64 granules, and at three words for each 64 among which such a slab begins. It ends at the first slab of another class
/// that was not found unfit.
#[derive(Drop)]
pub struct Candidates {
    normal: Vec<Option<NormalSlab>>,
    // The normal slabs with so few live blocks, by their number.
    starts: Summed,
    // All normal slabs: 4096 numbers for each class.
    classes: Vec<u64>,
}

impl Model for Candidates {
    ghost use Rattle.std.specs.Prelude.{List, Option};
    ghost use Rattle.slab_index.specs.declared.candidates.NormalSlab.{NormalSlab};

    ghost Value = { List (Option NormalSlab) };

    ghost use Rattle.slab_index.specs.Sparse.{AreKept};

    ghost view = { λ a. a.normal.items };

    ghost invariant = { λ a. AreKept a.normal.items a.starts.words.items a.starts.some.items a.classes.items };
}

impl Candidates {
    /// Candidates of an arena of at most 4096 granules, in which no normal slab begins. It takes 12 bytes for each granule and
    /// 52,232 beside, and refuses where there is no memory for them; no later call takes any.
    pub fn new(alloc: Global, granules: u32) -> Result<Candidates, OutOfMemory>
        requires { granules ≤ 4096 }
        ensures size { IfOk result (λ candidates. length candidates ≡ granules) }
        ensures none { IfOk result (λ candidates. (s : ℕ) → normal_in candidates s ≡ None) }
    {
        let normal = vec![in alloc; None; granules as usize]?;
        let starts = Summed::new(alloc, COUNTS as usize)?;
        let classes = vec![in alloc; 0; START_WORDS * CLASSES]?;
        Ok(Candidates {
            normal,
            starts,
            classes,
        })
    }

    /// The normal slab that begins at a granule. `None` exactly where none does, and so past the arena's end.
    pub fn normal_at(&self, start: u32) -> Option<NormalSlab>
        ensures slab { result ≡ normal_in self.now start }
        ensures inside { IfSome result (λ _. start < length self.now) }
        ensures known { IfSome result (λ slab. slab.class < 36) }
    {
        let at = start as usize;
        if at < self.normal.len() {
            self.normal[at]
        } else {
            None
        }
    }

    /// The slab at a granule is normal, has a class and so many live blocks; whether it was normal before makes no difference.
    /// The other slabs stay as they are.
    pub fn put(&mut self, start: u32, class: u8, live: u32)
        requires inside { start < length self.old }
        requires class { class < 36 }
        ensures size { length self.new ≡ length self.old }
        ensures normal { (s : ℕ) → normal_in self.new s ≡ with_key (normal_in self.old) start (Some (record { class = class; live = live })) s }
    {
        self.remove(start);
        self.insert(start, NormalSlab { class, live });
    }

    /// The normal slab at a granule, which is `was`, has so many live blocks now. The other slabs stay as they are. It changes
    /// two words at most of four each, and none where neither number is so small that the slab may take another class.
    pub fn recount(&mut self, start: u32, was: NormalSlab, live: u32)
        requires inside { start < length self.old }
        requires class { was.class < 36 }
        requires was { normal_in self.old start ≡ Some was }
        ensures size { length self.new ≡ length self.old }
        ensures normal { (s : ℕ) → normal_in self.new s ≡ with_key (normal_in self.old) start (Some (record { class = was.class; live = live })) s }
    {
        let class = was.class;
        self.normal[start as usize] = Some(NormalSlab { class, live });
        mark_anew(&mut self.starts, start, was, NormalSlab { class, live });
    }

    /// The slab at a granule is not normal, or there is none; whether it was normal before makes no difference. The other slabs
    /// stay as they are.
    pub fn remove(&mut self, start: u32)
        ensures size { length self.new ≡ length self.old }
        ensures normal { (s : ℕ) → normal_in self.new s ≡ with_key (normal_in self.old) start None s }
    {
        if let Some(slab) = self.normal_at(start) {
            self.normal[start as usize] = None;
            mark_class(&mut self.classes, start, slab, false);
            mark_sparse(&mut self.starts, start, slab, false);
        }
    }

    /// Of the normal slabs of another class that have so few live blocks and were not found unfit for this one, below 36, that
    /// with the fewest, the lowest start among equals. `None` exactly where there is none.
    pub fn first(&self, unfit: &UnfitSlabs, class: u8) -> Option<Candidate>
        requires { class < 36 }
        ensures first { MatchOption result (HasNoCandidate self.now unfit.now class) (IsFirstCandidate self.now unfit.now class) }
        ensures inside { IfSome result (λ found. found.start < length self.now) }
    {
        for live in 0..COUNTS {
            if let Some(start) = in_row(&self.starts, &self.classes, &unfit.words, class, live) {
                return Some(Candidate { start, live });
            }
        }
        None
    }

    // A normal slab begins at a granule where none did.
    fn insert(&mut self, start: u32, slab: NormalSlab)
        requires inside { start < length self.old }
        requires class { slab.class < 36 }
        requires fresh { normal_in self.old start ≡ None }
        ensures size { length self.new ≡ length self.old }
        ensures normal { (s : ℕ) → normal_in self.new s ≡ with_key (normal_in self.old) start (Some slab) s }
    {
        self.normal[start as usize] = Some(slab);
        mark_class(&mut self.classes, start, slab, true);
        mark_sparse(&mut self.starts, start, slab, true);
    }
}
