// The index of free granules.
ghost use Rattle.std.specs.Prelude.{◌≡◌, ℕ, ◌+◌, ◌*◌, ◌/◌, ◌<◌, ◌≤◌, ◌↔◌, ◌⊎◌, MatchOption, IfOk, ◌^◌};
ghost use Rattle.heap_model.specs.Runs.{IsFreeRow, IsBestFit, HasNoFit};
ghost use Rattle.extent_index.specs.FreeSet.{IsFree, IsHeldRow};
ghost use Rattle.extent_index.specs.Runs.{words_of, IsRunOrNone, IsRunBelow, IsRunAbove, IsRunWith, IsRoomFor};

use crate::run::Run;
use crate::search::{has_any, lowest_from};
use crate::word_table::{Steps, WordTable};
use pmem_lines::OutOfMemory;
use std::alloc::Global;
use std::marker::{Brand, Model};
use std::sync::ledger::{Blank, Ledger};

const FIRST_GRANULE: u32 = 4;

/// Which granules of a heap are free. The heap has the granules from 4 up to the number that `new` is given. In
/// contracts it is a set of granules.
#[derive(Drop)]
pub struct ExtentIndex {
    granules: u32,
    // For each length the first granules of the free runs that have it, with as many words for a length as for the
    // granules.
    starts: WordTable,
    // The lengths that a free run has.
    lengths: WordTable,
    // At the first granule of each free run its length, and 0 elsewhere.
    length_at: Vec<u32>,
    // At the last granule of each free run its first granule, and 0 elsewhere.
    start_at: Vec<u32>,
}

impl Model for ExtentIndex {
    ghost use Rattle.extent_index.specs.FreeSet.{FreeSet};

    ghost Value = { FreeSet };

    ghost use Rattle.extent_index.specs.Runs.{set_of, IsIndex};

    ghost view = { λ a. set_of a.granules a.length_at.items };

    ghost invariant = { λ a. IsIndex a.granules a.starts a.lengths a.length_at.items a.start_at.items };
}

impl ExtentIndex {
    /// An index of an arena of 16 to 4096 granules, in which all of the heap is free. Where `w` words have a bit for each
    /// granule, it takes `8 * w` bytes, and `8 * w + 8` more for each granule. It refuses where there is no memory for
    /// them; no later call takes any.
    pub fn new(alloc: Global, granules: u32) -> Result<ExtentIndex, OutOfMemory>
        requires least { 16 ≤ granules }
        requires most { granules ≤ 4096 }
        ensures granules { IfOk result (λ index. index.granules ≡ granules) }
        ensures free { IfOk result (λ index. (k : ℕ) → IsFree index k ↔ ((4 ≤ k) × (k < granules))) }
    {
        let mut index = ExtentIndex::full(alloc, granules)?;
        index.insert(Run {
            start: FIRST_GRANULE,
            granules: granules - FIRST_GRANULE,
        });
        Ok(index)
    }

    /// The first granule of the best fit of `n` granules, at least one: of the shortest free run that has so many, the
    /// lowest among equals. `None` exactly where no free run has `n` granules.
    pub fn best_fit(&self, n: u32) -> Option<u32>
        requires { 1 ≤ n }
        ensures { MatchOption result (HasNoFit (IsFree self.now) n) (IsBestFit (IsFree self.now) n) }
    {
        self.best_fit_by::<Brand>(n, Blank::new(1))
    }

    /// The same, with the words that are looked at counted: at most twice as many as have a bit for each granule.
    pub fn best_fit_counted<L: Ledger>(&self, n: u32, steps: &mut Steps<L>) -> Option<u32>
        requires { 1 ≤ n }
        ensures found { MatchOption result (HasNoFit (IsFree self.now) n) (IsBestFit (IsFree self.now) n) }
        ensures steps { steps.new ≤ steps.old + 2 * ((self.now.granules + 63) / 64) }
    {
        if n >= self.granules {
            return None;
        }
        let words = words_for(self.granules);
        let length = lowest_from(&self.lengths, n, words, steps)?;
        let row = row_for(self.granules, length);
        let number = lowest_from(&self.starts, 64 * row, row + words, steps)?;
        Some(number - 64 * row)
    }

    /// Takes `n` granules from `start` on, which are all free, out of the set. With `n` of 0 nothing changes. Where they
    /// do not begin a free run, it goes down to the run's first granule.
    pub fn take(&mut self, start: u32, n: u32)
        requires { IsFreeRow (IsFree self.old) start n }
        ensures granules { self.new.granules ≡ self.old.granules }
        ensures free { (k : ℕ) → IsFree self.new k ↔ (IsFree self.old k × ((k < start) ⊎ (start + n ≤ k))) }
    {
        if n == 0 {
            return;
        }
        let run = self.run_with(start);
        self.remove(run);
        self.insert(Run {
            start: run.start,
            granules: start - run.start,
        });
        let end = start + n;
        self.insert(Run {
            start: end,
            granules: run.start + run.granules - end,
        });
    }

    /// Puts `n` granules from `start` on into the set. All of them lie in the heap, and none is free. Free runs that come
    /// to lie side by side are one run from then on. With `n` of 0 nothing changes.
    pub fn give(&mut self, start: u32, n: u32)
        requires { IsHeldRow self.old start n }
        ensures granules { self.new.granules ≡ self.old.granules }
        ensures free { (k : ℕ) → IsFree self.new k ↔ (IsFree self.old k ⊎ ((start ≤ k) × (k < start + n))) }
    {
        if n == 0 {
            return;
        }
        let below = self.run_below(start);
        let above = self.run_above(start + n);
        self.remove(below);
        self.remove(above);
        self.insert(Run {
            start: below.start,
            granules: below.granules + n + above.granules,
        });
    }

    // An index in which no granule is free.
    fn full(alloc: Global, granules: u32) -> Result<ExtentIndex, OutOfMemory>
        requires least { 16 ≤ granules }
        requires most { granules ≤ 4096 }
        ensures granules { IfOk result (λ index. index.granules ≡ granules) }
        ensures held { IfOk result (λ index. (k : ℕ) → ¬ (IsFree index k)) }
    {
        let words = words_for(granules);
        let starts = WordTable::new(alloc, words * granules)?;
        let lengths = WordTable::new(alloc, words)?;
        let length_at = vec![in alloc; 0; granules as usize]?;
        let start_at = vec![in alloc; 0; granules as usize]?;
        Ok(ExtentIndex {
            granules,
            starts,
            lengths,
            length_at,
            start_at,
        })
    }

    // The best fit, with a counter of its own.
    fn best_fit_by<L: Ledger>(&self, n: u32, blank: Blank) -> Option<u32>
        requires some { 1 ≤ n }
        requires name { blank.name ≡ L.name }
        requires parts { blank.parts ≡ L.parts }
        requires part { 0 < blank.parts }
        ensures { MatchOption result (HasNoFit (IsFree self.now) n) (IsBestFit (IsFree self.now) n) }
    {
        let mut steps = Steps::<L>::new(blank);
        self.best_fit_counted(n, &mut steps)
    }

    // The free run that has granule `k`, which is free.
    fn run_with(&self, k: u32) -> Run
        requires { IsFree self.now k }
        ensures run { IsRunWith self.now k result.start result.granules }
        ensures low { 4 ≤ result.start }
        ensures high { result.start + result.granules ≤ self.now.granules }
        ensures most { self.now.granules ≤ 4096 }
    {
        let mut start = k;
        while self.length_at[start as usize] == 0 {
            start -= 1;
        }
        Run {
            start,
            granules: self.length_at[start as usize],
        }
    }

    // The free run that ends where granule `k` begins, which is not free, or none there.
    fn run_below(&self, k: u32) -> Run
        requires heap { 4 ≤ k }
        requires within { k ≤ self.now.granules }
        requires held { ¬ (IsFree self.now k) }
        ensures run { IsRunBelow self.now k result.start result.granules }
        ensures low { 4 ≤ result.start }
        ensures most { self.now.granules ≤ 4096 }
    {
        let last = k - 1;
        let first = self.start_at[last as usize];
        let start = if first == 0 { k } else { first };
        Run {
            start,
            granules: k - start,
        }
    }

    // The free run that begins at granule `k`, behind one that is not free, or none there.
    fn run_above(&self, k: u32) -> Run
        requires held { (j : ℕ) → j + 1 ≡ k → ¬ (IsFree self.now j) }
        requires within { k ≤ self.now.granules }
        ensures run { IsRunAbove self.now k result.granules }
        ensures start { result.start ≡ k }
        ensures high { k + result.granules ≤ self.now.granules }
    {
        let granules = if k < self.granules {
            self.length_at[k as usize]
        } else {
            0
        };
        Run { start: k, granules }
    }

    // Takes a whole free run out of the set, unless it has no granule.
    fn remove(&mut self, run: Run)
        requires { IsRunOrNone self.old run.start run.granules }
        ensures granules { self.new.granules ≡ self.old.granules }
        ensures free { (k : ℕ) → IsFree self.new k ↔ (IsFree self.old k × ((k < run.start) ⊎ (run.start + run.granules ≤ k))) }
    {
        if run.granules == 0 {
            return;
        }
        let row = row_for(self.granules, run.granules);
        let end = row + words_for(self.granules);
        self.length_at[run.start as usize] = 0;
        self.start_at[(run.start + run.granules - 1) as usize] = 0;
        self.starts.put(64 * row + run.start, false);
        let left = has_any(&self.starts, row, end);
        self.lengths.put(run.granules, left);
    }

    // Puts granules into the set that are a free run from then on, unless there are none.
    fn insert(&mut self, run: Run)
        requires { IsRoomFor self.old run.start run.granules }
        ensures granules { self.new.granules ≡ self.old.granules }
        ensures free { (k : ℕ) → IsFree self.new k ↔ (IsFree self.old k ⊎ ((run.start ≤ k) × (k < run.start + run.granules))) }
    {
        if run.granules == 0 {
            return;
        }
        let row = row_for(self.granules, run.granules);
        self.length_at[run.start as usize] = run.granules;
        self.start_at[(run.start + run.granules - 1) as usize] = run.start;
        self.starts.put(64 * row + run.start, true);
        self.lengths.put(run.granules, true);
    }
}

// How many words have a bit for each of so many granules.
fn words_for(granules: u32) -> u32
    requires { granules ≤ 4096 }
    ensures value { result ≡ words_of granules }
    ensures enough { granules ≤ 64 * result }
    ensures few { result ≤ 64 }
    ensures rows_fit { result * granules ≤ 2 ^ 18 }
{
    granules.div_ceil(64)
}

// The first word of the runs of a length.
fn row_for(granules: u32, length: u32) -> u32
    requires few { granules ≤ 4096 }
    requires below { length < granules }
    ensures value { result ≡ words_of granules * length }
    ensures within { result + words_of granules ≤ words_of granules * granules }
    ensures fits { result ≤ 2 ^ 18 }
{
    words_for(granules) * length
}
