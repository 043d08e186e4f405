// A number for each slab.
ghost use Rattle.std.specs.Prelude.{◌≡◌, ◌==◌, ℕ, ◌+◌, ◌-◌, ◌<◌, ◌^◌, length, slice_index, if◌then◌else◌, IfOk};

use pmem_lines::OutOfMemory;
use std::alloc::Global;
use std::marker::Model;

/// A number for the slab that begins at each granule of an arena: how many live blocks lie in it, or how many of some kind. In
/// contracts it is the list of these numbers. Which slabs there are it does not know.
#[derive(Drop)]
pub struct SlabCounts {
    counts: Vec<u32>,
}

impl Model for SlabCounts {
    ghost use Rattle.std.specs.Prelude.{ℕ, List};

    ghost Value = { List ℕ };

    ghost view = { λ a. a.counts.items };
}

impl SlabCounts {
    /// Numbers of 0 for so many granules. It takes four bytes for each, and refuses where there is no memory for them; no
    /// later call takes any.
    pub fn new(alloc: Global, granules: u32) -> Result<SlabCounts, OutOfMemory>
        ensures size { IfOk result (λ counts. length counts ≡ granules) }
        ensures none { IfOk result (λ counts. (s : ℕ) → slice_index counts s ≡ 0) }
    {
        let counts = vec![in alloc; 0; granules as usize]?;
        Ok(SlabCounts { counts })
    }

    /// The number of the slab at a granule; 0 past the arena's end.
    pub fn at(&self, start: u32) -> u32
        ensures { result ≡ slice_index self.now start }
    {
        let at = start as usize;
        if at < self.counts.len() {
            self.counts[at]
        } else {
            0
        }
    }

    /// The slab at a granule has this number. All others stay.
    pub fn put(&mut self, start: u32, count: u32)
        requires { start < length self.old }
        ensures size { length self.new ≡ length self.old }
        ensures counts { (s : ℕ) → slice_index self.new s ≡ (if s == start then count else slice_index self.old s) }
    {
        self.counts[start as usize] = count;
    }

    /// The number of the slab at a granule is one more. All others stay.
    pub fn raise(&mut self, start: u32)
        requires inside { start < length self.old }
        requires few { slice_index self.old start + 1 < 2 ^ 32 }
        ensures size { length self.new ≡ length self.old }
        ensures counts { (s : ℕ) → slice_index self.new s ≡ (if s == start then slice_index self.old s + 1 else slice_index self.old s) }
    {
        self.counts[start as usize] += 1;
    }

    /// The number of the slab at a granule is one less. All others stay.
    pub fn lower(&mut self, start: u32)
        requires inside { start < length self.old }
        requires some { 0 < slice_index self.old start }
        ensures size { length self.new ≡ length self.old }
        ensures counts { (s : ℕ) → slice_index self.new s ≡ (if s == start then slice_index self.old s - 1 else slice_index self.old s) }
    {
        self.counts[start as usize] -= 1;
    }
}
