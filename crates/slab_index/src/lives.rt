// Counts of live blocks, and the normal slabs.
ghost use Rattle.std.specs.Prelude.{◌≡◌, ◌==◌, ◌&&◌, ℕ, ◌+◌, ◌-◌, ◌<◌, ◌≤◌, ◌^◌, length, slice_index, None, Some, true, false, if◌then◌else◌, MatchOption, IfSome, IfOk};
ghost use Rattle.heap_model.specs.Machine.{with_key};
ghost use Rattle.slab_index.specs.Unfit.{is_unfit};
ghost use Rattle.slab_index.specs.Lives.{normal_at, HasNoSparse, IsFirstSparse};
ghost use Rattle.slab_index.specs.LivesKept.{IsRecounted};

use crate::candidates::{Candidate, Candidates};
use crate::counts::SlabCounts;
use crate::unfit::UnfitSlabs;
use pmem_lines::OutOfMemory;
use std::alloc::Global;
use std::marker::Model;

/// How many blocks live in the slab that begins at each granule of an arena, the class of each slab that is normal: in which no
/// live block has another size than that of its class; and which slabs were found unfit for a class. What was found is forgotten
/// where a block of the slab goes, or where the slab comes to be normal or ceases to be. In contracts it is a `Lives`.
#[derive(Drop)]
pub struct SlabLives {
    counts: SlabCounts,
    normal: Candidates,
    unfit: UnfitSlabs,
}

impl Model for SlabLives {
    ghost use Rattle.slab_index.specs.Lives.{Lives};

    ghost Value = { Lives };

    ghost use Rattle.slab_index.specs.LivesKept.{lives_of, IsKept};

    ghost view = { λ a. lives_of a.counts a.normal a.unfit };

    ghost invariant = { λ a. IsKept a.counts a.normal };
}

impl SlabLives {
    /// Counts of 0 for an arena of at most 4096 granules, in which no normal slab begins, and none was found unfit. It takes 16
    /// bytes for each granule and 71,176 beside, and refuses where there is no memory for them; no later call takes any.
    pub fn new(alloc: Global, granules: u32) -> Result<SlabLives, OutOfMemory>
        requires { granules ≤ 4096 }
        ensures size { IfOk result (λ lives. length lives.counts ≡ granules) }
        ensures none { IfOk result (λ lives. (s : ℕ) → slice_index lives.counts s ≡ 0) }
        ensures normal { IfOk result (λ lives. (s : ℕ) → normal_at lives s ≡ None) }
        ensures unfit { IfOk result (λ lives. (c s : ℕ) → is_unfit lives.unfit c s ≡ false) }
    {
        let counts = SlabCounts::new(alloc, granules)?;
        let unfit = UnfitSlabs::new(alloc)?;
        let normal = Candidates::new(alloc, granules)?;
        Ok(SlabLives {
            counts,
            normal,
            unfit,
        })
    }

    /// How many live blocks the slab at a granule has; 0 past the arena's end.
    pub fn at(&self, start: u32) -> u32
        ensures { result ≡ slice_index self.now.counts start }
    {
        self.counts.at(start)
    }

    /// The slab at a granule has one live block more. All other counts stay, the normal slabs and the unfit ones.
    pub fn raise(&mut self, start: u32)
        requires inside { start < length self.old.counts }
        requires few { slice_index self.old.counts start + 1 < 2 ^ 32 }
        ensures size { length self.new.counts ≡ length self.old.counts }
        ensures counts { (s : ℕ) → slice_index self.new.counts s ≡ (if s == start then slice_index self.old.counts s + 1 else slice_index self.old.counts s) }
        ensures normal { (s : ℕ) → normal_at self.new s ≡ normal_at self.old s }
        ensures unfit { self.new.unfit ≡ self.old.unfit }
    {
        self.counts.raise(start);
        recount(&mut self.normal, start, self.counts.at(start));
    }

    /// The slab at a granule has one live block less, and is known to be unfit for no class. All other counts stay, the normal
    /// slabs, and what is known of the others.
    pub fn lower(&mut self, start: u32)
        requires inside { start < length self.old.counts }
        requires some { 0 < slice_index self.old.counts start }
        ensures size { length self.new.counts ≡ length self.old.counts }
        ensures counts { (s : ℕ) → slice_index self.new.counts s ≡ (if s == start then slice_index self.old.counts s - 1 else slice_index self.old.counts s) }
        ensures normal { (s : ℕ) → normal_at self.new s ≡ normal_at self.old s }
        ensures unfit { (c s : ℕ) → is_unfit self.new.unfit c s ≡ (if s == start then false else is_unfit self.old.unfit c s) }
    {
        self.counts.lower(start);
        self.unfit.forget(start);
        recount(&mut self.normal, start, self.counts.at(start));
    }

    /// The slab at a granule is normal, has a class below 36, and is known to be unfit for none. All counts stay, and the other
    /// slabs.
    pub fn put_normal(&mut self, start: u32, class: u8)
        requires inside { start < length self.old.counts }
        requires class { class < 36 }
        ensures counts { self.new.counts ≡ self.old.counts }
        ensures normal { (s : ℕ) → normal_at self.new s ≡ with_key (normal_at self.old) start (Some class) s }
        ensures unfit { (c s : ℕ) → is_unfit self.new.unfit c s ≡ (if s == start then false else is_unfit self.old.unfit c s) }
    {
        self.unfit.forget(start);
        self.normal.put(start, class, self.counts.at(start));
    }

    /// The slab at a granule is not normal, or there is none, and none is known to be unfit there. All counts stay, and the other
    /// slabs.
    pub fn drop_normal(&mut self, start: u32)
        ensures counts { self.new.counts ≡ self.old.counts }
        ensures normal { (s : ℕ) → normal_at self.new s ≡ with_key (normal_at self.old) start None s }
        ensures unfit { (c s : ℕ) → is_unfit self.new.unfit c s ≡ (if s == start then false else is_unfit self.old.unfit c s) }
    {
        self.unfit.forget(start);
        self.normal.remove(start);
    }

    /// The slab at a granule was found unfit for a class, below 36. All else stays.
    pub fn note_unfit(&mut self, start: u32, class: u8)
        requires inside { start < length self.old.counts }
        requires class { class < 36 }
        ensures counts { self.new.counts ≡ self.old.counts }
        ensures normal { self.new.normal ≡ self.old.normal }
        ensures unfit { (c s : ℕ) → is_unfit self.new.unfit c s ≡ (if s == start && c == class then true else is_unfit self.old.unfit c s) }
    {
        self.unfit.note(start, class);
    }

    /// No slab is known any more to be unfit for a class, below 36. All else stays.
    pub fn forget_class(&mut self, class: u8)
        requires { class < 36 }
        ensures counts { self.new.counts ≡ self.old.counts }
        ensures normal { self.new.normal ≡ self.old.normal }
        ensures unfit { (c s : ℕ) → is_unfit self.new.unfit c s ≡ (if c == class then false else is_unfit self.old.unfit c s) }
    {
        self.unfit.forget_class(class);
    }

    /// Of the normal slabs of another class in which so few blocks live that they may take this one, below 36, and which were not
    /// found unfit for it, the one with the fewest, the lowest start among equals. `None` exactly where there is none.
    pub fn first(&self, class: u8) -> Option<Candidate>
        requires { class < 36 }
        ensures first { MatchOption result (HasNoSparse self.now class) (IsFirstSparse self.now class) }
        ensures inside { IfSome result (λ found. found.start < length self.now.counts) }
    {
        self.normal.first(&self.unfit, class)
    }
}

// The normal slab at a granule, if one is there, has so many live blocks.
fn recount(normal: &mut Candidates, start: u32, live: u32)
    ensures { IsRecounted normal.old start live normal.new }
{
    if let Some(slab) = normal.normal_at(start) {
        normal.recount(start, slab, live);
    }
}
