// What a call decides before its first store. It stores nothing; a malloc takes its block out of the supply.
ghost use Rattle.std.specs.Prelude.{◌≡◌, ◌≢◌, ◌<◌, ◌≤◌, ◌+◌, ◌*◌, ◌^◌, ℕ, List, MatchOption, None, Some};
ghost use Rattle.pmem_lines.specs.Pmem.{words_of};
ghost use Rattle.pool_layout.specs.Layout.{layout_of};
ghost use Rattle.pool_layout.specs.Header.{version_in};
ghost use Rattle.size_classes.specs.Classes.{class_size, IsClassOf, granules_of};
ghost use Rattle.image_tables.specs.Tables.{Tables, tables_of};
ghost use Rattle.heap_model.specs.Machine.{Bounds, slab_block};
ghost use Rattle.heap_model.specs.Runs.{IsBestFit, HasNoFit};
ghost use Rattle.heap_check.specs.Sound.{IsVacant};
ghost use Rattle.heap_check.specs.Image.{bounds_of, IsFormed, IsExactImage};
ghost use Rattle.log_steps.specs.Log.{IsBookOf};
ghost use Rattle.arena_core.specs.Arena.{AreLivesOf, IsIndexOf, IsArena};
ghost use Rattle.arena_core.specs.Plan.{IsPlanned, IsFreePlan, IsHeldBy, IsSlabAt, IsRootIn, IsAskedOf, IsFound, IsSuppliedFor, range_held};

use crate::fitting::best_slab;
use crate::volatile::Volatile;
use crate::{FreeRefusal, Freed, MallocRefusal, Placed};
use attach_steps::{OldBlock, SmallBlock};
use block_supply::SlabAt;
use book_log::{BookLog, LogEntry};
use extent_index::ExtentIndex;
use pmem_lines::Pmem;
use pool_layout::{
    GRANULE_BYTES, Layout, SLAB_GRANULES, blocks_at, fields_at, granule_at, layout_of, root_at,
};
use size_classes::{class_of, granules, size_of_class};
use slab_morph::{old_class, old_place};

/// Where a malloc places its block.
#[derive(Clone, Copy)]
pub(crate) enum Place {
    /// Whole granules, from one on.
    Large { start: u32, granules: u32 },
    /// A free block of a slab, which has the class.
    Small { block: SmallBlock, class: u8 },
    /// A block of a slab, from a granule on, that takes the class for it.
    Morph { start: u32, class: u8 },
    /// The first block of a slab of the class that is opened for it, on four granules from one on.
    Fresh { start: u32, class: u8 },
}

/// What a root names.
#[derive(Clone, Copy)]
pub(crate) enum Held {
    /// Whole granules, from one on.
    Large { start: u32, granules: u32 },
    /// A block of a slab, which has the class.
    Small { block: SmallBlock, class: u8 },
    /// An old block of a slab that took another class, and had this one before.
    Old { block: OldBlock, class: u8 },
}

impl Volatile {
    /// The place for a malloc of a seat, below 64, or why there is none. The block of a small place is taken out of the
    /// supply, and what was found of slabs that are unfit is noted; nothing else changes.
    #[tactic(auto, using(heap_check::proofs::Sizes::sizes_of, crate::proofs::PlannedCalls::planned_found))]
    pub(crate) fn plan_malloc<P: Pmem>(
        &mut self,
        device: &P,
        seat: u32,
        root: u32,
        size: u64,
    ) -> Result<Place, MallocRefusal>
        requires arena { IsArena (P.state device.now) self.old }
        requires seat { seat < 64 }
        ensures { IsPlanned (P.state device.now) (record self.old { lives = self.new.lives }) self.new seat root size result }
    {
        let layout = layout_in(device);
        if root >= layout.roots {
            return Err(MallocRefusal::NoRoot);
        }
        let held = root_word(device, root);
        if held != 0 {
            return Err(MallocRefusal::Occupied { at: held });
        }
        if size == 0 {
            return Err(MallocRefusal::ZeroSize);
        }
        let heap = granules_in(device) - layout.first_granule;
        if size > u64::from(heap * GRANULE_BYTES) {
            return Err(MallocRefusal::TooLarge);
        }
        self.place_for(device, seat, size)
            .ok_or(MallocRefusal::NoSpace)
    }

    // The place for a request that has bytes, fewer than 2^32, where the heap has one.
    fn place_for<P: Pmem>(&mut self, device: &P, seat: u32, size: u64) -> Option<Place>
        requires arena { IsArena (P.state device.now) self.old }
        requires seat { seat < 64 }
        requires some { size ≢ 0 }
        requires few { size < 2 ^ 32 }
        ensures found { (root : ℕ) → IsAskedOf (bounds_of (words_of (P.state device.now))) (tables_of (words_of (P.state device.now))) root size → IsFound (bounds_of (words_of (P.state device.now))) (tables_of (words_of (P.state device.now))) root size result }
        ensures supplied { (root : ℕ) → IsAskedOf (bounds_of (words_of (P.state device.now))) (tables_of (words_of (P.state device.now))) root size → IsSuppliedFor self.old.supply self.new.supply seat result }
        ensures rest { self.new ≡ record self.old { supply = self.new.supply; lives = self.new.lives } }
        ensures lives { AreLivesOf self.new.lives (words_of (P.state device.now)) }
    {
        match class_of(size) {
            Some(class) => self.small_place(device, seat, class),
            None => large_place(&self.free, granules(size) as u32),
        }
    }

    // The place for a block of a class, below 36: a block that the supply gives the seat, or a slab that takes the class, or a
    // new slab at the best fit.
    #[tactic(auto, using(crate::proofs::Plans::slab_few, crate::proofs::Plans::no_site_small))]
    fn small_place<P: Pmem>(&mut self, device: &P, seat: u32, class: u8) -> Option<Place>
        requires arena { IsArena (P.state device.now) self.old }
        requires seat { seat < 64 }
        requires class { class < 36 }
        ensures found { (root size : ℕ) → IsClassOf size class → IsFound (bounds_of (words_of (P.state device.now))) (tables_of (words_of (P.state device.now))) root size result }
        ensures supplied { IsSuppliedFor self.old.supply self.new.supply seat result }
        ensures rest { self.new ≡ record self.old { supply = self.new.supply; lives = self.new.lives } }
        ensures lives { AreLivesOf self.new.lives (words_of (P.state device.now)) }
    {
        if let Some(block) = self.supply.take(seat, class) {
            let at = blocks_at(granule_at(block.start)) + block.number * size_of_class(class);
            let block = SmallBlock {
                start: block.start,
                number: block.number,
                at,
            };
            return Some(Place::Small { block, class });
        }
        if let Some(start) = best_slab(device, &mut self.lives, class) {
            return Some(Place::Morph { start, class });
        }
        match self.free.best_fit(SLAB_GRANULES) {
            Some(start) => Some(Place::Fresh { start, class }),
            None => None,
        }
    }

    /// What a free takes from a root, or why there is nothing.
    pub(crate) fn plan_free<P: Pmem>(&self, device: &P, root: u32) -> Result<Held, FreeRefusal>
        requires arena { IsArena (P.state device.now) self.now }
        ensures { IsFreePlan (bounds_of (words_of (P.state device.now))) (tables_of (words_of (P.state device.now))) root result }
    {
        if root >= layout_in(device).roots {
            return Err(FreeRefusal::NoRoot);
        }
        match self.held_by(device, root) {
            Some(held) => Ok(held),
            None => Err(FreeRefusal::Empty),
        }
    }

    /// What a root names, if anything.
    #[tactic(auto, using(crate::proofs::Plans::root_in, crate::proofs::Plans::takable_outside))]
    pub(crate) fn held_by<P: Pmem>(&self, device: &P, root: u32) -> Option<Held>
        requires arena { IsArena (P.state device.now) self.now }
        requires root { root < (layout_of (version_in (words_of (P.state device.now)))).roots }
        ensures { MatchOption result ((tables_of (words_of (P.state device.now))).root root ≡ 0) (IsHeldBy (bounds_of (words_of (P.state device.now))) (tables_of (words_of (P.state device.now))) root) }
    {
        let at = root_word(device, root);
        if at == 0 {
            return None;
        }
        let granule = at / GRANULE_BYTES;
        match self.supply.slab_with(granule) {
            Some(slab) => Some(held_in(device, slab, at)),
            None => Some(Held::Large {
                start: granule,
                granules: granules_at(&self.log, granule),
            }),
        }
    }
}

// A place for so many granules, two at least: their best fit.
#[tactic(auto, using(crate::proofs::Plans::no_site_large))]
fn large_place(free: &ExtentIndex, granules: u32) -> Option<Place>
    requires { 2 ≤ granules }
    ensures { (words : List ℕ) → IsExactImage words → IsIndexOf free.now words → (root size : ℕ) → IsAskedOf (bounds_of words) (tables_of words) root size → 16384 < size → granules ≡ granules_of size → IsFound (bounds_of words) (tables_of words) root size result }
{
    match free.best_fit(granules) {
        Some(start) => Some(Place::Large { start, granules }),
        None => None,
    }
}

/// The block on so many granules, from one on.
pub(crate) fn placed_large(start: u32, granules: u32) -> Placed
    requires { start + granules < 2 ^ 16 }
    ensures { result ≡ record { at = 16384 * start; size = 16384 * granules } }
{
    Placed {
        at: granule_at(start),
        size: GRANULE_BYTES * granules,
    }
}

/// A block of a slab, which has the class, below 36.
pub(crate) fn placed_small(block: SmallBlock, class: u8) -> Placed
    requires { class < 36 }
    ensures { result ≡ record { at = block.at; size = class_size class } }
{
    Placed {
        at: block.at,
        size: size_of_class(class),
    }
}

// The block that begins at byte `at` of a slab, which a root names: an old one, or one of the slab's class.
#[tactic(auto, using(crate::proofs::HeldBlocks::slab_here))]
fn held_in<P: Pmem>(device: &P, slab: SlabAt, at: u32) -> Held
    requires exact { IsExactImage (words_of (P.state device.now)) }
    requires slab { IsSlabAt (tables_of (words_of (P.state device.now))) slab.start slab.class }
    requires named { (root : ℕ) × IsRootIn (bounds_of (words_of (P.state device.now))) (tables_of (words_of (P.state device.now))) root slab.start at }
    ensures { (root : ℕ) → IsRootIn (bounds_of (words_of (P.state device.now))) (tables_of (words_of (P.state device.now))) root slab.start at → IsHeldBy (bounds_of (words_of (P.state device.now))) (tables_of (words_of (P.state device.now))) root result }
{
    let start = slab.start;
    let byte = granule_at(start);
    match old_place(device, byte, at) {
        Some(place) => Held::Old {
            block: OldBlock { start, place, at },
            class: old_class(device, byte),
        },
        None => Held::Small {
            block: SmallBlock {
                start,
                number: (at - blocks_at(byte)) / size_of_class(slab.class),
                at,
            },
            class: slab.class,
        },
    }
}

/// The block that is held.
pub(crate) fn freed_of(held: Held) -> Freed
    requires { (b : Bounds) × (t : Tables) × (root : ℕ) × IsHeldBy b t root held × (b.granules < 2 ^ 16) }
    ensures { (result.at ≡ (range_held held).at) × (result.size ≡ (range_held held).size) }
{
    match held {
        Held::Large { start, granules } => Freed {
            at: granule_at(start),
            size: GRANULE_BYTES * granules,
        },
        Held::Small { block, class } => Freed {
            at: block.at,
            size: size_of_class(class),
        },
        Held::Old { block, class } => Freed {
            at: block.at,
            size: size_of_class(class),
        },
    }
}

// How many granules the large extent has that starts at a granule.
#[tactic(auto, using(heap_check::proofs::LargeLogs::next_large))]
fn granules_at(log: &BookLog, start: u32) -> u32
    ensures { (words : List ℕ) → IsBookOf log.now words → 0 < (tables_of words).large start → result ≡ (tables_of words).large start }
{
    match log.next_live(start) {
        Some(LogEntry::Large { granules, .. }) => granules,
        _ => 0,
    }
}

/// The word of a root: the address of its block, or 0.
#[tactic(auto, using(crate::proofs::Plans::root_is, heap_check::proofs::Sizes::sizes_of))]
pub(crate) fn root_word<P: Pmem>(device: &P, root: u32) -> u32
    requires exact { IsExactImage (words_of (P.state device.now)) }
    requires root { root < (layout_of (version_in (words_of (P.state device.now)))).roots }
    ensures { result ≡ (tables_of (words_of (P.state device.now))).root root }
{
    device.load(root_at(root)) as u32
}

/// The numbers of the arena's layout.
pub(crate) fn layout_in<P: Pmem>(device: &P) -> Layout
    requires { IsFormed (words_of (P.state device.now)) }
    ensures { result ≡ layout_of (version_in (words_of (P.state device.now))) }
{
    layout_of((device.load(fields_at()) % 65536) as u32)
}

/// How many granules the arena has.
pub(crate) fn granules_in<P: Pmem>(device: &P) -> u32
    requires { IsFormed (words_of (P.state device.now)) }
    ensures { result ≡ (bounds_of (words_of (P.state device.now))).granules }
{
    device.size_words() / 2048
}
