// The slabs that were found unfit for a class.
ghost use Rattle.std.specs.Prelude.{◌≡◌, ◌==◌, ℕ, ◌<◌, ◌&&◌, true, false, length, if◌then◌else◌, IfOk};
ghost use Rattle.slab_index.specs.Unfit.{is_unfit, IsForgottenBelow};

use crate::words::NUMBERS;
use bit_words::{fill, has, put};
use pmem_lines::OutOfMemory;
use std::alloc::Global;
use std::marker::Model;

const CLASSES: u32 = 36;

/// For each of 36 classes the slabs that were found unfit for it, by the granule below 4096 that they begin at. What makes a slab
/// unfit, and until when, is for the layer above to say. In contracts it is the set of numbers `4096 * class + start`.
#[derive(Drop)]
pub struct UnfitSlabs {
    pub(crate) words: Vec<u64>,
    // The slabs that may be among them for some class: no other one has to be looked for.
    noted: Vec<u64>,
}

impl Model for UnfitSlabs {
    ghost use Rattle.std.specs.Prelude.{ℕ, List};

    ghost Value = { List ℕ };

    ghost use Rattle.slab_index.specs.Unfit.{AreNoted};

    ghost view = { λ a. a.words.items };

    ghost invariant = { λ a. AreNoted a.words.items a.noted.items };
}

impl UnfitSlabs {
    /// No slab was found unfit. It takes 18,944 bytes, and refuses where there is no memory for them; no later call takes any.
    pub fn new(alloc: Global) -> Result<UnfitSlabs, OutOfMemory>
        ensures { IfOk result (λ unfit. (c s : ℕ) → is_unfit unfit c s ≡ false) }
    {
        let words = vec![in alloc; 0; (NUMBERS / 64 * CLASSES) as usize]?;
        let noted = vec![in alloc; 0; (NUMBERS / 64) as usize]?;
        Ok(UnfitSlabs { words, noted })
    }

    /// The slab at a granule was found unfit for a class. All else stays.
    pub fn note(&mut self, start: u32, class: u8)
        requires start { start < 4096 }
        requires class { class < 36 }
        ensures { (c s : ℕ) → is_unfit self.new c s ≡ (if s == start && c == class then true else is_unfit self.old c s) }
    {
        put(&mut self.words, NUMBERS * u32::from(class) + start, true);
        put(&mut self.noted, start, true);
    }

    /// Nothing is known any more of the slab at a granule. All else stays. It looks at one bit where the slab is unfit for no
    /// class, and else at one for each.
    pub fn forget(&mut self, start: u32)
        ensures { (c s : ℕ) → is_unfit self.new c s ≡ (if s == start then false else is_unfit self.old c s) }
    {
        if start < NUMBERS {
            self.forget_at(start);
        }
    }

    /// Nothing is known any more of any slab for a class. All else stays.
    pub fn forget_class(&mut self, class: u8)
        requires { class < 36 }
        ensures { (c s : ℕ) → is_unfit self.new c s ≡ (if c == class then false else is_unfit self.old c s) }
    {
        fill(&mut self.words, u32::from(class), 0);
    }

    // Forgets a slab that begins below 4096.
    fn forget_at(&mut self, start: u32)
        requires { start < 4096 }
        ensures { (c s : ℕ) → is_unfit self.new c s ≡ (if s == start then false else is_unfit self.old c s) }
    {
        if has(&self.noted, start) {
            take_out(&mut self.words, start);
            put(&mut self.noted, start, false);
        }
    }
}

// Takes a slab out of the numbers of all classes.
fn take_out(words: &mut [u64], start: u32)
    requires start { start < 4096 }
    requires size { length words.old ≡ 2304 }
    ensures { IsForgottenBelow words.old start 36 words.new }
{
    for class in 0..CLASSES {
        put(words, NUMBERS * class + start, false);
    }
}
