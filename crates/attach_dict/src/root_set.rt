// Sets of roots.
ghost use Rattle.std.specs.Prelude.{◌≡◌, ◌^◌, ◌<◌, ◌≤◌, IfOk};
ghost use Rattle.image_defects.specs.Least.{IsLeastOf};
ghost use Rattle.attach_dict.specs.Roots.{IsIn, AreRoots, AreNoRoots, IsOut, HasMoreRoots, HasFewerRoots};

use bit_words::{least_in, put};
use pmem_lines::OutOfMemory;
use std::alloc::Global;
use std::marker::Model;

/// A set of roots below a number, and how many they are. A search goes through a word for each 64 roots.
#[derive(Drop)]
pub(crate) struct RootSet {
    below: u32,
    bits: Vec<u64>,
    count: u32,
}

impl Model for RootSet {
    ghost use Rattle.attach_dict.specs.Roots.{Roots, AreRoots};

    ghost Value = { Roots };

    ghost view = { λ s. record { below = s.below; bits = s.bits.items; count = s.count } };

    ghost invariant = { λ s. AreRoots (record { below = s.below; bits = s.bits.items; count = s.count }) };
}

impl RootSet {
    /// A set of roots below a number of at most 65,536, of which none is in it. It takes a bit for each, and refuses where
    /// there is no memory for that; no later call takes any.
    pub(crate) fn with_room(alloc: Global, below: u32) -> Result<RootSet, OutOfMemory>
        requires { below ≤ 2 ^ 16 }
        ensures { IfOk result (λ set. AreNoRoots set below) }
    {
        let bits = vec![in alloc; 0; below as usize / 64 + 1]?;
        Ok(RootSet {
            below,
            bits,
            count: 0,
        })
    }

    /// How many roots are in it.
    pub(crate) fn len(&self) -> u32
        ensures count { result ≡ self.now.count }
        ensures sound { AreRoots self.now }
    {
        self.count
    }

    /// A root that is not in it comes.
    pub(crate) fn add(&mut self, root: u32)
        requires low { root < self.old.below }
        requires out { IsOut self.old root }
        ensures { HasMoreRoots self.old root self.new }
    {
        put(&mut self.bits, root, true);
        self.count += 1;
    }

    /// A root that is in it goes.
    pub(crate) fn remove(&mut self, root: u32)
        requires { IsIn self.old root }
        ensures { HasFewerRoots self.old root self.new }
    {
        put(&mut self.bits, root, false);
        self.count -= 1;
    }

    /// The lowest root that is in it. `None` exactly where there is none.
    pub(crate) fn lowest(&self) -> Option<u32>
        ensures { IsLeastOf (IsIn self.now) result }
    {
        least_in(&self.bits, 0, self.bits.len())
    }
}
