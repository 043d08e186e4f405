// Numbers by root, and the greatest of them.
ghost use Rattle.std.specs.Prelude.{◌≡◌, ◌≤◌, ◌<◌, ◌^◌, ◌+◌, ◌*◌, ◌/◌, length, slice_index, slice_set, IfOk};
ghost use Rattle.dict_index.specs.Numbers.{AreNone, IsGreatest, IsGreatestIn};

use pmem_lines::OutOfMemory;
use std::alloc::Global;
use std::marker::Model;

// How many roots are a group.
const GROUP: usize = 64;

/// A number of 64 bits for each root, where 0 stands for none. In contracts it is their list.
///
/// A change mostly looks at two numbers. Where the greatest number of a group of 64 roots falls, it looks at these, and where
/// the greatest of all does, at that of each group.
#[derive(Drop)]
pub struct Numbers {
    numbers: Vec<u64>,
    // The greatest of each group.
    groups: Vec<u64>,
    // The greatest of all.
    greatest: u64,
}

impl Model for Numbers {
    ghost use Rattle.std.specs.Prelude.{ℕ, List};

    ghost Value = { List ℕ };

    ghost use Rattle.dict_index.specs.Kept.{AreNumbersKept};

    ghost view = { λ n. n.numbers.items };

    ghost invariant = { λ n. AreNumbersKept n.numbers.items n.groups.items n.greatest };
}

impl Numbers {
    /// Numbers of roots below `roots`, at most 65,536, of which none has one. It takes 8 bytes for each and 8 for each 64 of them,
    /// and refuses where there is no memory for that; no later call takes any.
    pub fn with_room(alloc: Global, roots: u32) -> Result<Numbers, OutOfMemory>
        requires { roots ≤ 2 ^ 16 }
        ensures { IfOk result (λ numbers. AreNone numbers roots) }
    {
        let numbers = vec![in alloc; 0; roots as usize]?;
        let groups = vec![in alloc; 0; roots as usize / GROUP + 1]?;
        Ok(Numbers {
            numbers,
            groups,
            greatest: 0,
        })
    }

    /// The number of a root, or 0 where it has none.
    pub fn get(&self, root: u32) -> u64
        requires { root < length self.now }
        ensures { result ≡ slice_index self.now root }
    {
        self.numbers[root as usize]
    }

    /// The greatest number of a root, or 0 where none has one.
    pub fn greatest(&self) -> u64
        ensures { IsGreatest self.now result }
    {
        self.greatest
    }

    /// A root has this number, in place of the one that it had.
    pub fn set(&mut self, root: u32, number: u64)
        requires { root < length self.old }
        ensures { self.new ≡ slice_set self.old root number }
    {
        let at = root as usize;
        let group = at / GROUP;
        let was = self.numbers[at];
        let most = self.groups[group];
        self.numbers[at] = number;
        let anew = greatest_anew(
            &self.numbers,
            GROUP * group,
            GROUP * group + GROUP,
            Change { at, was },
            most,
        );
        self.groups[group] = anew;
        let change = Change {
            at: group,
            was: most,
        };
        self.greatest = greatest_anew(&self.groups, 0, self.groups.len(), change, self.greatest);
    }

    /// A root has no number.
    pub fn clear(&mut self, root: u32)
        requires { root < length self.old }
        ensures { self.new ≡ slice_set self.old root 0 }
    {
        self.set(root, 0);
    }
}

// A number changed at a place, and was another one.
#[derive(Clone, Copy)]
struct Change {
    at: usize,
    was: u64,
}

// The greatest of a part of the numbers, of which one has changed. It was another one before.
#[inline(always)]
fn greatest_anew(numbers: &[u64], from: usize, to: usize, change: Change, greatest: u64) -> u64
    requires low { from ≤ change.at }
    requires high { change.at < to }
    requires inside { change.at < length numbers.now }
    requires was { IsGreatestIn (slice_set numbers.now change.at change.was) from to greatest }
    ensures { IsGreatestIn numbers.now from to result }
{
    let number = numbers[change.at];
    if greatest <= number {
        return number;
    }
    if change.was < greatest {
        return greatest;
    }
    greatest_in(numbers, from, to)
}

// The greatest of a part of the numbers.
fn greatest_in(numbers: &[u64], from: usize, to: usize) -> u64
    requires { from ≤ to }
    ensures { IsGreatestIn numbers.now from to result }
{
    let mut greatest = 0;
    for i in from..to.min(numbers.len()) {
        greatest = greatest.max(numbers[i]);
    }
    greatest
}
