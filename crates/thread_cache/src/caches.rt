// The stacks of all seats and classes.
ghost use Rattle.std.specs.Prelude.{◌≡◌, ◌==◌, ◌+◌, ◌*◌, ◌/◌, ◌%◌, ◌<◌, ◌↔◌, [], ◌∷◌, length, nat_lt, true, false, replicate, MatchOption, IfOk};
ghost use Rattle.heap_model.specs.Placement.{no_stacks, with_stack, without_slab, Has, IsInNoStack, AreDistinct, AreRising, AreLoose};
ghost use Rattle.thread_cache.specs.Stacks.{stacks_of, IsHeld, WasEmpty, GaveTop, WereEmpty, GaveFirst};
ghost use Rattle.thread_cache.specs.Kept.{IsNumberOf, HasNone, IsPurgedWhere};

use crate::stack::Stack;
use arrayvec::ArrayVec;
use bit_words::{has, least_of, put};
use pmem_lines::OutOfMemory;
use std::alloc::Global;
use std::marker::Model;

const SEATS: u32 = 64;

const CLASSES: u8 = 36;

/// The stacks of reserved blocks, one for each of 64 seats and 36 classes, of at most eight addresses each. In contracts
/// `stacks_of` is the function from seats and classes to their lists of addresses, the top one first.
#[derive(Drop)]
pub struct ThreadCaches {
    // The stack of a class and a seat has the number `64 * class + seat`.
    stacks: Vec<Stack>,
    // The numbers of the stacks that are not empty: for each class a word of its seats.
    seats: Vec<u64>,
}

impl Model for ThreadCaches {
    ghost use Rattle.thread_cache.specs.Stacks.{StackTable};

    ghost Value = { StackTable };

    ghost use Rattle.thread_cache.specs.Kept.{table_of, IsKept};

    ghost view = { λ a. table_of a.stacks.items };

    ghost invariant = { λ a. IsKept a.stacks.items a.seats.items };
}

impl ThreadCaches {
    /// Stacks that are all empty. They take 40 bytes for each of 2304 stacks and 288 beside, and it refuses where there is
    /// no memory for them; no later call takes any.
    pub fn new(alloc: Global) -> Result<ThreadCaches, OutOfMemory>
        ensures stacks { IfOk result (λ caches. stacks_of caches ≡ no_stacks) }
        ensures distinct { IfOk result (λ caches. AreDistinct (stacks_of caches)) }
    {
        let stacks = empty_stacks(alloc, SEATS * u32::from(CLASSES))?;
        let seats = vec![in alloc; 0; CLASSES as usize]?;
        Ok(ThreadCaches { stacks, seats })
    }

    /// Takes the top block of the stack of a seat below 64 and a class below 36. `None` exactly where that stack is empty.
    /// The other stacks stay as they are.
    pub fn pop(&mut self, seat: u32, class: u8) -> Option<u32>
        requires seat { seat < 64 }
        requires class { class < 36 }
        ensures top { MatchOption result (WasEmpty self.old seat class self.new) (λ at. GaveTop (stacks_of self.old) seat class at (stacks_of self.new)) }
        ensures distinct { AreDistinct (stacks_of self.new) }
    {
        let own = number_of(seat, class);
        let stack = &mut self.stacks[own as usize];
        let at = stack.pop()?;
        let left = !stack.is_empty();
        put(&mut self.seats, own, left);
        Some(at)
    }

    /// Puts blocks on the stack of a seat below 64 and a class below 36, which is empty, the first on top. Their addresses
    /// rise, and none is in a stack. The other stacks stay as they are.
    pub fn refill(&mut self, seat: u32, class: u8, blocks: &ArrayVec<u32, 8>)
        requires seat { seat < 64 }
        requires class { class < 36 }
        requires empty { stacks_of self.old seat class ≡ [] }
        requires rising { AreRising blocks.now.items }
        requires loose { AreLoose (stacks_of self.old) blocks.now.items }
        ensures stacks { stacks_of self.new ≡ with_stack (stacks_of self.old) seat class blocks.now.items }
        ensures distinct { AreDistinct (stacks_of self.new) }
    {
        let number = number_of(seat, class);
        let stack = &mut self.stacks[number as usize];
        stack.fill(blocks);
        let some = !stack.is_empty();
        put(&mut self.seats, number, some);
    }

    /// Puts a block that is in no stack on top of that of a seat below 64 and a class below 36. `false` exactly where that
    /// stack has eight, and then nothing changes. The other stacks stay as they are.
    pub fn put_back(&mut self, seat: u32, class: u8, at: u32) -> bool
        requires seat { seat < 64 }
        requires class { class < 36 }
        requires loose { IsInNoStack (stacks_of self.old) at }
        ensures room { result ≡ nat_lt (length (stacks_of self.old seat class)) 8 }
        ensures put { result ≡ true → stacks_of self.new ≡ with_stack (stacks_of self.old) seat class (at ∷ stacks_of self.old seat class) }
        ensures full { result ≡ false → length (stacks_of self.old seat class) ≡ 8 }
        ensures same { result ≡ false → self.new ≡ self.old }
        ensures distinct { AreDistinct (stacks_of self.new) }
    {
        let number = number_of(seat, class);
        let stack = &mut self.stacks[number as usize];
        if stack.is_full() {
            return false;
        }
        stack.put(at);
        put(&mut self.seats, number, true);
        true
    }

    /// Takes the top block of the stack of the lowest-numbered seat whose stack for the class, below 36, is not empty.
    /// `None` exactly where all stacks of the class are empty. The other stacks stay as they are.
    pub fn steal(&mut self, class: u8) -> Option<u32>
        requires { class < 36 }
        ensures first { MatchOption result (WereEmpty self.old class self.new) (λ at. GaveFirst (stacks_of self.old) class at (stacks_of self.new)) }
        ensures distinct { AreDistinct (stacks_of self.new) }
    {
        let number = least_of(&self.seats, class as usize)?;
        self.pop(number % SEATS, class)
    }

    /// Takes all addresses in the slab that begins at byte `slab`, a multiple of 16384, out of all stacks. The others keep
    /// their order. It looks at one word for each class, and at the stacks of a class up to the last that is not empty.
    pub fn purge_slab(&mut self, slab: u32)
        requires { slab % 16384 ≡ 0 }
        ensures stacks { stacks_of self.new ≡ without_slab (stacks_of self.old) (slab / 16384) }
        ensures distinct { AreDistinct (stacks_of self.new) }
    {
        // That no address stands in two places is known of the fields alone.
        let _ = &self.stacks;
        for class in 0..CLASSES {
            self.purge_class(slab, class);
        }
    }

    /// Whether the address is in a stack. It looks at one word for each class, and at the stacks of a class that are not
    /// empty.
    pub fn holds(&self, at: u32) -> bool
        ensures held { result ≡ true → IsHeld (stacks_of self.now) at }
        ensures loose { result ≡ false → IsInNoStack (stacks_of self.now) at }
        ensures distinct { AreDistinct (stacks_of self.now) }
    {
        // That no address stands in two places is known of the fields alone.
        let _ = &self.stacks;
        for class in 0..CLASSES {
            if self.class_holds(at, class) {
                return true;
            }
        }
        false
    }

    // Takes all addresses in a slab out of the stacks of a class.
    fn purge_class(&mut self, slab: u32, class: u8)
        requires slab { slab % 16384 ≡ 0 }
        requires class { class < 36 }
        ensures { IsPurgedWhere (slab / 16384) (λ other c. c == class) (stacks_of self.old) (stacks_of self.new) }
    {
        let seats = self.seats[class as usize];
        for seat in 0..SEATS {
            if seats >> seat == 0 {
                return;
            }
            self.purge_stack(slab, seat, class);
        }
    }

    // Takes all addresses in a slab out of one stack.
    fn purge_stack(&mut self, slab: u32, seat: u32, class: u8)
        requires slab { slab % 16384 ≡ 0 }
        requires seat { seat < 64 }
        requires class { class < 36 }
        ensures { stacks_of self.new ≡ with_stack (stacks_of self.old) seat class (without_slab (stacks_of self.old) (slab / 16384) seat class) }
    {
        let number = number_of(seat, class);
        if !has(&self.seats, number) {
            return;
        }
        let stack = &mut self.stacks[number as usize];
        stack.leave_slab(slab);
        let still = !stack.is_empty();
        put(&mut self.seats, number, still);
    }

    // Whether the address is in a stack of a class.
    fn class_holds(&self, at: u32, class: u8) -> bool
        requires { class < 36 }
        ensures held { result ≡ true → IsHeld (stacks_of self.now) at }
        ensures loose { result ≡ false → HasNone (stacks_of self.now) class at }
    {
        if self.seats[class as usize] == 0 {
            return false;
        }
        for seat in 0..SEATS {
            if self.stack_holds(at, seat, class) {
                return true;
            }
        }
        false
    }

    // Whether the address is in one stack.
    fn stack_holds(&self, at: u32, seat: u32, class: u8) -> bool
        requires seat { seat < 64 }
        requires class { class < 36 }
        ensures { (result ≡ true) ↔ Has (stacks_of self.now seat class) at }
    {
        let number = number_of(seat, class);
        has(&self.seats, number) && self.stacks[number as usize].holds(at)
    }
}

// The number of the stack of a seat and class.
fn number_of(seat: u32, class: u8) -> u32
    requires seat { seat < 64 }
    requires class { class < 36 }
    ensures { IsNumberOf result seat class }
{
    SEATS * u32::from(class) + seat
}

// So many empty stacks.
fn empty_stacks(alloc: Global, count: u32) -> Result<Vec<Stack>, OutOfMemory>
    ensures { IfOk result (λ stacks. stacks.items ≡ replicate count []) }
{
    let mut stacks = Vec::with_capacity(alloc, count as usize)?;
    for _ in 0..count {
        stacks.push(Stack::new())?;
    }
    Ok(stacks)
}
