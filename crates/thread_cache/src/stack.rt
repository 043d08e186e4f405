// One stack of addresses.
ghost use Rattle.std.specs.Prelude.{◌≡◌, ◌==◌, ◌<◌, ◌≤◌, ◌/◌, ◌%◌, ◌↔◌, [], ◌∷◌, length, not, true, MatchOption};
ghost use Rattle.std.specs.List.{filter};
ghost use Rattle.heap_model.specs.Placement.{Has};
ghost use Rattle.heap_model.specs.Slabs.{is_within};

use arrayvec::ArrayVec;
use std::marker::Model;

const SLAB_BYTES: u32 = 65536;

/// At most eight addresses, of which the one that came last goes first. In contracts it is their list, the top one first.
#[derive(Drop)]
pub(crate) struct Stack {
    // The top one last.
    blocks: ArrayVec<u32, 8>,
}

impl Model for Stack {
    ghost use Rattle.std.specs.Prelude.{List, ℕ, reverse};

    ghost Value = { List ℕ };

    ghost view = { λ a. reverse a.blocks.items };
}

impl Stack {
    /// A stack with no address.
    pub(crate) fn new() -> Stack
        ensures { result ≡ [] }
    {
        Stack {
            blocks: ArrayVec::new(),
        }
    }

    /// Whether it has no address.
    pub(crate) fn is_empty(&self) -> bool
        ensures { result ≡ (length self.now == 0) }
    {
        self.blocks.is_empty()
    }

    /// Whether it has eight addresses, the most.
    pub(crate) fn is_full(&self) -> bool
        ensures value { result ≡ (length self.now == 8) }
        ensures fits { length self.now ≤ 8 }
    {
        self.blocks.is_full()
    }

    /// Whether it has the address.
    pub(crate) fn holds(&self, at: u32) -> bool
        ensures { (result ≡ true) ↔ Has self.now at }
    {
        self.blocks.contains(&at)
    }

    /// Takes the top address. `None` exactly where there is none.
    pub(crate) fn pop(&mut self) -> Option<u32>
        ensures { MatchOption result ((self.old ≡ []) × (self.new ≡ [])) (λ at. self.old ≡ at ∷ self.new) }
    {
        self.blocks.pop()
    }

    /// Puts an address on top.
    pub(crate) fn put(&mut self, at: u32)
        requires { length self.old < 8 }
        ensures { self.new ≡ at ∷ self.old }
    {
        self.blocks.push(at);
    }

    /// Puts addresses on a stack that has none, the first on top.
    pub(crate) fn fill(&mut self, addresses: &ArrayVec<u32, 8>)
        requires { self.old ≡ [] }
        ensures addresses { self.new ≡ addresses.now.items }
        ensures fits { length addresses.now.items ≤ 8 }
    {
        for i in 0..addresses.len() {
            self.blocks.push(addresses[addresses.len() - 1 - i]);
        }
    }

    /// Takes out all addresses in the slab that begins at byte `slab`. The others keep their order.
    pub(crate) fn leave_slab(&mut self, slab: u32)
        requires { slab % 16384 ≡ 0 }
        ensures { self.new ≡ filter (λ at. not (is_within (slab / 16384) at)) self.old }
    {
        self.blocks = outside(&self.blocks, slab);
    }
}

// The addresses that do not lie in the slab that begins at byte `slab`.
fn outside(addresses: &ArrayVec<u32, 8>, slab: u32) -> ArrayVec<u32, 8>
    requires { slab % 16384 ≡ 0 }
    ensures { result.items ≡ filter (λ at. not (is_within (slab / 16384) at)) addresses.now.items }
{
    let mut kept = ArrayVec::new();
    for at in addresses.as_slice() {
        if !is_inside(*at, slab) {
            kept.push(*at);
        }
    }
    kept
}

// Whether an address lies in the slab that begins at byte `slab`.
fn is_inside(at: u32, slab: u32) -> bool
    requires { slab % 16384 ≡ 0 }
    ensures { result ≡ is_within (slab / 16384) at }
{
    at >= slab && at - slab < SLAB_BYTES
}
