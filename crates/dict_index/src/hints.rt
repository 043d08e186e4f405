// Hints at slots.
ghost use Rattle.std.specs.Prelude.{◌≤◌, ◌<◌, ◌^◌, length};

use pmem_lines::OutOfMemory;
use std::alloc::Global;

// An odd number, by which keys are spread.
const SPREAD: u64 = 0x9e37_79b9_7f4a_7c15;

// How many places a key has for its hint.
const PLACES: usize = 8;

// What is no slot.
const NONE: u16 = u16::MAX;

/// By what a key is spread to, slots in which it may be. They are hints: a slot counts only where it has the key.
#[derive(Drop)]
pub(crate) struct Hints {
    slots: Vec<u16>,
}

impl Hints {
    /// Hints at so many slots, of which there is none yet. It takes 4 bytes for each of them and 16 more, and refuses where there
    /// is no memory for that.
    pub(crate) fn with_room(alloc: Global, slots: u32) -> Result<Hints, OutOfMemory>
        requires { slots < 2 ^ 16 }
    {
        let slots = vec![in alloc; NONE; 2 * slots as usize + PLACES]?;
        Ok(Hints { slots })
    }

    /// The hints at a key: a few slots, in which it may be.
    pub(crate) fn of(&self, key: u64) -> &[u16]
        ensures { length result.now ≤ 8 }
    {
        let home = self.home_of(key);
        match self.slots.get(home..home + PLACES) {
            Some(slots) => slots,
            None => &[],
        }
    }

    /// A key is in a slot: takes a free place of the key, or else its first one.
    pub(crate) fn note(&mut self, key: u64, slot: u16) {
        let home = self.home_of(key);
        let free = self.place_with(key, NONE).unwrap_or(home);
        if let Some(hint) = self.slots.get_mut(free) {
            *hint = slot;
        }
    }

    /// A key is in this slot no more.
    pub(crate) fn forget(&mut self, key: u64, slot: u16) {
        if let Some(place) = self.place_with(key, slot) {
            if let Some(hint) = self.slots.get_mut(place) {
                *hint = NONE;
            }
        }
    }

    // The first place of a key that has this slot.
    fn place_with(&self, key: u64, slot: u16) -> Option<usize> {
        let home = self.home_of(key);
        let places = self.of(key);
        let nth = places.iter().position(|hint| *hint == slot)?;
        Some(home + nth)
    }

    // The first place of a key: all but the last ones take turns.
    fn home_of(&self, key: u64) -> usize
        ensures { result < 2 ^ 32 }
    {
        let homes = self.slots.len().saturating_sub(PLACES) as u64;
        let spread = key.wrapping_mul(SPREAD) >> 32;
        (spread.wrapping_mul(homes) >> 32) as usize
    }
}
