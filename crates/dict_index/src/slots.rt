// Keys with their roots in slots, and a row of the slots by rising key.
ghost use Rattle.std.specs.Prelude.{◌≡◌, ℕ, ◌<◌, ◌≤◌, ◌^◌, length, MatchOption, IfOk, IfSome};
ghost use Rattle.dict_index.specs.KeyRoots.{IsKeyMap, LacksKey, LacksRoot, IsNew, HasMore, HasReplaced, IsRootOf, HasNoneFrom};
ghost use Rattle.dict_index.specs.Kept.{IsPlaceOf, IsInRow, HasKeyAt, IsReplacedIn, HasLessAt, IsCountedUp};

use crate::key_map::Keyed;
use crate::rows::{NO_ROOT, place_among, root_of, turn_down, turn_up};
use pmem_lines::OutOfMemory;
use std::alloc::Global;
use std::marker::Model;

/// Where a key was found, and its root.
#[derive(Clone, Copy)]
pub(crate) struct Found {
    pub(crate) slot: u16,
    pub(crate) root: u32,
}

/// A slot for each root. Some have a key with its root, which stay in it until the key goes.
#[derive(Drop)]
pub(crate) struct Slots {
    // By slot its key, and its root or none.
    keys: Vec<u64>,
    roots: Vec<u16>,
    // All slots: first those that have a key, by rising key, and then the others.
    row: Vec<u16>,
    // How many have one.
    count: usize,
}

impl Model for Slots {
    ghost use Rattle.dict_index.specs.KeyRoots.{KeyRoots};

    ghost Value = { KeyRoots };

    ghost use Rattle.dict_index.specs.Kept.{map_of, IsKept};

    ghost view = { λ s. map_of s.count s.row.items s.keys.items s.roots.items };

    ghost invariant = { λ s. IsKept s.count s.row.items s.keys.items s.roots.items };
}

impl Slots {
    /// So many slots, of which none has a key. It takes 12 bytes for each, and refuses where there is no memory for that; no
    /// later call takes any.
    pub(crate) fn with_room(alloc: Global, roots: u32) -> Result<Slots, OutOfMemory>
        requires { roots < 2 ^ 16 }
        ensures { IfOk result (λ slots. IsNew slots roots) }
    {
        let keys = vec![in alloc; 0; roots as usize]?;
        let all = vec![in alloc; NO_ROOT; roots as usize]?;
        let row = all_below(alloc, roots)?;
        Ok(Slots {
            keys,
            roots: all,
            row,
            count: 0,
        })
    }

    /// How many have a key.
    pub(crate) fn len(&self) -> u32
        ensures count { result ≡ length self.now.rows }
        ensures sound { IsKeyMap self.now }
    {
        self.count as u32
    }

    /// How many have a key, which is how many are below one that is above all.
    pub(crate) fn end(&self) -> usize
        ensures { (key : ℕ) → HasNoneFrom self.now key → IsPlaceOf self.now key result }
    {
        self.count
    }

    /// How many keys are below one.
    pub(crate) fn place_of(&self, key: u64) -> usize
        ensures place { IsPlaceOf self.now key result }
        ensures sound { IsKeyMap self.now }
    {
        place_among(&self.row, self.count, &self.keys, key)
    }

    /// The slot of a key and its root, by how many keys are below it. `None` exactly where there is no such key.
    pub(crate) fn found_at(&self, place: usize, key: u64) -> Option<Found>
        requires { IsPlaceOf self.now key place }
        ensures { MatchOption result (LacksKey self.now key) (λ found. IsInRow self.now place (record { key = key; root = found.root })) }
    {
        if place == self.count || self.key_at(place) != key {
            return None;
        }
        let slot = self.row[place];
        Some(Found {
            slot,
            root: u32::from(self.roots[slot as usize]),
        })
    }

    /// The key of a place and its root. `None` exactly where so many keys are all.
    pub(crate) fn row_at(&self, place: usize) -> Option<Keyed>
        ensures { MatchOption result (length self.now.rows ≤ place) (IsInRow self.now place) }
    {
        if self.count <= place {
            return None;
        }
        let slot = self.row[place];
        Some(Keyed {
            key: self.keys[slot as usize],
            root: u32::from(self.roots[slot as usize]),
        })
    }

    /// The root of a key, where it is in this slot.
    pub(crate) fn root_in(&self, slot: u16, key: u64) -> Option<u32>
        ensures { IfSome result (IsRootOf self.now key) }
    {
        let root = root_of(&self.keys, &self.roots, slot, key)?;
        Some(u32::from(root))
    }

    /// A key gets a root that no key has, where it is in this slot, and the root that it had is the answer. Nothing changes where
    /// it is not.
    pub(crate) fn replace_in(&mut self, slot: u16, more: Keyed) -> Option<u32>
        requires root { more.root < self.old.roots }
        requires fresh { LacksRoot self.old more.root }
        ensures { IsReplacedIn self.old more self.new result }
    {
        let was = root_of(&self.keys, &self.roots, slot, more.key)?;
        self.roots[slot as usize] = more.root as u16;
        Some(u32::from(was))
    }

    /// The key of a place gets a root that no key has, and the root that it had is the answer.
    pub(crate) fn replace_at(&mut self, place: usize, more: Keyed) -> u32
        requires root { more.root < self.old.roots }
        requires fresh { LacksRoot self.old more.root }
        requires place { HasKeyAt self.old place more.key }
        ensures { HasReplaced self.old (record { key = more.key; root = result }) more self.new }
    {
        let slot = self.row[place];
        let was = self.roots[slot as usize];
        self.roots[slot as usize] = more.root as u16;
        u32::from(was)
    }

    /// A key that is not there gets a root that no key has, and the slot that both are in is the answer. It comes where so many
    /// keys are below it.
    pub(crate) fn insert(&mut self, place: usize, more: Keyed) -> u16
        requires root { more.root < self.old.roots }
        requires fresh { LacksRoot self.old more.root }
        requires place { IsPlaceOf self.old more.key place }
        requires lacked { LacksKey self.old more.key }
        ensures { HasMore self.old more self.new }
    {
        let slot = self.row[self.count];
        turn_up(&mut self.row, place, self.count);
        self.keys[slot as usize] = more.key;
        self.roots[slot as usize] = more.root as u16;
        self.count += 1;
        slot
    }

    /// The key of a place goes.
    pub(crate) fn remove_at(&mut self, place: usize)
        requires { place < length self.old.rows }
        ensures { HasLessAt self.old place self.new }
    {
        let slot = self.row[place];
        self.count -= 1;
        turn_down(&mut self.row, place, self.count);
        self.roots[slot as usize] = NO_ROOT;
    }

    // The key of a place.
    fn key_at(&self, place: usize) -> u64
        requires { place < length self.now.rows }
        ensures { HasKeyAt self.now place result }
    {
        self.keys[self.row[place] as usize]
    }
}

// All slots below a number, each once.
fn all_below(alloc: Global, slots: u32) -> Result<Vec<u16>, OutOfMemory>
    requires { slots < 2 ^ 16 }
    ensures { IfOk result (λ row. IsCountedUp row.items slots) }
{
    let mut row = Vec::with_capacity(alloc, slots as usize)?;
    for slot in 0..slots {
        row.push(slot as u16)?;
    }
    Ok(row)
}
