// A finite map from keys to roots.
ghost use Rattle.std.specs.Prelude.{◌≡◌, ◌<◌, ◌^◌, length, MatchOption, IfOk, IfSome};
ghost use Rattle.dict_index.specs.KeyRoots.{IsKeyMap, LacksKey, LacksRoot, IsNew, HasMore, IsPut, IsRemoved, IsRootOf, HasNoneFrom, IsNextFrom};

use crate::hints::Hints;
use crate::slots::{Found, Slots};
use pmem_lines::OutOfMemory;
use std::alloc::Global;
use std::marker::Model;

/// A key with its root.
#[derive(Clone, Copy, Debug, PartialEq, Eq)]
pub struct Keyed {
    pub key: u64,
    pub root: u32,
}

/// A finite map from keys of 64 bits to roots, in which a root has one key at most.
///
/// A key that is there is mostly found at once, and else by bisection, which looks at one key for each doubling of how many
/// there are. So is the place of a key that comes or goes; those above it move by two bytes each.
#[derive(Drop)]
pub struct KeyMap {
    slots: Slots,
    hints: Hints,
}

impl Model for KeyMap {
    ghost use Rattle.dict_index.specs.KeyRoots.{KeyRoots};

    ghost Value = { KeyRoots };

    ghost view = { λ m. m.slots };
}

impl KeyMap {
    /// A map to roots below `roots`, at most 65,535, in which no key has one. It takes 16 bytes for each of them and 16 more,
    /// and refuses where there is no memory for that; no later call takes any.
    pub fn with_room(alloc: Global, roots: u32) -> Result<KeyMap, OutOfMemory>
        requires { roots < 2 ^ 16 }
        ensures { IfOk result (λ map. IsNew map roots) }
    {
        let slots = Slots::with_room(alloc, roots)?;
        let hints = Hints::with_room(alloc, roots)?;
        Ok(KeyMap { slots, hints })
    }

    /// How many keys there are.
    pub fn len(&self) -> u32
        ensures count { result ≡ length self.now.rows }
        ensures sound { IsKeyMap self.now }
    {
        self.slots.len()
    }

    /// The root of a key. `None` exactly where the map lacks the key.
    pub fn get(&self, key: u64) -> Option<u32>
        ensures { MatchOption result (LacksKey self.now key) (IsRootOf self.now key) }
    {
        match self.hinted(key) {
            Some(found) => Some(found.root),
            None => self.searched(key),
        }
    }

    /// The least key that is `key` or above it, with its root. `None` exactly where all keys are below `key`.
    pub fn next_from(&self, key: u64) -> Option<Keyed>
        ensures { MatchOption result (HasNoneFrom self.now key) (IsNextFrom self.now key) }
    {
        let place = self.slots.place_of(key);
        self.slots.row_at(place)
    }

    /// A key gets a root that no key has, in place of the one that it had. That one is the answer: `None` exactly where the map
    /// lacked the key. The others stay as they are.
    pub fn put(&mut self, more: Keyed) -> Option<u32>
        requires root { more.root < self.old.roots }
        requires fresh { LacksRoot self.old more.root }
        ensures { IsPut self.old more self.new result }
    {
        if let Some(found) = self.hinted(more.key) {
            if let Some(was) = self.slots.replace_in(found.slot, more) {
                return Some(was);
            }
        }
        self.put_by_search(more)
    }

    /// A key above all others gets a root that no key has, without a search. The others stay as they are.
    pub fn push(&mut self, more: Keyed)
        requires above { HasNoneFrom self.old more.key }
        requires root { more.root < self.old.roots }
        requires fresh { LacksRoot self.old more.root }
        ensures { HasMore self.old more self.new }
    {
        let place = self.slots.end();
        let slot = self.slots.insert(place, more);
        self.hints.note(more.key, slot);
    }

    /// A key loses its root, which is the answer. `None` exactly where the map lacks the key; nothing changes then. The others
    /// stay as they are.
    pub fn remove(&mut self, key: u64) -> Option<u32>
        ensures { IsRemoved self.old key self.new result }
    {
        let place = self.slots.place_of(key);
        let found = self.slots.found_at(place, key)?;
        self.slots.remove_at(place);
        self.hints.forget(key, found.slot);
        Some(found.root)
    }

    // The slot of a key and its root, where a hint leads there.
    fn hinted(&self, key: u64) -> Option<Found>
        ensures { IfSome result (λ found. IsRootOf self.now key found.root) }
    {
        for slot in self.hints.of(key) {
            if let Some(root) = self.slots.root_in(*slot, key) {
                return Some(Found { slot: *slot, root });
            }
        }
        None
    }

    // The root of a key, by bisection.
    fn searched(&self, key: u64) -> Option<u32>
        ensures { MatchOption result (LacksKey self.now key) (IsRootOf self.now key) }
    {
        let place = self.slots.place_of(key);
        let found = self.slots.found_at(place, key)?;
        Some(found.root)
    }

    // Puts a key to which no hint leads, and makes one.
    fn put_by_search(&mut self, more: Keyed) -> Option<u32>
        requires root { more.root < self.old.roots }
        requires fresh { LacksRoot self.old more.root }
        ensures { IsPut self.old more self.new result }
    {
        let place = self.slots.place_of(more.key);
        match self.slots.found_at(place, more.key) {
            Some(found) => {
                self.hints.note(more.key, found.slot);
                Some(self.slots.replace_at(place, more))
            }
            None => {
                let slot = self.slots.insert(place, more);
                self.hints.note(more.key, slot);
                None
            }
        }
    }
}
