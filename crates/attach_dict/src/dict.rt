// A dictionary over an arena.
ghost use Rattle.std.specs.Prelude.{◌≡◌, ◌↔◌, ◌^◌, [], length, IsTrue, MatchOption};
ghost use Rattle.pmem_lines.specs.Pmem.{words_of};
ghost use Rattle.attach_dict.specs.Calls.{IsGot, LawOfOtherKeys};
ghost use Rattle.attach_dict.specs.Dict.{LawOfDicts, LawOfKeptDicts};
ghost use Rattle.attach_dict.specs.Stages.{IsKept, IsStaleCount, LawOfStaleCounts};
ghost use Rattle.attach_dict.specs.View.{HasNoneFrom, IsNextFrom};

use crate::index::DictIndex;
use crate::progress::Progress;
use crate::reading::value_at;
use arena_core::Arena;
use pmem_lines::Pmem;
use std::marker::Model;

/// A dictionary from keys of 64 bits to lists of at most 509 words, in an arena of either version all of whose blocks are its
/// own. In contracts it is its arena, its pairs by rising key, and its phase: how far a put has come.
#[derive(Drop)]
pub struct Dict<P: Pmem> {
    pub(crate) arena: Arena<P>,
    pub(crate) index: DictIndex,
    pub(crate) progress: Progress,
    // The key of the put under way.
    pub(crate) key: u64,
}

impl<P: Pmem> Model for Dict<P> {
    ghost use Rattle.attach_dict.specs.Stages.{DictState};
    ghost use Rattle.attach_dict.specs.Whole.{state_of, IsWhole};

    ghost Value = { DictState };

    ghost view = { λ s. state_of s.arena s.index s.key s.progress };

    ghost invariant = { λ s. IsWhole s.arena s.index s.key s.progress };
}

impl<P: Pmem> Dict<P> {
    /// How many keys there are. Each key has 64 bits.
    pub fn len(&self) -> u32
        ensures count { result ≡ length self.now.pairs }
        ensures keys { HasNoneFrom self.now.pairs (2 ^ 64) }
        ensures kept { IsKept self.now }
    {
        self.index.keys.len()
    }

    /// There is no key.
    pub fn is_empty(&self) -> bool
        ensures { IsTrue result ↔ (self.now.pairs ≡ []) }
    {
        self.len() == 0
    }

    /// How many stale roots there are.
    pub fn stale(&self) -> u32
        ensures count { IsStaleCount (words_of self.now.arena.device) self.now.phase result }
        ensures kept { IsKept self.now }
    {
        self.index.stale.len()
    }

    /// Lends the value of a key, in place. `None` exactly where the dictionary lacks the key.
    pub fn get(&self, key: u64) -> Option<&[u64]>
        ensures got { IsGot self.now.pairs key result }
        ensures kept { IsKept self.now }
    {
        match self.index.keys.get(key) {
            Some(root) => Some(value_at(&self.arena, root)),
            None => None,
        }
    }

    /// The least key that is `key` or above it, and its value, lent in place. `None` exactly where all keys are below `key`.
    pub fn next_from(&self, key: u64) -> Option<(u64, &[u64])>
        ensures next { MatchOption result (HasNoneFrom self.now.pairs key) (λ found. IsNextFrom self.now.pairs key found.0 found.1.now) }
        ensures kept { IsKept self.now }
    {
        match self.index.keys.next_from(key) {
            Some(pair) => Some((pair.key, value_at(&self.arena, pair.root))),
            None => None,
        }
    }

    /// Lends the arena.
    pub fn arena(&self) -> &Arena<P>
        ensures arena { result.now ≡ self.now.arena }
        ensures kept { IsKept self.now }
    {
        &self.arena
    }

    /// Gives the arena back.
    pub fn into_arena(self) -> Arena<P>
        ensures arena { result ≡ self.arena }
        ensures kept { IsKept self }
    {
        let Dict {
            arena,
            index,
            progress: _,
            key: _,
        } = self;
        drop(index);
        arena
    }
}

/// The law of dictionaries: an image is the dictionary of one list of pairs at most.
pub fn law_of_dicts()
    ensures { LawOfDicts }
{}

/// Where the heap and the words of blocks stay, so does the dictionary: what recovery promises gives the map again.
pub fn law_of_kept_dicts()
    ensures { LawOfKeptDicts }
{}

/// Of an exact image 0 roots are stale by their count exactly where none is: a caller may read off `stale` that none is.
pub fn law_of_stale_counts()
    ensures { LawOfStaleCounts }
{}

/// What is lent of a key is lent again after any calls on other keys.
pub fn law_of_other_keys()
    ensures { LawOfOtherKeys }
{}
