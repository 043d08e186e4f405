// A pair goes: that of a key, or a stale one.
ghost use Rattle.std.specs.Prelude.{◌≡◌};
ghost use Rattle.pmem_lines.specs.Pmem.{words_of};
ghost use Rattle.attach_dict.specs.Calls.{IsRemovedBy, IsTidiedBy};
ghost use Rattle.attach_dict.specs.Stages.{Idle, AreNoneStale, IsKept};

use crate::Absent;
use crate::dict::Dict;
use crate::steps::free_block;
use pmem_lines::Pmem;

impl<P: Pmem> Dict<P> {
    /// Frees the root whose block counts for a key, and the map loses the key. Nothing is staged, and no root is stale, before it
    /// and behind it. `Absent` exactly where the map lacks the key; nothing changes then. After a crash within it the map is the
    /// one from before the call or the one from behind it. It makes one call of the arena, by seat 0, and takes no memory.
    pub fn remove(&mut self, key: u64) -> Result<(), Absent>
        requires idle { self.old.phase ≡ Idle }
        requires tidy { AreNoneStale (words_of self.old.arena.device) Idle }
        ensures removed { IsRemovedBy self.old self.new key result }
        ensures kept { IsKept self.new }
    {
        match self.index.keys.remove(key) {
            Some(root) => {
                free_block(&mut self.arena, root);
                self.index.release(root);
                Ok(())
            }
            None => Err(Absent),
        }
    }

    /// Frees the lowest stale root, and makes no other one stale. False exactly where there is none; nothing changes then. The map
    /// stays, also in a crash. It makes one call of the arena, by seat 0, and takes no memory.
    pub fn tidy(&mut self) -> bool
        ensures tidied { IsTidiedBy self.old self.new result }
        ensures kept { IsKept self.new }
    {
        match self.index.stale.lowest() {
            Some(root) => {
                free_block(&mut self.arena, root);
                self.index.drop_stale(root);
                true
            }
            None => false,
        }
    }
}
