// What a dictionary keeps beside its arena: which root has which key, which are free, and which are stale.
ghost use Rattle.std.specs.Prelude.{◌≡◌, ◌≤◌, ◌<◌, ◌^◌, IfOk};
ghost use Rattle.attach_dict.specs.Index.{IsBlank, MayGo, IsReleased, MayComeNext, HasPutPair, MayDrop, HasDroppedStale};

use crate::layout::STAGE;
use crate::root_set::RootSet;
use dict_index::{KeyMap, Keyed, Numbers};
use pmem_lines::OutOfMemory;
use std::alloc::Global;

// The words of a block of a pair: three, and those of a value.
const BLOCK_WORDS: usize = 512;

/// The keys and the numbers of an arena's pairs, its free and its stale roots, and room for the words of one block.
#[derive(Drop)]
pub(crate) struct DictIndex {
    /// The root of each key: the one whose block counts for it.
    pub(crate) keys: KeyMap,
    /// The numbers of the pairs of all roots but the stage, stale or not.
    pub(crate) numbers: Numbers,
    /// The roots but the stage that name no block.
    pub(crate) free: RootSet,
    pub(crate) stale: RootSet,
    /// Where the words of a block are laid out before they are written.
    pub(crate) block: Vec<u64>,
}

impl DictIndex {
    /// Indexes of roots below `roots`, at most 65,535, of which none has a key, is free or is stale. It takes about 25 bytes
    /// for each of them and 4,096 more, and refuses where there is no memory for that; no later call takes any.
    pub(crate) fn with_room(alloc: Global, roots: u32) -> Result<DictIndex, OutOfMemory>
        requires { roots < 2 ^ 16 }
        ensures { IfOk result (λ index. IsBlank index roots) }
    {
        let block = vec![in alloc; 0; BLOCK_WORDS]?;
        let free = RootSet::with_room(alloc, roots)?;
        let stale = RootSet::with_room(alloc, roots)?;
        let numbers = Numbers::with_room(alloc, roots)?;
        match KeyMap::with_room(alloc, roots) {
            Ok(keys) => Ok(DictIndex {
                keys,
                numbers,
                free,
                stale,
                block,
            }),
            Err(fault) => {
                drop(numbers);
                Err(fault)
            }
        }
    }

    /// A root that has a pair, and no key of the map, loses its number and is free.
    pub(crate) fn release(&mut self, root: u32)
        requires { MayGo self.old root }
        ensures { IsReleased self.old root self.new }
    {
        self.numbers.clear(root);
        self.free.add(root);
    }

    /// A root that is free gets a key and a number, and the root that the key had, if there is one, is stale.
    pub(crate) fn put_pair(&mut self, pair: Keyed, number: u64)
        requires { MayComeNext self.old pair.root }
        ensures { HasPutPair self.old pair number self.new }
    {
        if let Some(was) = self.keys.put(pair) {
            self.stale.add(was);
        }
        self.free.remove(pair.root);
        self.numbers.set(pair.root, number);
    }

    /// A root that is stale is so no more: the stage, or one whose block goes.
    pub(crate) fn drop_stale(&mut self, root: u32)
        requires { MayDrop self.old root }
        ensures { HasDroppedStale self.old root self.new }
    {
        self.stale.remove(root);
        if root != STAGE {
            self.release(root);
        }
    }
}
