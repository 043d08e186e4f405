// A dictionary over an arena that has one.
ghost use Rattle.std.specs.Prelude.{◌≡◌, ◌+◌, ◌<◌, [], length, IfOk, IfErr};
ghost use Rattle.pmem_lines.specs.Pmem.{words_of};
ghost use Rattle.heap_check.specs.Image.{bounds_of, IsExactImage};
ghost use Rattle.arena_core.specs.Call.{IsReady};
ghost use Rattle.attach_dict.specs.Calls.{IsOpened};
ghost use Rattle.attach_dict.specs.Dict.{stage, IsDict};
ghost use Rattle.attach_dict.specs.Index.{IsBlank};
ghost use Rattle.attach_dict.specs.Heads.{AreInOrder, HasPlaces, AreTakenTo, KeepsRest};
ghost use Rattle.attach_dict.specs.Reading.{IsScanned, IsScannedTo, IsStageTaken, IsIndexed, IsFaultOf};
ghost use Rattle.attach_dict.specs.Roots.{IsOut};
ghost use Rattle.attach_dict.specs.Stages.{IsKept};

use crate::OpenFault;
use crate::dict::Dict;
use crate::heads::{Head, ends_key, first_twice, sort};
use crate::index::DictIndex;
use crate::layout::STAGE;
use crate::progress::Progress;
use crate::reading::{Reading, pair_at, roots_of};
use arena_core::Arena;
use dict_index::Keyed;
use pmem_lines::{OutOfMemory, Pmem};
use std::alloc::Global;

impl<P: Pmem> Dict<P> {
    /// Makes a dictionary over an arena, with the pairs that its blocks are; nothing is staged, and a block that a call left at
    /// the stage is stale. It takes all the memory that a dictionary ever takes: about 25 bytes for each root, and 4,096; and
    /// 24 more for each root while it runs. `NotDict` comes exactly where the block of a root from 1 on is no pair, or is one
    /// with the key and the number of a lower root's, and names the lowest such root. The arena has no event, and comes back as
    /// it was where the call is refused.
    pub fn open(alloc: Global, arena: Arena<P>) -> Result<Dict<P>, (OpenFault, Arena<P>)>
        ensures opened { IfOk result (λ dict. IsOpened arena dict) }
        ensures kept { IfOk result IsKept }
        ensures is_dict { IfOk result (λ dict. IsDict (words_of arena.device) dict.pairs) }
        ensures fault { IfErr result (λ refused. IsFaultOf (words_of arena.device) refused.0) }
        ensures refused_unchanged { IfErr result (λ refused. refused.1 ≡ arena) }
    {
        match read_index(alloc, &arena) {
            Ok(index) => Ok(Dict {
                arena,
                index,
                progress: Progress::Idle,
                key: 0,
            }),
            Err(fault) => Err((fault, arena)),
        }
    }
}

// The indexes of an arena's roots, where each block but the stage's is fit.
fn read_index<P: Pmem>(alloc: Global, arena: &Arena<P>) -> Result<DictIndex, OpenFault>
    ensures exact { IsExactImage (words_of arena.now.device) }
    ensures ready { IsReady arena.now.device }
    ensures indexed { IfOk result (IsIndexed (words_of arena.now.device)) }
    ensures fault { IfErr result (IsFaultOf (words_of arena.now.device)) }
{
    let roots = roots_of(arena);
    let mut heads = room_for(alloc, roots)?;
    let mut index = DictIndex::with_room(alloc, roots)?;
    match fill_index(&mut index, &mut heads, arena) {
        Ok(()) => Ok(index),
        Err(fault) => {
            drop(index);
            Err(fault)
        }
    }
}

// Fills the indexes of an arena's roots, which are empty, by way of the heads of its pairs.
fn fill_index<P: Pmem>(
    index: &mut DictIndex,
    heads: &mut Vec<Head>,
    arena: &Arena<P>,
) -> Result<(), OpenFault>
    requires exact { IsExactImage (words_of arena.now.device) }
    requires blank { IsBlank index.old (bounds_of (words_of arena.now.device)).roots }
    requires none { heads.old.items ≡ [] }
    ensures indexed { IfOk result (λ _. IsIndexed (words_of arena.now.device) index.new) }
    ensures fault { IfErr result (IsFaultOf (words_of arena.now.device)) }
{
    let unfit = read_heads(index, heads, arena)?;
    sort(heads);
    if let Some(root) = first_twice(heads).or(unfit) {
        return Err(OpenFault::NotDict { root });
    }
    take_heads(index, heads);
    take_stage(index, arena);
    Ok(())
}

// An empty row with room for the heads of so many roots.
fn room_for(alloc: Global, roots: u32) -> Result<Vec<Head>, OutOfMemory>
    ensures { IfOk result (λ heads. heads.items ≡ []) }
{
    Ok(Vec::with_capacity(alloc, roots as usize)?)
}

// Reads the blocks of all roots but the stage: which are free, and of the others the numbers and the heads. It ends at the lowest
// root whose block is no pair, and answers it.
fn read_heads<P: Pmem>(
    index: &mut DictIndex,
    heads: &mut Vec<Head>,
    arena: &Arena<P>,
) -> Result<Option<u32>, OutOfMemory>
    requires { IsScanned (words_of arena.now.device) 1 heads.old.items index.old }
    ensures { IfOk result (IsScannedTo (words_of arena.now.device) heads.new.items index.new) }
{
    for root in 1..roots_of(arena) {
        match pair_at(arena, root) {
            Reading::Empty => index.free.add(root),
            Reading::Unfit => return Ok(Some(root)),
            Reading::Pair(head) => {
                index.numbers.set(root, head.number);
                heads.push(head)?;
            }
        }
    }
    Ok(None)
}

// Takes the keys of a sorted row into a map that has none: of each key the last root, and the others are stale.
fn take_heads(index: &mut DictIndex, heads: &[Head])
    requires order { AreInOrder heads.now }
    requires places { HasPlaces heads.now index.old }
    requires none { AreTakenTo heads.now 0 index.old }
    ensures taken { AreTakenTo heads.now (length heads.now) index.new }
    ensures rest { KeepsRest index.old index.new }
{
    for place in 0..heads.len() {
        take_head(index, heads, place);
    }
}

// Takes the key at a place of such a row.
fn take_head(index: &mut DictIndex, heads: &[Head], place: usize)
    requires order { AreInOrder heads.now }
    requires places { HasPlaces heads.now index.old }
    requires inside { place < length heads.now }
    requires taken { AreTakenTo heads.now place index.old }
    ensures taken { AreTakenTo heads.now (place + 1) index.new }
    ensures rest { KeepsRest index.old index.new }
{
    let head = heads[place];
    if ends_key(heads, place) {
        index.keys.push(Keyed {
            key: head.key,
            root: head.root,
        });
    } else {
        index.stale.add(head.root);
    }
}

// The stage is stale where it has a block.
fn take_stage<P: Pmem>(index: &mut DictIndex, arena: &Arena<P>)
    requires low { stage < index.old.stale.below }
    requires out { IsOut index.old.stale stage }
    ensures { IsStageTaken (words_of arena.now.device) index.old index.new }
{
    if arena.block(STAGE).is_some() {
        index.stale.add(STAGE);
    }
}
