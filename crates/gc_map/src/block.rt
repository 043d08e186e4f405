// The block of a root.
ghost use Rattle.std.specs.Prelude.{◌≡◌, ◌≢◌, IfErr, IfOk, OnOk, MatchOption, None};
ghost use Rattle.gc_check.specs.Heap.{gc_tables, gc_heap, gc_size};
ghost use Rattle.gc_check.specs.Image.{IsGcSoundImage};
ghost use Rattle.gc_check.specs.Defects.{IsFirstGcDefect};
ghost use Rattle.gc_search.specs.Faults.{IfDefect};
ghost use Rattle.gc_search.specs.Image.{IsSoundWith};
ghost use Rattle.heap_map.specs.Blocks.{IsRootBlock};
ghost use Rattle.gc_map.specs.GcRules.{gc_rules};

use gc_search::{GcFault, GcImage, address_of, check_gc_arena, class_field_of};
use heap_map::RootBlock;
use image_reading::{large_at, root_word};
use size_classes::size_of_class;
use std::alloc::Global;

/// The block that a root of an arena of the GC variant of these words holds, if it holds one. Ok comes exactly where they are a
/// sound image; a defect exactly where they are not, and it is the first in the order of the format. Either yields to want of memory.
pub fn gc_block_of(alloc: Global, words: &[u64], root: u32) -> Result<Option<RootBlock>, GcFault>
    ensures sound { OnOk result (IsGcSoundImage words.now) }
    ensures block { IfOk result (λ found. MatchOption found (gc_heap (gc_tables words.now) root ≡ None) (IsRootBlock gc_rules words.now root)) }
    ensures defect { IfErr result (λ fault. IfDefect fault (IsFirstGcDefect words.now)) }
{
    match check_gc_arena(alloc, words) {
        Ok(image) => Ok(find(words, &image, root)),
        Err(fault) => Err(fault),
    }
}

// The same of a sound image, of which the search has read this.
fn find(words: &[u64], image: &GcImage, root: u32) -> Option<RootBlock>
    requires { IsSoundWith words.now image.now }
    ensures { MatchOption result (gc_heap (gc_tables words.now) root ≡ None) (IsRootBlock gc_rules words.now root) }
{
    let word = root_word(words, root);
    if word == 0 {
        return None;
    }
    Some(RootBlock {
        at: address_of(word),
        size: size_of(words, image, root, word),
    })
}

// The size of the block of a root that has this word.
fn size_of(words: &[u64], image: &GcImage, root: u32, word: u64) -> u64
    requires image { IsSoundWith words.now image.now }
    requires some { word ≢ 0 }
    requires word { word ≡ (gc_tables words.now).word root }
    ensures { result ≡ gc_size (gc_tables words.now).large word }
{
    let _ = words;
    let _ = root;
    let class = class_field_of(word);
    if class == 0 {
        return 16384 * u64::from(large_at(&image.log, (address_of(word) / 16384) as u32));
    }
    u64::from(size_of_class(class - 1))
}
