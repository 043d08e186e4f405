// The variants of arenas: how the image of a pool of each is read, and what each says of an arena's words.
ghost use Rattle.std.specs.Prelude.{◌≡◌, ◌≤◌, ◌↔◌, ℕ, List, length, IfOk, IfErr, OnOk, MatchOption, None};
ghost use Rattle.pmem_lines.specs.Pmem.{words_of, fresh};
ghost use Rattle.pool_layout.specs.Header.{granules_in};
ghost use Rattle.pool_layout.specs.Image.{AreWordsOf, AreWords};
ghost use Rattle.image_check.specs.Faults.{IfDefect};
ghost use Rattle.heap_map.specs.Cells.{AreCells, AreNoneLoose};
ghost use Rattle.heap_map.specs.Facts.{AreClassFills, AreFacts};
ghost use Rattle.heap_map.specs.Blocks.{IsRootBlock};
ghost use Rattle.nvpool.specs.Rules.{ArePoolWords};

use gc_map::{gc_block_of, gc_map_of};
use gc_recover::recover_device;
use gc_search::GcFault;
use heap_map::{HeapMap, RootBlock, block_of, map_of};
use image_check::CheckFault;
use pmem_lines::SimPmem;
use pool_layout::{ArenaDefect, PoolHeader, gc_pool_header, pool_header};
use recover::{RecoverFault, recover};
use std::alloc::Global;

/// A variant of arenas.
pub(crate) trait Variant {
    ghost use Rattle.nvpool.specs.Rules.{PoolRules};

    /// What it says of images.
    ghost rules: { PoolRules };

    /// The header of arena 0 of the image of a pool, of which these are the words, and which has so many bytes; else its defect.
    fn header(words: &[u64], bytes: u64) -> Result<PoolHeader, ArenaDefect>
        requires { AreWords words.now bytes }
        ensures pool { IfOk result (ArePoolWords words.now) }
        ensures image { IfOk result (λ header. (image : List ℕ) → AreWordsOf words.now bytes image → rules.IsImage image words.now header) }
        ensures defect { IfErr result (λ found. (image : List ℕ) → AreWordsOf words.now bytes image → rules.IsNone image found.arena found.defect) };

    /// The map of an arena of these words; else their first defect.
    fn map(alloc: Global, words: &[u64]) -> Result<HeapMap, CheckFault>
        ensures sound { OnOk result (rules.maps.IsSound words.now) }
        ensures cells { IfOk result (λ map. AreCells rules.maps words.now map.cells.items) }
        ensures exact { IfOk result (λ map. AreNoneLoose map.cells.items ↔ rules.maps.IsExact words.now) }
        ensures facts { IfOk result (λ map. AreFacts rules.maps words.now map.facts) }
        ensures classes { IfOk result (λ map. AreClassFills rules.maps words.now map.classes.items) }
        ensures defect { IfErr result (λ fault. IfDefect fault (rules.IsFirst words.now)) };

    /// The block that a root of an arena of these words holds, if it holds one; else their first defect.
    fn block(alloc: Global, words: &[u64], root: u32) -> Result<Option<RootBlock>, CheckFault>
        ensures sound { OnOk result (rules.maps.IsSound words.now) }
        ensures block { IfOk result (λ found. MatchOption found (rules.maps.block words.now root ≡ None) (IsRootBlock rules.maps words.now root)) }
        ensures defect { IfErr result (λ fault. IfDefect fault (rules.IsFirst words.now)) };

    /// Recovers a new device of the words of an arena; else their first defect.
    fn repaired(alloc: Global, device: SimPmem) -> Result<SimPmem, CheckFault>
        requires { device ≡ fresh (words_of device) 4096 }
        ensures repaired { IfOk result (λ done. rules.IsRepaired (words_of device) (words_of done)) }
        ensures defect { IfErr result (λ fault. IfDefect fault (rules.IsFirst (words_of device))) };

    /// A sound arena has no more granules than a pool.
    ghost few_granules: { (words : List ℕ) → rules.maps.IsSound words → granules_in words ≤ 4096 };

    /// What is repaired was sound.
    ghost was_sound: { (words new : List ℕ) → rules.IsRepaired words new → rules.maps.IsSound words };

    /// It stays as large as it was.
    ghost same_size: { (words new : List ℕ) → rules.IsRepaired words new → length new ≡ length words };
}

/// The LOG variant.
pub(crate) struct Log {}

impl Variant for Log {
    ghost use Rattle.heap_check.proofs.Sizes.{sizes_of};
    ghost use Rattle.nvpool.specs.Rules.{log_pools};

    ghost rules = { log_pools };

    fn header(words: &[u64], bytes: u64) -> Result<PoolHeader, ArenaDefect> {
        pool_header(words, bytes)
    }

    fn map(alloc: Global, words: &[u64]) -> Result<HeapMap, CheckFault> {
        map_of(alloc, words)
    }

    fn block(alloc: Global, words: &[u64], root: u32) -> Result<Option<RootBlock>, CheckFault> {
        block_of(alloc, words, root)
    }

    fn repaired(alloc: Global, device: SimPmem) -> Result<SimPmem, CheckFault> {
        match recover(alloc, device) {
            Ok(arena) => Ok(arena.into_pmem()),
            Err((RecoverFault::Memory(error), _)) => Err(CheckFault::Memory(error)),
            Err((RecoverFault::Defect(defect), _)) => Err(CheckFault::Defect(defect)),
        }
    }

    ghost few_granules = { λ words sound. (sizes_of words sound.formed).most };

    ghost was_sound = { λ words new is. is.sound };

    ghost same_size = { λ words new is. is.size };
}

/// The GC variant.
pub(crate) struct Gc {}

impl Variant for Gc {
    ghost use Rattle.std.proofs.Common.{arith};
    ghost use Rattle.gc_map.proofs.Premises.{few_granules as few};
    ghost use Rattle.nvpool.specs.Rules.{gc_pools};

    ghost rules = { gc_pools };

    fn header(words: &[u64], bytes: u64) -> Result<PoolHeader, ArenaDefect> {
        gc_pool_header(words, bytes)
    }

    fn map(alloc: Global, words: &[u64]) -> Result<HeapMap, CheckFault> {
        match gc_map_of(alloc, words) {
            Ok(map) => Ok(map),
            Err(GcFault::Memory(error)) => Err(CheckFault::Memory(error)),
            Err(GcFault::Defect(defect)) => Err(CheckFault::Defect(defect)),
        }
    }

    fn block(alloc: Global, words: &[u64], root: u32) -> Result<Option<RootBlock>, CheckFault> {
        match gc_block_of(alloc, words, root) {
            Ok(found) => Ok(found),
            Err(GcFault::Memory(error)) => Err(CheckFault::Memory(error)),
            Err(GcFault::Defect(defect)) => Err(CheckFault::Defect(defect)),
        }
    }

    fn repaired(alloc: Global, device: SimPmem) -> Result<SimPmem, CheckFault> {
        match recover_device(alloc, device) {
            Ok(done) => Ok(done.device),
            Err((GcFault::Memory(error), _)) => Err(CheckFault::Memory(error)),
            Err((GcFault::Defect(defect), _)) => Err(CheckFault::Defect(defect)),
        }
    }

    ghost few_granules = { λ words sound. Prim.omega (arith, few words sound) };

    ghost was_sound = { λ words new is. is.sound };

    ghost same_size = { λ words new is. is.size };
}
