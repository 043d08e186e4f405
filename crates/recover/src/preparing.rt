// What recovery needs beside the device.
ghost use Rattle.std.specs.Prelude.{OnOk, IfOk, IfErr};
ghost use Rattle.heap_check.specs.Image.{IsSoundImage};
ghost use Rattle.image_defects.specs.Defects.{IsFirstDefect};
ghost use Rattle.recover.specs.Faults.{IfDefect};
ghost use Rattle.recover.specs.Recovered.{IsPrepared};

use crate::RecoverFault;
use crate::fault::fault_of;
use arena_core::ArenaRoom;
use book_log::BookLog;
use image_check::check_arena;
use recovery_steps::RootNames;
use std::alloc::Global;

// Words of a granule.
const GRANULE_WORDS: usize = 2048;

/// The log of an arena, what its roots name, and the memory of an arena of its size.
#[derive(Drop)]
pub(crate) struct Prepared {
    pub(crate) log: BookLog,
    pub(crate) names: RootNames,
    pub(crate) space: ArenaRoom,
}

/// Judges the words of an arena, and reads what recovery needs of them. It takes all the memory.
pub(crate) fn prepare(alloc: Global, words: &[u64]) -> Result<Prepared, RecoverFault>
    ensures sound { OnOk result (IsSoundImage words.now) }
    ensures prepared { IfOk result (IsPrepared words.now) }
    ensures defect { IfErr result (λ fault. IfDefect fault (IsFirstDefect words.now)) }
{
    match check_arena(alloc, words) {
        Ok(_) => {}
        Err(fault) => return Err(fault_of(fault)),
    }
    read(alloc, words)
}

// Reads the log and what the roots name, and takes the memory of an arena.
fn read(alloc: Global, words: &[u64]) -> Result<Prepared, RecoverFault>
    requires { IsSoundImage words.now }
    ensures prepared { IfOk result (IsPrepared words.now) }
    ensures memory { IfErr result (λ fault. IfDefect fault (λ defect. ⊥)) }
{
    let granules = (words.len() / GRANULE_WORDS) as u32;
    let mut log = BookLog::new(alloc, granules)?;
    log.load_words(words);
    let names = RootNames::new(alloc, words, granules)?;
    let space = ArenaRoom::new(alloc, granules)?;
    Ok(Prepared { log, names, space })
}
