// The report of `check`.
ghost use Rattle.std.specs.Prelude.{◌≡◌, ◌*◌, ℕ, List, length, IfOk, IfErr, OnOk};
ghost use Rattle.pool_layout.specs.Image.{AreWordsOf, AreWords, IfDefect};
ghost use Rattle.image_runs.specs.Checks.{HasLines, HasUnsoundFrom, IsChecked, IsPoolDefect, AddsLine, IsOwnDefect};

use image_check::{CheckFault, check_arena};
use pool_layout::{ImageFault, PoolHeader, parts, pool_header};
use std::alloc::Global;
use trace_text::write_summary;

/// What is reported of the image of a pool, of which these are the words, and which has so many bytes: for each arena in
/// order a line with how many live large extents, live slabs, roots that hold a block and loose things it has. `Defect`
/// comes exactly where the bytes are no image of a pool or an arena is not sound: it names the first defect of the bytes,
/// else that of the lowest such arena. Either yields to want of memory.
pub fn check_pool(alloc: Global, words: &[u64], bytes: u64) -> Result<Vec<u8>, ImageFault>
    requires { AreWords words.now bytes }
    ensures checked { IfOk result (λ text. (image : List ℕ) → AreWordsOf words.now bytes image → IsChecked image text.items) }
    ensures defect { IfErr result (λ fault. (image : List ℕ) → AreWordsOf words.now bytes image → IfDefect fault (IsPoolDefect image)) }
{
    let header = pool_header(words, bytes)?;
    match check_arenas(alloc, words, &header) {
        Ok(text) => Ok(text),
        Err(fault) => Err(fault),
    }
}

// The lines of all arenas, or the first that is not sound.
fn check_arenas(alloc: Global, words: &[u64], header: &PoolHeader) -> Result<Vec<u8>, ImageFault>
    requires { length words.now ≡ header.now.arenas * header.now.granules * 2048 }
    ensures lines { IfOk result (λ text. HasLines words.now header.now.granules header.now.arenas text.items) }
    ensures unsound { IfErr result (λ fault. IfDefect fault (HasUnsoundFrom words.now header.now 0)) }
{
    let mut text = Vec::new(alloc);
    for arena in 0..header.arenas {
        match check_one(alloc, parts(header, words, arena), arena, &mut text) {
            Ok(()) => {}
            Err(fault) => return Err(fault),
        }
    }
    Ok(text)
}

// The line of one arena, behind what stands in a text.
fn check_one(alloc: Global, words: &[u64], arena: u32, text: &mut Vec<u8>) -> Result<(), ImageFault>
    ensures line { OnOk result (AddsLine words.now arena text.old.items text.new.items) }
    ensures defect { IfErr result (λ fault. IfDefect fault (IsOwnDefect words.now arena)) }
{
    let summary = match check_arena(alloc, words) {
        Ok(summary) => summary,
        Err(CheckFault::Memory(error)) => return Err(ImageFault::Memory(error)),
        Err(CheckFault::Defect(defect)) => return Err(ImageFault::Defect { arena, defect }),
    };
    let written = write_summary(
        text,
        arena,
        summary.large,
        summary.slabs,
        summary.blocks,
        summary.loose,
    );
    match written {
        Ok(()) => Ok(()),
        Err(error) => Err(ImageFault::Memory(error)),
    }
}
