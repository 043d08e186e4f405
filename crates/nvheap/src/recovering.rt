// What `recover` has to say of its input, and the devices that it leaves.
ghost use Rattle.std.specs.Prelude.{◌≡◌, ◌≤◌, ◌-◌, ◌++◌, ℕ, List, IfOk, IfErr, OnOk, OnErr};
ghost use Rattle.pmem_lines.specs.Pmem.{risen};
ghost use Rattle.pool_layout.specs.Image.{AreWordsOf, AreWords, IsPoolImage, IfDefect};
ghost use Rattle.image_runs.specs.Checks.{HasUnsoundFrom, IsPoolDefect};
ghost use Rattle.image_runs.specs.Recoveries.{heaps_from};
ghost use Rattle.nvheap.specs.Recovering.{AnswersRecover, HasRecovered, MakesAll, recovering};
ghost use Rattle.nvheap.specs.Ends.{IsAnswer, CountsImages};

use crate::answers::fault_line;
use crate::cause::Cause;
use crate::shelf::Shelf;
use image_runs::recover_arena;
use pmem_lines::OutOfMemory;
use pool_layout::{ImageFault, PoolHeader, layout_of, parts, pool_header};
use program_io::Answer;
use std::alloc::Global;

/// The heap of each arena of a pool's image. Each is recovered on a device of the shelf, which is put into the place of the
/// arena's number once all are.
pub(crate) fn recover_answer<H: Shelf>(
    alloc: Global,
    words: &[u64],
    bytes: u64,
    shelf: &mut H,
) -> Result<Answer, OutOfMemory>
    requires { AreWords words.now bytes }
    ensures answer { IfOk result (λ answer. (image : List ℕ) → AreWordsOf words.now bytes image → IsAnswer recovering image (H.places shelf.old) (H.places shelf.new) answer) }
    ensures counts { IfOk result (λ answer. (image : List ℕ) → AreWordsOf words.now bytes image → CountsImages recovering image (H.images shelf.old) (H.images shelf.new) answer) }
    ensures kept { OnErr result (H.places shelf.new ≡ H.places shelf.old) }
{
    match recover_pool(alloc, words, bytes, shelf) {
        Ok(text) => Ok(Answer::Output(text)),
        Err(ImageFault::Defect { arena, defect }) => fault_line(
            alloc,
            Cause::Image { arena, defect },
        ),
        Err(ImageFault::Memory(fault)) => Err(fault),
    }
}

// The text of it, or the first defect.
fn recover_pool<H: Shelf>(
    alloc: Global,
    words: &[u64],
    bytes: u64,
    shelf: &mut H,
) -> Result<Vec<u8>, ImageFault>
    requires { AreWords words.now bytes }
    ensures answer { IfOk result (λ text. (image : List ℕ) → AreWordsOf words.now bytes image → AnswersRecover image text.items (H.places shelf.old) (H.places shelf.new)) }
    ensures images { OnOk result ((image : List ℕ) → AreWordsOf words.now bytes image → MakesAll image (H.images shelf.old) (H.images shelf.new)) }
    ensures kept { OnErr result (H.places shelf.new ≡ H.places shelf.old) }
    ensures defect { IfErr result (λ fault. (image : List ℕ) → AreWordsOf words.now bytes image → IfDefect fault (IsPoolDefect image)) }
{
    let header = match pool_header(words, bytes) {
        Ok(header) => header,
        Err(found) => return Err(ImageFault::Defect {
            arena: found.arena,
            defect: found.defect,
        }),
    };
    let mut text = Vec::new(alloc);
    match recover_from(alloc, words, &header, 0, &mut text, shelf) {
        Ok(()) => Ok(text),
        Err(fault) => Err(fault),
    }
}

// Recovers the arenas of a pool from one on, and writes their heaps behind what stands in a text. The devices are put once
// all of them are recovered.
fn recover_from<H: Shelf>(
    alloc: Global,
    words: &[u64],
    header: &PoolHeader,
    arena: u32,
    text: &mut Vec<u8>,
    shelf: &mut H,
) -> Result<(), ImageFault>
    requires pool { IsPoolImage words.now header.now }
    requires inside { arena ≤ header.now.arenas }
    ensures text { OnOk result (text.new.items ≡ text.old.items ++ heaps_from words.now header.now.granules arena (header.now.arenas - arena)) }
    ensures recovered { OnOk result (HasRecovered words.now header.now.granules arena (header.now.arenas - arena) (H.places shelf.old) (H.places shelf.new)) }
    ensures images { OnOk result (H.images shelf.new ≡ risen (H.images shelf.old) (header.now.arenas - arena)) }
    ensures kept { OnErr result (H.places shelf.new ≡ H.places shelf.old) }
    ensures unsound { IfErr result (λ fault. IfDefect fault (HasUnsoundFrom words.now header.now arena)) }
{
    if arena == header.arenas {
        return Ok(());
    }
    let device = match shelf.take_image(
        alloc,
        parts(header, words, arena),
        layout_of(header.version).room,
    ) {
        Ok(device) => device,
        Err(error) => return Err(ImageFault::Memory(error)),
    };
    let device = match recover_arena(alloc, device, arena, text) {
        Ok(device) => device,
        Err(fault) => return Err(fault),
    };
    match recover_from(alloc, words, header, arena + 1, text, shelf) {
        Ok(()) => {}
        Err(fault) => return Err(fault),
    }
    shelf.put(arena, device);
    Ok(())
}
