// What `repair` has to say of its input.
ghost use Rattle.std.specs.Prelude.{◌≡◌, ◌≤◌, ◌%◌, ℕ, List, length, IfOk, IfErr, OnOk};
ghost use Rattle.pool_layout.specs.Image.{AreWordsOf, AreWords, IfDefect};
ghost use Rattle.image_runs.specs.Repairs.{AddsPart};
ghost use Rattle.nvpool.specs.Rules.{ArePoolWords};
ghost use Rattle.nvpool.specs.Telling.{HasUnsound, IsPoolDefect, IsOwnDefect};
ghost use Rattle.nvpool.specs.Repairing.{AnswersRepair, ArePartsRepaired, KeepsImages, repairing_by, repairing};
ghost use Rattle.nvpool.specs.Ends.{IsAnswer};

use crate::answer::fault_line;
use crate::cause::Cause;
use crate::variant::{Gc, Log, Variant};
use image_check::CheckFault;
use image_runs::{add_bytes, are_whole_words, pool_buffers};
use pmem_lines::{OutOfMemory, SimPmem};
use pool_layout::{ImageFault, PoolHeader, has_gc_text, parts};
use program_io::Answer;
use recovery_steps::all_words;
use std::alloc::Global;

// How many events a device has room for: as many as a recovery of an arena of either variant needs.
const ROOM: u32 = 4096;

/// The bytes of the image of a pool, of which these are the words, and which has so many bytes, with each of its arenas
/// recovered; or the line of its first defect. Its text says which variant it is judged as.
pub(crate) fn repair_answer(alloc: Global, words: &[u64], bytes: u64) -> Result<Answer, OutOfMemory>
    requires { AreWords words.now bytes }
    ensures { IfOk result (λ answer. (image : List ℕ) → AreWordsOf words.now bytes image → IsAnswer repairing image answer) }
{
    if has_gc_text(words) {
        repair_by::<Gc>(alloc, words, bytes)
    } else {
        repair_by::<Log>(alloc, words, bytes)
    }
}

// The same of an image of one variant.
fn repair_by<V: Variant>(alloc: Global, words: &[u64], bytes: u64) -> Result<Answer, OutOfMemory>
    requires words { AreWords words.now bytes }
    requires keeps { KeepsImages V.rules }
    ensures { IfOk result (λ answer. (image : List ℕ) → AreWordsOf words.now bytes image → IsAnswer (repairing_by V.rules) image answer) }
{
    match repair_pool::<V>(alloc, words, bytes) {
        Ok(image) => Ok(Answer::Output(image)),
        Err(ImageFault::Defect { arena, defect }) => fault_line(
            alloc,
            Cause::Image { arena, defect },
        ),
        Err(ImageFault::Memory(fault)) => Err(fault),
    }
}

// The bytes of the repaired pool. `Defect` names the first defect of the bytes, else that of the lowest arena that is not sound.
fn repair_pool<V: Variant>(alloc: Global, words: &[u64], bytes: u64) -> Result<Vec<u8>, ImageFault>
    requires words { AreWords words.now bytes }
    requires keeps { KeepsImages V.rules }
    ensures repaired { IfOk result (λ new. (image : List ℕ) → AreWordsOf words.now bytes image → AnswersRepair V.rules image new.items) }
    ensures defect { IfErr result (λ fault. (image : List ℕ) → AreWordsOf words.now bytes image → IfDefect fault (IsPoolDefect V.rules image)) }
{
    let header = V::header(words, bytes)?;
    repair_arenas::<V>(alloc, &header, words)
}

// The bytes of all arenas, each recovered, or the first that is not sound.
fn repair_arenas<V: Variant>(
    alloc: Global,
    header: &PoolHeader,
    words: &[u64],
) -> Result<Vec<u8>, ImageFault>
    requires { ArePoolWords words.now header.now }
    ensures repaired { IfOk result (λ bytes. ArePartsRepaired V.rules words.now header.now bytes.items) }
    ensures unsound { IfErr result (λ fault. IfDefect fault (HasUnsound V.rules words.now header.now)) }
{
    let (mut bytes, mut piece) = match pool_buffers(alloc, header) {
        Ok(buffers) => buffers,
        Err(error) => return Err(ImageFault::Memory(error)),
    };
    for arena in 0..header.arenas {
        let own = parts(header, words, arena);
        match add_repair::<V>(alloc, own, arena, &mut bytes, &mut piece) {
            Ok(()) => {}
            Err(fault) => return Err(fault),
        }
    }
    Ok(bytes)
}

// Recovers an arena, and adds the bytes of its new words behind others.
fn add_repair<V: Variant>(
    alloc: Global,
    words: &[u64],
    arena: u32,
    bytes: &mut Vec<u8>,
    piece: &mut [u8],
) -> Result<(), ImageFault>
    requires whole { length words.now % 512 ≡ 0 }
    requires some { 8 ≤ length words.now }
    requires few { length words.now ≤ 8388608 }
    requires piece { length piece.old ≡ 4096 }
    ensures added { OnOk result (AddsPart V.rules.IsRepaired words.now bytes.old.items bytes.new.items) }
    ensures piece { length piece.new ≡ 4096 }
    ensures defect { IfErr result (λ fault. IfDefect fault (IsOwnDefect V.rules words.now arena)) }
{
    let device = match SimPmem::from_image(alloc, words, ROOM) {
        Ok(device) => device,
        Err(error) => return Err(ImageFault::Memory(error)),
    };
    let done = match V::repaired(alloc, device) {
        Ok(done) => done,
        Err(CheckFault::Memory(error)) => return Err(ImageFault::Memory(error)),
        Err(CheckFault::Defect(defect)) => return Err(ImageFault::Defect { arena, defect }),
    };
    let new = all_words(&done);
    are_whole_words(new);
    match add_bytes(bytes, new, piece) {
        Ok(()) => Ok(()),
        Err(error) => Err(ImageFault::Memory(error)),
    }
}
