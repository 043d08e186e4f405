// What `map`, `text` and `info` have to say of their input.
ghost use Rattle.std.specs.Prelude.{◌≡◌, ◌≤◌, ℕ, List, ◌++◌, IfOk, IfErr, OnOk};
ghost use Rattle.pool_layout.specs.Image.{AreWordsOf, AreWords, IfDefect};
ghost use Rattle.map_text.specs.Drawing.{legend_line};
ghost use Rattle.map_text.specs.Maps.{IsWritable};
ghost use Rattle.map_svg.specs.Page.{head, end_of_page};
ghost use Rattle.map_text.specs.Pieces.{Adds};
ghost use Rattle.nvpool.specs.Rules.{ArePoolWords};
ghost use Rattle.nvpool.specs.Telling.{AreTold, IsTold, IsToldAs, HasUnsound, IsPoolDefect, IsOwnDefect, front_of, back_of, told_text, telling_by, telling};
ghost use Rattle.nvpool.specs.Ends.{IsAnswer};

use crate::answer::fault_line;
use crate::cause::Cause;
use crate::variant::{Gc, Log, Variant};
use heap_map::HeapMap;
use image_check::CheckFault;
use map_svg::{arena_y, write_end, write_head, write_picture};
use map_text::{write_info, write_legend, write_text};
use pmem_lines::OutOfMemory;
use pool_layout::{ImageFault, PoolHeader, has_gc_text, parts};
use program_io::Answer;
use std::alloc::Global;
use trace_text::write_bytes;

/// How much is told of each arena.
#[derive(Clone, Copy)]
pub(crate) enum Form {
    /// Its numbers.
    Numbers,
    /// A letter for each of its granules, and its numbers.
    Letters,
    /// A box for each of its granules, and its numbers, in a page of SVG.
    Picture,
}

/// What is told of each arena of the image of a pool, or the line of its first defect. Its text says which variant it is judged as.
pub(crate) fn told_answer(
    alloc: Global,
    form: Form,
    words: &[u64],
    bytes: u64,
) -> Result<Answer, OutOfMemory>
    requires { AreWords words.now bytes }
    ensures { IfOk result (λ answer. (image : List ℕ) → AreWordsOf words.now bytes image → IsAnswer (telling form) image answer) }
{
    if has_gc_text(words) {
        told_by::<Gc>(alloc, form, words, bytes)
    } else {
        told_by::<Log>(alloc, form, words, bytes)
    }
}

// The same of an image of one variant.
fn told_by<V: Variant>(
    alloc: Global,
    form: Form,
    words: &[u64],
    bytes: u64,
) -> Result<Answer, OutOfMemory>
    requires { AreWords words.now bytes }
    ensures { IfOk result (λ answer. (image : List ℕ) → AreWordsOf words.now bytes image → IsAnswer (telling_by V.rules form) image answer) }
{
    match tell_pool::<V>(alloc, form, words, bytes) {
        Ok(text) => Ok(Answer::Output(text)),
        Err(ImageFault::Defect { arena, defect }) => fault_line(
            alloc,
            Cause::Image { arena, defect },
        ),
        Err(ImageFault::Memory(fault)) => Err(fault),
    }
}

// What is told of each arena of a pool, of which these are the words, and which has so many bytes. `Defect` names the first
// defect of the bytes, else that of the lowest arena that is not sound.
fn tell_pool<V: Variant>(
    alloc: Global,
    form: Form,
    words: &[u64],
    bytes: u64,
) -> Result<Vec<u8>, ImageFault>
    requires { AreWords words.now bytes }
    ensures told { IfOk result (λ text. (image : List ℕ) → AreWordsOf words.now bytes image → IsTold V.rules form image text.items) }
    ensures defect { IfErr result (λ fault. (image : List ℕ) → AreWordsOf words.now bytes image → IfDefect fault (IsPoolDefect V.rules image)) }
{
    let header = V::header(words, bytes)?;
    let mut text = match tell_arenas::<V>(alloc, form, words, &header) {
        Ok(text) => text,
        Err(fault) => return Err(fault),
    };
    match write_back(form, &mut text) {
        Ok(()) => Ok(text),
        Err(error) => Err(ImageFault::Memory(error)),
    }
}

// Writes what stands behind the arenas.
fn write_back(form: Form, text: &mut Vec<u8>) -> Result<(), OutOfMemory>
    ensures { OnOk result (text.new.items ≡ text.old.items ++ back_of form) }
{
    match form {
        Form::Numbers => write_bytes(text, b""),
        Form::Letters => write_bytes(text, b""),
        Form::Picture => write_end(text),
    }
}

// What stands before the arenas.
fn front_of(alloc: Global, form: Form, header: &PoolHeader) -> Result<Vec<u8>, OutOfMemory>
    requires arenas { header.now.arenas ≤ 16 }
    requires granules { header.now.granules ≤ 4096 }
    ensures { IfOk result (λ text. text.items ≡ front_of form header.now) }
{
    match form {
        Form::Numbers => Ok(Vec::new(alloc)),
        Form::Letters => legend(alloc),
        Form::Picture => head_of(alloc, header.arenas, header.granules),
    }
}

// The head of a page for so many arenas of so many granules each.
fn head_of(alloc: Global, arenas: u32, granules: u32) -> Result<Vec<u8>, OutOfMemory>
    requires arenas { arenas ≤ 16 }
    requires granules { granules ≤ 4096 }
    ensures { IfOk result (λ text. text.items ≡ head arenas granules) }
{
    let mut text = Vec::new(alloc);
    write_head(&mut text, arenas, granules)?;
    Ok(text)
}

// The line that says what the letters are.
fn legend(alloc: Global) -> Result<Vec<u8>, OutOfMemory>
    ensures { IfOk result (λ text. text.items ≡ legend_line) }
{
    let mut text = Vec::new(alloc);
    write_legend(&mut text)?;
    Ok(text)
}

// What is told of all arenas, or the first that is not sound.
fn tell_arenas<V: Variant>(
    alloc: Global,
    form: Form,
    words: &[u64],
    header: &PoolHeader,
) -> Result<Vec<u8>, ImageFault>
    requires { ArePoolWords words.now header.now }
    ensures told { IfOk result (λ text. Adds (AreTold V.rules.maps form words.now header.now header.now.arenas) (front_of form header.now) text.items) }
    ensures unsound { IfErr result (λ fault. IfDefect fault (HasUnsound V.rules words.now header.now)) }
{
    let mut text = match front_of(alloc, form, header) {
        Ok(text) => text,
        Err(error) => return Err(ImageFault::Memory(error)),
    };
    for arena in 0..header.arenas {
        let own = parts(header, words, arena);
        match tell_one::<V>(alloc, form, header, own, arena, &mut text) {
            Ok(()) => {}
            Err(fault) => return Err(fault),
        }
    }
    Ok(text)
}

// What is told of one arena, behind what stands in a text.
fn tell_one<V: Variant>(
    alloc: Global,
    form: Form,
    header: &PoolHeader,
    words: &[u64],
    arena: u32,
    text: &mut Vec<u8>,
) -> Result<(), ImageFault>
    requires arena { arena ≤ 16 }
    requires granules { header.now.granules ≤ 4096 }
    ensures sound { OnOk result (V.rules.maps.IsSound words.now) }
    ensures told { OnOk result (Adds (IsToldAs V.rules.maps form header.now words.now arena) text.old.items text.new.items) }
    ensures defect { IfErr result (λ fault. IfDefect fault (IsOwnDefect V.rules words.now arena)) }
{
    let map = match V::map(alloc, words) {
        Ok(map) => map,
        Err(CheckFault::Memory(error)) => return Err(ImageFault::Memory(error)),
        Err(CheckFault::Defect(defect)) => return Err(ImageFault::Defect { arena, defect }),
    };
    match write_map(form, header, arena, &map, text) {
        Ok(()) => Ok(()),
        Err(error) => Err(ImageFault::Memory(error)),
    }
}

// Writes what is told of an arena, by its map.
fn write_map(
    form: Form,
    header: &PoolHeader,
    arena: u32,
    map: &HeapMap,
    text: &mut Vec<u8>,
) -> Result<(), OutOfMemory>
    requires map { IsWritable map.now }
    requires arena { arena ≤ 16 }
    requires granules { header.now.granules ≤ 4096 }
    ensures { OnOk result (text.new.items ≡ text.old.items ++ told_text form header.now arena map.now) }
{
    match form {
        Form::Numbers => write_info(text, arena, map),
        Form::Letters => write_text(text, arena, map),
        Form::Picture => write_picture(text, arena, arena_y(header.granules, arena), map),
    }
}
