// An arena of version 1 becomes one of version 2.
ghost use Rattle.std.specs.Prelude.{◌≡◌, ◌≤◌, ℕ, IfOk, IfErr, OnOk, Err};
ghost use Rattle.pmem_lines.specs.Pmem.{words_of};
ghost use Rattle.pool_layout.specs.Header.{version_in, granules_in, IsHeader};
ghost use Rattle.heap_check.specs.Image.{IsSoundImage};
ghost use Rattle.pool_migrate.specs.declared.fault.MigrateFault.TheVariants as faults;
ghost use Rattle.pool_migrate.specs.Faults.{IsCause};
ghost use Rattle.pool_migrate.specs.Migrated.{HasVersion, IsMigrated, IsMadeExact};

use crate::MigrateFault;
use crate::fault::of_check;
use book_log::BookLog;
use image_check::check_arena;
use image_raise::raised_words;
use pmem_lines::{OutOfMemory, Pmem, SimPmem};
use pool_layout::{PoolHeader, header_of, layout_of};
use recovery_steps::{RootNames, all_words, make_exact};
use std::alloc::Global;

/// Migrates the words of an arena of version 1: the new words are an exact image of version 2, with nine granules more, and
/// have the heap of the old ones nine granules higher, 147456 bytes, with the words of its blocks. `Newer` comes exactly where
/// the header line is good and of a later version, before any memory is asked; `Defect` exactly where it does not and the words
/// are not a sound image, and it yields to want of memory. Beside the words and the new ones it takes a device of the words
/// and what recovery reads of them.
pub fn migrate_arena(alloc: Global, words: &[u64]) -> Result<Vec<u64>, MigrateFault>
    ensures sound { OnOk result (IsSoundImage words.now) }
    ensures migrated { IfOk result (λ new. IsMigrated words.now new.items) }
    ensures newer { (version : ℕ) → 2 ≤ version → HasVersion words.now version → result ≡ Err (faults.Newer version) }
    ensures refused { IfErr result (IsCause words.now) }
{
    let header = match header_of(words) {
        Ok(header) => header,
        Err(defect) => return Err(MigrateFault::Defect(defect)),
    };
    if header.version != 1 {
        return Err(MigrateFault::Newer {
            version: header.version,
        });
    }
    migrate_first(alloc, words, &header)
}

// Migrates the words of an arena with this header, of version 1.
fn migrate_first(
    alloc: Global,
    words: &[u64],
    header: &PoolHeader,
) -> Result<Vec<u64>, MigrateFault>
    requires header { IsHeader words.now header.now }
    requires version { header.now.version ≡ 1 }
    ensures sound { OnOk result (IsSoundImage words.now) }
    ensures migrated { IfOk result (λ new. IsMigrated words.now new.items) }
    ensures refused { IfErr result (IsCause words.now) }
{
    match check_arena(alloc, words) {
        Ok(_) => {}
        Err(fault) => return Err(of_check(fault)),
    }
    let device = exact_device(alloc, words, header.granules)?;
    let new = raised_words(alloc, all_words(&device), header)?;
    Ok(new)
}

// A device of the words of a sound arena of version 1, made exact as by its recovery.
fn exact_device(alloc: Global, words: &[u64], granules: u32) -> Result<SimPmem, OutOfMemory>
    requires image { IsSoundImage words.now }
    requires version { version_in words.now ≡ 1 }
    requires granules { granules ≡ granules_in words.now }
    ensures { IfOk result (λ device. IsMadeExact words.now (words_of device)) }
{
    let mut log = BookLog::new(alloc, granules)?;
    log.load_words(words);
    let names = RootNames::new(alloc, words, granules)?;
    let mut device = SimPmem::from_image(alloc, words, layout_of(1).room)?;
    device.begin();
    make_exact(&mut device, &mut log, &names);
    Ok(device)
}
