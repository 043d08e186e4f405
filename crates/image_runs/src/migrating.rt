// The migration of a pool.
ghost use Rattle.std.specs.Prelude.{◌≡◌, ◌≤◌, length, IfOk, IfErr, OnOk, Err, []};
ghost use Rattle.pool_layout.specs.Image.{IsPoolImage};
ghost use Rattle.image_runs.specs.declared.migrating.PoolMigrateFault.TheVariants as faults;
ghost use Rattle.image_runs.specs.Migrations.{pool_fault, HasMigrations, IsPoolMigrated, IsWhyNot, IsOwnWhyNot, AddsMigration};

use crate::bytes::{add_bytes, new_piece};
use image_raise::rise;
use pmem_lines::OutOfMemory;
use pool_layout::{Defect, GRANULE_BYTES, PoolHeader, parts};
use pool_migrate::{MigrateFault, migrate_arena};
use std::alloc::Global;

/// Why a pool is not migrated.
#[derive(Debug, Drop)]
pub enum PoolMigrateFault {
    /// There was no memory.
    Memory(OutOfMemory),
    /// It has this version, which is not the first.
    Newer { version: u32 },
    /// This is the first defect of the lowest arena that is not sound, and the arena's number.
    Defect { arena: u32, defect: Defect },
}

impl From<OutOfMemory> for PoolMigrateFault {
    ghost from_gives = { λ error fault. fault ≡ faults.Memory error };

    fn from(error: OutOfMemory) -> Self {
        PoolMigrateFault::Memory(error)
    }
}

/// The bytes of a pool of version 2 that has what the pool of these words has, which is of version 1: those of one migration
/// of each arena, in order. `Newer` comes exactly where the pool is of a later version, before any memory is asked; `Defect`
/// exactly where it is of version 1 and an arena is not sound, and it yields to want of memory. Beside words and bytes it
/// takes what the migration of one arena does, for one at a time.
pub fn migrate_pool(
    alloc: Global,
    header: &PoolHeader,
    words: &[u64],
) -> Result<Vec<u8>, PoolMigrateFault>
    requires { IsPoolImage words.now header.now }
    ensures migrated { IfOk result (λ bytes. IsPoolMigrated words.now header.now bytes.items) }
    ensures newer { 2 ≤ header.now.version → result ≡ Err (faults.Newer header.now.version) }
    ensures refused { IfErr result (IsWhyNot words.now header.now) }
{
    if header.version != 1 {
        return Err(PoolMigrateFault::Newer {
            version: header.version,
        });
    }
    let mut bytes = room_for(alloc, header)?;
    let mut piece = new_piece(alloc)?;
    for arena in 0..header.arenas {
        let own = parts(header, words, arena);
        match add_migration(alloc, own, arena, &mut bytes, &mut piece) {
            Ok(()) => {}
            Err(fault) => return Err(fault),
        }
    }
    Ok(bytes)
}

// Room for the bytes of the migration of a pool of version 1.
fn room_for(alloc: Global, header: &PoolHeader) -> Result<Vec<u8>, OutOfMemory>
    requires arenas { header.now.arenas ≤ 16 }
    requires granules { header.now.granules ≤ 4096 }
    ensures { IfOk result (λ bytes. bytes.items ≡ []) }
{
    let granules = (header.granules + rise()) as usize;
    let bytes = Vec::with_capacity(
        alloc,
        header.arenas as usize * granules * GRANULE_BYTES as usize,
    )?;
    Ok(bytes)
}

// Migrates an arena, and adds the bytes of its new words behind others.
fn add_migration(
    alloc: Global,
    words: &[u64],
    arena: u32,
    bytes: &mut Vec<u8>,
    piece: &mut [u8],
) -> Result<(), PoolMigrateFault>
    requires { length piece.old ≡ 4096 }
    ensures added { OnOk result (AddsMigration words.now bytes.old.items bytes.new.items) }
    ensures piece { length piece.new ≡ 4096 }
    ensures refused { IfErr result (IsOwnWhyNot words.now arena) }
{
    let new = match migrate_arena(alloc, words) {
        Ok(new) => new,
        Err(fault) => return Err(pool_fault(arena, fault)),
    };
    add_bytes(bytes, &new, piece)?;
    Ok(())
}

// The fault of an arena's migration, as one of its pool.
fn pool_fault(arena: u32, fault: MigrateFault) -> PoolMigrateFault
    ensures { result ≡ pool_fault arena fault }
{
    match fault {
        MigrateFault::Memory(error) => PoolMigrateFault::Memory(error),
        MigrateFault::Newer { version } => PoolMigrateFault::Newer { version },
        MigrateFault::Defect(defect) => PoolMigrateFault::Defect { arena, defect },
    }
}
