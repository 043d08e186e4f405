// Arenas of 1024 granules with all slabs and all roots that there may be, and what is wrong at the very end of a search.
ghost use Rattle.std.specs.Prelude.{◌<◌};

use crate::answers::{answer_of, bad_slab, shared, stray_root};
use crate::values::same;
use check_tests::{Put, blank, put, put_entry, set};
use pmem_lines::OutOfMemory;
use std::alloc::Global;
use std::test::Fail;

// The header line of the only arena, of 1024 granules, and a directory of three chunks.
const LARGEST: [Put; 3] = [
    (0, 3544406880241669710),
    (1, 0x0001_0400_0000_0001),
    (2, 0x0003_0201),
];

// How many slabs the heap may have. Slab k begins at granule 4 + 4k.
const SLABS: u64 = 255;

// Has a root hold a block of 16 bytes of a slab, by its number.
fn hold(words: &mut [u64], root: u64, slab: u64, block: u64)
    requires root { root < 4096 }
    requires slab { slab < 255 }
    requires block { block < 3968 }
{
    set(
        words,
        2048 + root,
        65536 * (1 + slab) + 2048 + 16 * block + (1 << 32),
    );
}

// All slabs, of class 0, of which root k holds a block of slab k modulo 255, each its own.
fn full_arena(alloc: Global) -> Result<Vec<u64>, OutOfMemory> {
    let mut words = blank(alloc, 2_097_152)?;
    put(&mut words, &LARGEST);
    for slab in 0..SLABS {
        put_entry(&mut words, slab, 2 + 256 * (4 + 4 * slab));
        set(&mut words, 8192 * (1 + slab), 1);
    }
    for root in 0..4096 {
        hold(&mut words, root, root % SLABS, 4095 / SLABS - root / SLABS);
    }
    Ok(words)
}

// Root 4095 has the block of root 4094, then names the bytes behind the last block, and then the last slab has another kind.
#[test]
fn the_last_of_all(rt: HostRuntime) -> Result<(), Fail> {
    let mut words = full_arena(rt.alloc())?;
    same(&rt, &answer_of(rt.alloc(), &words)?, &None);
    put(&mut words, &[(6143, 4295952384)]);
    same(&rt, &answer_of(rt.alloc(), &words)?, &shared(4094, 4095));
    put(&mut words, &[(6143, 0x0001_0100_0000)]);
    same(
        &rt,
        &answer_of(rt.alloc(), &words)?,
        &stray_root(4095, 0x0001_0100_0000),
    );
    put(&mut words, &[(8192 * 255, 2)]);
    same(&rt, &answer_of(rt.alloc(), &words)?, &bad_slab(1020, 2));
    Ok(())
}
