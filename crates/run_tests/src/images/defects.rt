// Images with a defect, which `check` and `recover` refuse with one and the same line.
use crate::images::{ONE_BLOCK, all_tell_of};
use std::test::Fail;
use worked_runs::IN_TRANSITION;

const OF_ONE_BLOCK: &str = "version 3 | 8: 3 | arena 0 bad header 1 281543696187395
chunk 16 in the directory | 16: 17 | arena 0 bad directory 17
an entry of no kind | 49216: 0 | arena 0 bad entry 0 0 1024
a large extent that begins in the slab | 49280: 1 6 0 2 | arena 0 overlap 4 6
a slab of no state | 65536: 9 | arena 0 bad slab 4 1545
a write-ahead word that is not open | 512: 2 | arena 0 bad wal 0 2
a root that names an address within a block | 16432: 16 8 1 | arena 0 stray root 6 67600
two roots with one block | 16432: 0 8 1 | arena 0 shared block 5 6
a bit of a block that no root has | 65664: 1 | arena 0 stray bit 67696
two large extents that no root names | 49280: 1 8 0 2, 49344: 1 10 0 2 | arena 0 too many loose 2 0 0 0
a move from a root that holds nothing to one that holds nothing | 16424: 0 0 0, 512: 5 0 5 0 9 0 0 0 | arena 0 bad wal 0 38655033349
a move between roots with two addresses | 16456: 16 8 1, 512: 5 0 5 0 9 0 0 0 | arena 0 bad wal 0 38655033349
";

// Of several pairs the one with the lowest first root is named, and of those the one with the lowest second, whatever
// the addresses are. Block 1 of the slab is at 67696. The block of an open entry counts as that of its root, which may
// hold nothing.
const SHARED: &str =
    "the block of an open entry of root 5, which root 6 has | 512: 1 0 5 0 0 8 1 0, 16424: 0 0 0, 16432: 0 8 1 | arena 0 shared block 5 6
block 0 of roots 5 and 6, and block 1 of roots 2 and 9 | 16432: 0 8 1, 65664: 1, 16400: 112 8 1, 16456: 112 8 1 | arena 0 shared block 2 9
block 0 of roots 5 and 6, and block 1 of roots 2, 7 and 9 | 16432: 0 8 1, 65664: 1, 16400: 112 8 1, 16440: 112 8 1, 16456: 112 8 1 | arena 0 shared block 2 7
";

// Blocks 17 and 18 of class 3 are at 199744 and 199808. Both lie within block 1 of class 19, which begins at 199680 and
// has 1024 bytes.
const SHARED_IN_TRANSITION: &str =
    "root 1's old block within root 2's block | 197186: 17, 16392: 64 12 3 | arena 0 shared block 1 2
old blocks of roots 7 and 4, in this order, within root 2's block | 196611: 2, 197186: 17, 197248: 1 0 18, 16392: 0 0 0, 16416: 128 12 3, 16440: 64 12 3 | arena 0 shared block 2 4
";

// A second slab stands at granule 8, and no root holds a block: both slabs are empty. In Morphing and once it is over
// they have one index entry, which is dead.
const LOOSE: &str =
    "two empty slabs | 16424: 0 0 0, 49280: 2 8, 65600: 0, 131072: 1 6 | arena 0 too many loose 0 2 0 0
two slabs in Morphing | 16424: 0 0 0, 49280: 2 8, 65536: 2 6 3 1, 65600: 0, 131072: 2 6 3 1 | arena 0 too many loose 0 2 2 0
two slabs that took another class, without an old block | 16424: 0 0 0, 49280: 2 8, 65536: 3 6 3 1, 65600: 0, 131072: 3 6 3 1 | arena 0 too many loose 0 2 0 2
";

#[test]
fn defects(rt: HostRuntime) -> Result<(), Fail> {
    for table in [OF_ONE_BLOCK, SHARED, LOOSE] {
        all_tell_of(&rt, rt.alloc(), 262144, &ONE_BLOCK, table)?;
    }
    all_tell_of(
        &rt,
        rt.alloc(),
        262144,
        &IN_TRANSITION,
        SHARED_IN_TRANSITION,
    )
}
