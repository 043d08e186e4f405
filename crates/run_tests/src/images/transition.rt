// Images of a slab in transition: each is the image of a slab that took another class while an old block lives, with a
// change. The lines are read off what such a slab holds, what an open entry must be, and the order of the defects.
use crate::images::all_tell_of;
use std::test::Fail;
use worked_runs::IN_TRANSITION;

const ROWS: &str =
    "none | none | arena 0 large 1 slabs 1 blocks 3 loose 0 | 0 65536 131072, 1 198656 64, 2 199680 1024
the slab is in Morphing, and root 2 holds nothing | 196608: 2, 16400: 0 0 0 0 0 0 0 0 | arena 0 large 1 slabs 1 blocks 2 loose 1 | 0 65536 131072, 1 198656 64
the slab is in Morphing, and root 2 names a bit that does not count | 196608: 2 | arena 0 stray root 2 199680
no old block lives | 197184: 0, 16392: 0 0 0 0 0 0 0 0 | arena 0 large 1 slabs 1 blocks 2 loose 1 | 0 65536 131072, 2 199680 1024
the old block is coming or going: its live bit is set, and root 1 holds nothing | 16392: 0 0 0 0 0 0 0 0, 512: 3 0 1 0 0 8 3 0 | arena 0 large 1 slabs 1 blocks 2 loose 2 | 0 65536 131072, 2 199680 1024
the old block is coming or going: neither bit nor root is set | 16392: 0 0 0 0 0 0 0 0, 512: 3 0 1 0 0 8 3 0, 197184: 0 | arena 0 large 1 slabs 1 blocks 2 loose 2 | 0 65536 131072, 2 199680 1024
the old block is coming or going: its live bit is clear, and root 1 holds it | 512: 3 0 1 0 0 8 3 0, 197184: 0 | arena 0 large 1 slabs 1 blocks 3 loose 2 | 0 65536 131072, 1 198656 64, 2 199680 1024
an open entry of root 3 for block 0 of class 19, which the old block overlaps | 512: 1 0 3 0 0 8 3 0 | arena 0 shared block 1 3
the bit of block 0 of class 19, at root 1's address and of another size | 196672: 1 | arena 0 stray bit 198656
the slab took another class, and has no index entry | 196611: 0 | arena 0 bad slab 12 201475
the old class is the class | 196610: 19 | arena 0 bad slab 12 18027267
the old block is number 992 of a class with so many | 197186: 224 3 | arena 0 bad slab 12 65011713
an open entry for place 1 of an index table with one entry | 16392: 0 0 0 0 0 0 0 0, 512: 3 1 1 0 0 8 3 0 | arena 0 bad wal 0 853221023219971
an open entry beside a slab in Morphing | 196608: 2, 16400: 0 0 0 0 0 0 0 0, 512: 1 0 3 0 0 12 3 0 | arena 0 bad wal 0 857619069861889
the old block moves from root 1 to root 3, and both have its address | 16408: 0 8 3 0 0 0 0 0, 512: 5 0 1 0 3 0 0 0 | arena 0 large 1 slabs 1 blocks 3 loose 1 | 0 65536 131072, 2 199680 1024, 3 198656 64
";

#[test]
fn slabs_in_transition(rt: HostRuntime) -> Result<(), Fail> {
    all_tell_of(&rt, rt.alloc(), 262144, &IN_TRANSITION, ROWS)
}
