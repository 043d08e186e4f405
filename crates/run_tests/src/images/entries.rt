// Images with an open write-ahead entry, or a loose extent. An open entry is one loose thing; a block that a slab holds
// and no root, and a slab in which no root's block lies, are one each.
use crate::images::{ONE_BLOCK, all_tell_of};
use std::test::Fail;

const ROWS: &str = "none | none | arena 0 large 0 slabs 1 blocks 1 loose 0 | 5 67584 112
an open entry of root 5's block, with bit and root set | 512: 1 0 5 0 0 8 1 0 | arena 0 large 0 slabs 1 blocks 1 loose 1 | 5 67584 112
an open entry of root 5's block, with its bit clear | 512: 1 0 5 0 0 8 1 0, 65600: 0 | arena 0 large 0 slabs 1 blocks 1 loose 1 | 5 67584 112
an open entry of root 5's block, with the root's word 0 | 512: 1 0 5 0 0 8 1 0, 16424: 0 0 0 0 0 0 0 0 | arena 0 large 0 slabs 1 blocks 0 loose 3 | none
an open entry of root 5's block, with neither | 512: 1 0 5 0 0 8 1 0, 16424: 0 0 0 0 0 0 0 0, 65600: 0 | arena 0 large 0 slabs 1 blocks 0 loose 2 | none
an open move from root 5 to root 9, which holds nothing yet | 512: 5 0 5 0 9 0 0 0 | arena 0 large 0 slabs 1 blocks 1 loose 1 | 5 67584 112
an open move from root 5 to root 9, which has the address | 512: 5 0 5 0 9 0 0 0, 16456: 0 8 1 0 0 0 0 0 | arena 0 large 0 slabs 1 blocks 1 loose 1 | 9 67584 112
an open move from root 5, whose word is 0, to root 9 | 512: 5 0 5 0 9 0 0 0, 16424: 0 0 0 0 0 0 0 0, 16456: 0 8 1 0 0 0 0 0 | arena 0 large 0 slabs 1 blocks 1 loose 1 | 9 67584 112
a large extent that no root names | 49280: 1 8 0 2 | arena 0 large 1 slabs 1 blocks 1 loose 1 | 5 67584 112
";

#[test]
fn open_entries(rt: HostRuntime) -> Result<(), Fail> {
    all_tell_of(&rt, rt.alloc(), 262144, &ONE_BLOCK, ROWS)
}
