// Loose extents get Tombs, one append each.
use crate::outcomes::recovered;
use check_tests::{Became, Put};
use gc_search_tests::small_word;
use pool_layout::Defect;
use std::test::Fail;

// What is put over the words of the arena, what is to stand over these once it is recovered, and by how many events.
type Row = (&'static [Put], &'static [Put], u32);

const LOOSE: [Row; 5] = [
    (&[], &[], 0),
    (&[(6160, 33556481)], &[(6168, 2051)], 3),
    (&[(2053, 0)], &[(6160, 1027)], 3),
    (
        &[(6160, 33556481), (2053, 0)],
        &[(6168, 2051), (6176, 1027)],
        6,
    ),
    (
        &[(6160, 33556481), (6168, 33556993), (2054, 131072)],
        &[(6176, 2563)],
        3,
    ),
];

// An exact image stays as it is. Then a large extent at granule 8 that no root names, a slab in which no root's block lies, and
// both, of which the large one comes first. Last a large extent that root 6 names, which stays, while another at 10 goes.
#[test]
fn loose_extents(rt: HostRuntime) -> Result<(), Fail> {
    for &(changes, after, events) in &LOOSE {
        assert_eq!(rt;
            recovered(rt.alloc(), changes, after)?,
            Became::Wanted { events }
        );
    }
    Ok(())
}

// A slab in which a block of another class lives stays, and what its bitmap and the write-ahead lines have is left alone.
#[test]
fn an_old_block_keeps_its_slab(rt: HostRuntime) -> Result<(), Fail> {
    let changes: [Put; 5] = [
        (2053, 0),
        (2054, small_word(67776, 3)),
        (8200, 77),
        (64, 2),
        (8472, 5),
    ];
    assert_eq!(rt;
        recovered(rt.alloc(), &changes, &[])?,
        Became::Wanted { events: 0 }
    );
    Ok(())
}

#[test]
fn refused(rt: HostRuntime) -> Result<(), Fail> {
    assert_eq!(rt;
        recovered(rt.alloc(), &[(2054, 65536)], &[])?,
        Became::Refused(Defect::StrayRoot { root: 6, at: 65536 })
    );
    assert_eq!(rt;
        recovered(rt.alloc(), &[(0, 3550894020320384590)], &[])?,
        Became::Refused(Defect::BadHeader {
            word: 0,
            value: 3550894020320384590
        })
    );
    Ok(())
}
