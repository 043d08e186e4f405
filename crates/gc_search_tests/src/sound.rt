// Sound images in which slabs have blocks of several classes, and what was read of them.
use crate::answers::{answer, answer_of, shared};
use crate::images::{ONE_BLOCK, small_word};
use crate::values::same;
use check_tests::{Put, image, put};
use gc_search::GcSearch;
use std::test::Fail;

// A slab of class 6 with one of its blocks and blocks of two other classes, of 48 and of 64 bytes; its bitmap and the write-ahead
// lines have words that mean nothing here.
#[test]
fn two_old_classes(rt: HostRuntime) -> Result<(), Fail> {
    let changes: [Put; 4] = [
        (2054, small_word(67728, 2)),
        (2055, small_word(67776, 3)),
        (8200, 77),
        (64, 2),
    ];
    same(&rt, &answer(rt.alloc(), &changes)?, &None);
    Ok(())
}

// A hundred blocks of 16 bytes in the same slab, from the twelfth on.
#[test]
fn many_old_blocks(rt: HostRuntime) -> Result<(), Fail> {
    let mut words = image(rt.alloc(), &ONE_BLOCK, &[])?;
    for k in 0..100u32 {
        let word = small_word(67776 + 16 * u64::from(k), 0);
        put(&mut words, &[(2100 + k as usize, word)]);
    }
    same(&rt, &answer_of(rt.alloc(), &words)?, &None);
    Ok(())
}

// All roots name the same block: the first two are told.
#[test]
fn all_roots(rt: HostRuntime) -> Result<(), Fail> {
    let mut words = image(rt.alloc(), &ONE_BLOCK, &[])?;
    for root in 0..4096usize {
        put(&mut words, &[(2048 + root, 30064838656)]);
    }
    same(&rt, &answer_of(rt.alloc(), &words)?, &shared(0, 1));
    Ok(())
}

#[test]
fn what_was_read(rt: HostRuntime) -> Result<(), Fail> {
    let changes: [Put; 3] = [(6160, 33556481), (6168, 33556993), (2054, 131072)];
    let words = image(rt.alloc(), &ONE_BLOCK, &changes)?;
    let search = GcSearch::new(rt.alloc(), &words)?;
    same(&rt, &search.granules(), &16);
    match search.judge(&words) {
        Ok(image) => {
            let starts = image.names.starts();
            let granules = image.names.granules();
            same(&rt, &starts.len(), &16);
            assert!(rt; starts[8] && granules[8] && granules[4]);
            assert!(rt; !starts[4] && !starts[10] && !granules[10]);
            same(&rt, &image.log.granules(), &16);
        }
        Err(_defect) => {
            assert!(rt; false);
        }
    }
    Ok(())
}
