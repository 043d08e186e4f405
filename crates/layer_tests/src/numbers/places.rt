// Places of the log and of roots, by version.
use crate::values::same;
use pool_layout::{entry_at, heap_at, layout_of, root_at};

// The place of an entry of a chunk, where both are in range.
fn place(version: u32, chunk: u32, entry: u32) -> Option<u32> {
    if chunk < 16 && entry < layout_of(version).chunk_entries {
        Some(entry_at(version, chunk, entry))
    } else {
        None
    }
}

// The first and the last entry of a chunk, and those around the end of its first words: entries lie in 15 lines of a chunk of
// 1024 bytes, and in 63 lines of one of 4096. The last one of all is followed by the heap.
#[test]
fn places_of_entries(rt: HostRuntime) {
    for (version, chunk, entry, at) in [
        (1, 0, 0, Some(49216)),
        (1, 0, 14, Some(50112)),
        (1, 0, 15, Some(49224)),
        (1, 0, 119, Some(50168)),
        (1, 0, 120, None),
        (1, 15, 119, Some(65528)),
        (2, 0, 0, Some(147_520)),
        (2, 0, 1, Some(147_584)),
        (2, 0, 62, Some(151_488)),
        (2, 0, 63, Some(147_528)),
        (2, 0, 503, Some(151_544)),
        (2, 0, 504, None),
        (2, 8, 0, Some(180_288)),
        (2, 15, 503, Some(212_984)),
    ] {
        assert_eq!(rt;
            place(version, chunk, entry),
            at,
            "of entry {entry} of chunk {chunk} of version {version}"
        );
    }
    same(&rt, &(heap_at(1), heap_at(2)), &(65536, 212_992));
}

// The log follows the last root.
#[test]
fn places_of_roots(rt: HostRuntime) {
    same(
        &rt,
        &(root_at(0), root_at(4095), root_at(16383)),
        &(16384, 49144, 147_448),
    );
    same(
        &rt,
        &(layout_of(1).roots, layout_of(2).roots),
        &(4096, 16384),
    );
    same(
        &rt,
        &(layout_of(1).log_at, layout_of(2).log_at),
        &(49152, 147_456),
    );
}
