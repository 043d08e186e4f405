// Images of the GC variant made by hand, of arenas of 16 granules.
use worked_runs::Run;

/// An arena that has nothing.
pub(crate) const GC_EMPTY: [Run; 3] = [
    (0, b"NVALGC01"),
    (8, &[1, 0, 0, 0, 16, 0, 1, 0]),
    (16, &[1]),
];

/// One large block of all 12 granules of the heap, of root 0.
pub(crate) const GC_FULL: [Run; 5] = [
    (0, b"NVALGC01"),
    (8, &[1, 0, 0, 0, 16, 0, 1, 0]),
    (16, &[1]),
    (16384, &[0, 0, 1]),
    (49216, &[1, 4, 0, 12]),
];

/// A slab of class 6, of 112 bytes, with a block of its own, of root 5, and blocks of 48 and of 64 bytes, of roots 6 and 7. A bit of
/// its bitmap is set, which means nothing here.
pub(crate) const MIXED: [Run; 9] = [
    (0, b"NVALGC01"),
    (8, &[1, 0, 0, 0, 16, 0, 1, 0]),
    (16, &[1]),
    (16424, &[0, 8, 1, 0, 7]),
    (16432, &[144, 8, 1, 0, 3]),
    (16440, &[192, 8, 1, 0, 4]),
    (49216, &[2, 4]),
    (65536, &[1, 6]),
    (65600, &[77]),
];

/// A slab of class 35, with two of its three blocks of 16384 bytes, of roots 1 and 2, and behind them one of 16 bytes, of root 3. So 32784
/// of 49152 bytes live.
pub(crate) const ALIVE: [Run; 8] = [
    (0, b"NVALGC01"),
    (8, &[1, 0, 0, 0, 16, 0, 1, 0]),
    (16, &[1]),
    (16392, &[0, 8, 1, 0, 36]),
    (16400, &[0, 72, 1, 0, 36]),
    (16408, &[0, 136, 1, 0, 1]),
    (49216, &[2, 4]),
    (65536, &[1, 35]),
];

/// A malloc of 1024 bytes was cut off, for which the slab took class 19: its blocks are of 48 and of 64 bytes, of roots 6 and 7.
pub(crate) const IN_CLASS: [Run; 7] = [
    (0, b"NVALGC01"),
    (8, &[1, 0, 0, 0, 16, 0, 1, 0]),
    (16, &[1]),
    (16432, &[144, 8, 1, 0, 3]),
    (16440, &[192, 8, 1, 0, 4]),
    (49216, &[2, 4]),
    (65536, &[1, 19]),
];

/// A malloc was cut off: the slab is there and no root names its block. Root 6 has a large block.
pub(crate) const IN_SMALL_MALLOC: [Run; 7] = [
    (0, b"NVALGC01"),
    (8, &[1, 0, 0, 0, 16, 0, 1, 0]),
    (16, &[1]),
    (16433, &[128, 2]),
    (49216, &[2, 4]),
    (49280, &[1, 10, 0, 2]),
    (65536, &[1, 6]),
];

/// A free was cut off: of two slabs of class 6 the second has lost its last block, and root 6 has one of the first.
pub(crate) const IN_SMALL_FREE: [Run; 8] = [
    (0, b"NVALGC01"),
    (8, &[1, 0, 0, 0, 16, 0, 1, 0]),
    (16, &[1]),
    (16432, &[0, 8, 1, 0, 7]),
    (49216, &[2, 4]),
    (49280, &[2, 8]),
    (65536, &[1, 6]),
    (131072, &[1, 6]),
];

/// A malloc was cut off: the extent is there and no root names the block. Root 6 has a block of the slab before it.
pub(crate) const IN_LARGE_MALLOC: [Run; 7] = [
    (0, b"NVALGC01"),
    (8, &[1, 0, 0, 0, 16, 0, 1, 0]),
    (16, &[1]),
    (16432, &[0, 8, 1, 0, 7]),
    (49216, &[2, 4]),
    (49280, &[1, 8, 0, 3]),
    (65536, &[1, 6]),
];

/// A free was cut off: of two large blocks one has lost its root, and root 6 has the other.
pub(crate) const IN_LARGE_FREE: [Run; 6] = [
    (0, b"NVALGC01"),
    (8, &[1, 0, 0, 0, 16, 0, 1, 0]),
    (16, &[1]),
    (16432, &[0, 0, 2]),
    (49216, &[1, 8, 0, 2]),
    (49280, &[1, 10, 0, 2]),
];

/// A malloc of the first block was cut off: the slab is there, and nothing else.
pub(crate) const IN_FIRST_MALLOC: [Run; 5] = [
    (0, b"NVALGC01"),
    (8, &[1, 0, 0, 0, 16, 0, 1, 0]),
    (16, &[1]),
    (49216, &[2, 4]),
    (65536, &[1, 6]),
];
