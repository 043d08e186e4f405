// Images of the LOG variant made by hand, of arenas whose heaps have 12 granules.
use worked_runs::Run;

/// The bytes of an arena of 16 granules, and of one of version 2 of 25.
pub(crate) const SMALL: usize = 262144;

pub(crate) const SMALL_2: usize = 409600;

/// An arena that has nothing.
pub(crate) const EMPTY: [Run; 3] = [
    (0, b"NVALLOG1"),
    (8, &[1, 0, 0, 0, 16, 0, 1, 0]),
    (16, &[1]),
];

/// The same of version 2.
pub(crate) const EMPTY_2: [Run; 3] = [
    (0, b"NVALLOG1"),
    (8, &[2, 0, 0, 0, 25, 0, 1, 0]),
    (16, &[1]),
];

/// One large block of all granules, of root 0, whose first and last words are not 0.
pub(crate) const FULL: [Run; 7] = [
    (0, b"NVALLOG1"),
    (8, &[1, 0, 0, 0, 16, 0, 1, 0]),
    (16, &[1]),
    (16384, &[0, 0, 1]),
    (49216, &[1, 4, 0, 12]),
    (65536, &[7]),
    (262136, &[9]),
];

/// The same of version 2.
pub(crate) const FULL_2: [Run; 7] = [
    (0, b"NVALLOG1"),
    (8, &[2, 0, 0, 0, 25, 0, 1, 0]),
    (16, &[1]),
    (16384, &[0, 64, 3]),
    (147520, &[1, 13, 0, 12]),
    (212992, &[7]),
    (409592, &[9]),
];

/// One slab of class 6, whose block 0 root 5 holds; the block has two words other than 0.
pub(crate) const ONE_BLOCK: [Run; 9] = [
    (0, b"NVALLOG1"),
    (8, &[1, 0, 0, 0, 16, 0, 1, 0]),
    (16, &[1]),
    (16424, &[0, 8, 1]),
    (49216, &[2, 4]),
    (65536, &[1, 6]),
    (65600, &[1]),
    (67584, &[239, 205, 171, 137, 103, 69, 35, 1]),
    (67688, &[1]),
];

/// The same of version 2.
pub(crate) const ONE_BLOCK_2: [Run; 9] = [
    (0, b"NVALLOG1"),
    (8, &[2, 0, 0, 0, 25, 0, 1, 0]),
    (16, &[1]),
    (16424, &[0, 72, 3]),
    (147520, &[2, 13]),
    (212992, &[1, 6]),
    (213056, &[1]),
    (215040, &[239, 205, 171, 137, 103, 69, 35, 1]),
    (215144, &[1]),
];

/// The same, cut off while the block was going: the entry of the first line names root 5 and the block, and the root holds
/// nothing. So the entry is loose, the block, and its slab, in which no root's block lies.
pub(crate) const CUT_OFF: [Run; 7] = [
    (0, b"NVALLOG1"),
    (8, &[1, 0, 0, 0, 16, 0, 1, 0]),
    (16, &[1]),
    (512, &[1, 0, 5, 0, 0, 8, 1, 0]),
    (49216, &[2, 4]),
    (65536, &[1, 6]),
    (65600, &[1]),
];

/// `IN_TRANSITION` of `worked_runs`, of version 2.
pub(crate) const IN_TRANSITION_2: [Run; 11] = [
    (0, b"NVALLOG1"),
    (8, &[2, 0, 0, 0, 25, 0, 1, 0]),
    (16, &[1]),
    (16385, &[64, 3]),
    (16393, &[72, 5]),
    (16401, &[76, 5]),
    (147520, &[1, 13, 0, 8]),
    (147584, &[2, 21]),
    (344064, &[3, 19, 3, 1]),
    (344192, &[1]),
    (344640, &[1]),
];

/// Two arenas: the first has nothing, and in the second root 5 has a large block of two granules.
pub(crate) const TWO: [Run; 8] = [
    (0, b"NVALLOG1"),
    (8, &[1, 0, 0, 0, 16, 0, 2, 0]),
    (16, &[1]),
    (262144, b"NVALLOG1"),
    (262152, &[1, 0, 1, 0, 16, 0, 2, 0]),
    (262160, &[1]),
    (278569, &[128, 1]),
    (311360, &[1, 6, 0, 2]),
];
