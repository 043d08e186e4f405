// An image of the variant made by hand.
ghost use Rattle.std.specs.Prelude.{◌<◌, ◌^◌};

use check_tests::Base;

/// An arena of 16 granules with one slab of class 6, at granule 4, whose block 0 root 5 holds: its word has the address, and the
/// class and one from bit 32 on.
pub const ONE_BLOCK: Base = Base {
    granules: 16,
    words: &[
        (0, 3544406880241669710),
        (1, 281543696187393),
        (2, 1),
        (2053, 30064838656),
        (6152, 1026),
        (8192, 1537),
    ],
};

/// The word of a small block of a class at an address.
pub fn small_word(at: u64, class: u64) -> u64
    requires at { at < 2 ^ 32 }
    requires class { class < 64 }
{
    at + ((class + 1) << 32)
}
