// Places of bits.
use interleaved_bitmap::bit_place;

#[test]
fn places_of_blocks(rt: HostRuntime) {
    for (i, place) in [(0, (1, 0)), (8, (1, 1)), (15, (8, 1)), (3967, (8, 495))] {
        assert_eq!(rt; bit_place(i), place, "of block {i}");
    }
}
