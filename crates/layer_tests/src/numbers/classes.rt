// The edges of the classes.
use crate::values::same;
use size_classes::{capacity, class_of, granules, size_of_class};

#[test]
fn edges_of_the_classes(rt: HostRuntime) {
    for (size, class) in [
        (0, None),
        (16, Some(0)),
        (17, Some(1)),
        (129, Some(8)),
        (16384, Some(35)),
        (16385, None),
    ] {
        assert_eq!(rt; class_of(size), class, "at {size}");
    }
    same(
        &rt,
        &(size_of_class(8), capacity(8), capacity(35)),
        &(160, 396, 3),
    );
    same(&rt, &granules(16385), &2);
}
