// What is counted and found: `classes` tests `size_classes`, `bits` `interleaved_bitmap`, `places` `pool_layout`, and `extents`
// `extent_index`.
mod bits;
mod classes;
mod extents;
mod places;
