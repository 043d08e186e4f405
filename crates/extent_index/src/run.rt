// Granules in a row.

/// So many granules from a first one on, or none.
#[derive(Clone, Copy)]
pub(crate) struct Run {
    pub(crate) start: u32,
    pub(crate) granules: u32,
}
