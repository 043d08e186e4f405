// How far a put has come.

/// What stands at the stage of a dictionary.
#[derive(Clone, Copy)]
pub(crate) enum Progress {
    /// No block that a call made ready.
    Idle,
    /// A block that is to have a value of so many words.
    Staged { count: u32 },
    /// The same, with its value.
    Filled,
}
