// What a command has to say.

/// What a command has to say of its input.
#[derive(Drop)]
pub enum Answer {
    /// Its output.
    Output(Vec<u8>),
    /// One line that says why it refuses the input.
    FaultLine(Vec<u8>),
}
