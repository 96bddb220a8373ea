//! What the program is to do.

/// The most steps that a top-level form may be given.
pub const MAX_STEPS: u64 = 1_000_000_000;

/// The greatest depth that forms may be given.
pub const MAX_DEPTH: u64 = 4_000;

/// What the command line asks for.
#[derive(Debug, Drop)]
pub struct Settings<'a> {
    /// Whether the values of top-level forms are written.
    pub echo: bool,
    /// Whether what the program's dependents heard is written at the end.
    pub notices: bool,
    /// Steps of one top-level form, from 1 to `MAX_STEPS`.
    pub steps: u64,
    /// How deep forms nest in evaluation, from 1 to `MAX_DEPTH`.
    pub depth: u64,
    /// The files to run, in order; none stands for the input.
    pub files: Vec<&'a str>,
}
