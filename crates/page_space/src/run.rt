//! Runs of words.

/// Words one behind another.
#[derive(Clone, Copy, PartialEq, Eq)]
pub struct Run {
    /// The address of the first word.
    pub at: u32,
    /// How many words there are.
    pub words: u32,
}
