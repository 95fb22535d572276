//! What a step of a seat found, for the log that takes every note at its end.

/// What one step found in the words that other seats change too.
#[derive(Clone, Copy, Debug, PartialEq, Eq)]
pub enum Note {
    /// The word at an address was read.
    Loaded { at: u32 },
    /// The cell at an address was coloured, and had this colour before.
    Coloured { at: u32, found: u8 },
    /// A cell was given to this word of the board, which was this before: 0 where it took the cell.
    Gave { place: u32, found: u64 },
    /// This word of the board was taken, and was this: 0 where no cell was there.
    Took { place: u32, found: u64 },
}
