//! Cells as they are read off words.

use tagged_word::{Header, LayoutWord};

/// A cell: where it stands, and what its words say of it.
#[derive(Clone, Copy)]
pub struct Cell {
    /// The address of its first word.
    pub at: u32,
    /// Its first word.
    pub header: Header,
    /// The layout of its shape.
    pub layout: LayoutWord,
    /// The capacity of a store or a weak table, the size of a gap, and 0 for any other cell.
    pub length: u64,
    /// How many words it has.
    pub size: u32,
}

/// There is no cell at an address.
#[derive(Clone, Copy)]
pub struct NotACell {
    /// The address.
    pub at: u32,
    /// The word there; 0 behind the last word.
    pub word: u64,
}
