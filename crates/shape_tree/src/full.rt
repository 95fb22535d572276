//! The refusal of a tree of shapes.

/// There may not be as many field paths as a change needs: 8,192.
#[derive(Clone, Copy, Debug, PartialEq, Eq)]
pub struct ShapesFull {
    /// How many paths there are.
    pub paths: u32,
    /// How many the change would add.
    pub missing: u32,
}
