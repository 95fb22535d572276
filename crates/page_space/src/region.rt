//! The regions that the words of a heap are cut into.

/// A region of the words of a heap.
#[derive(Clone, Copy)]
pub enum Region {
    /// A page of the old generation, by its number.
    Page(u32),
    /// Where objects are born.
    Eden,
    /// Where a worker of a scavenge copies to, in one of the two halves.
    Segment { half: u32, worker: u32 },
    /// Both words of a variable, by its number.
    Root(u32),
    /// The layout word of a shape, by its number.
    Layout(u32),
    /// A word of the marks, by its number.
    Mark(u32),
    /// A word of the board, by its number.
    Board(u32),
    /// Behind the last region.
    Outside,
}
