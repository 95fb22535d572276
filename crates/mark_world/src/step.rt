//! Whose an event is, and which word it touches. What it does to the word, and what its seat knows
//! then, is said in `specs/Steps.antt`.

/// Whose step an event is.
#[derive(Clone, Copy)]
pub enum Actor {
    /// The mutator's.
    Mutator,
    /// That of the helper of this number.
    Helper(u32),
    /// The mutator's, which lends a seat.
    Lends,
    /// The mutator's, which takes the seat of this helper back.
    Returns(u32),
}

/// A word that an event may touch.
#[derive(Clone, Copy)]
pub enum Spot {
    /// The word of the heap at this address.
    Heap(u64),
    /// The layout word of this shape.
    Layout(u32),
    /// The colour of the cell at this address.
    Colour(u32),
    /// This word of the board.
    Board(u32),
}
