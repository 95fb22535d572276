//! Why a call on a list stops.

use write_barrier::NoRoom;

/// Why an element is not pushed. Nothing has changed.
#[derive(Clone, Copy)]
pub enum PushStop {
    /// The list has 1,000 elements.
    ListFull,
    /// There is no room for a store or a box that the element needs.
    Full(NoRoom),
}

/// Why an element is not put. Nothing has changed.
#[derive(Clone, Copy)]
pub enum PutStop {
    /// The index is below 0, or not below the length.
    Range,
    /// There is no room for a box that the element needs.
    Full(NoRoom),
}
