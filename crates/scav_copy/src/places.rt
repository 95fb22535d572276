//! Where copies may be put, and where they were.

/// Words that copies may fill.
#[derive(Clone, Copy)]
pub struct Room {
    /// The worker that may store here, by its number.
    pub worker: u32,
    /// The address of the first word.
    pub from: u32,
    /// The address behind the last word.
    pub to: u32,
}

/// The copy of a cell that counts. All other copies of the cell are just words of a room.
#[derive(Clone, Copy)]
pub struct Home {
    /// The address of the cell.
    pub from: u32,
    /// The address of the copy.
    pub to: u32,
}
