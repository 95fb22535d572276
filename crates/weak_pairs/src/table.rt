//! Where the table of a weak map stands.

/// The table of a weak map: where it stands, and how many pairs it has. One of no pairs stands for
/// none.
#[derive(Clone, Copy)]
pub struct Table {
    /// The address of its cell.
    pub at: u32,
    /// How many pairs it has.
    pub capacity: u32,
}
