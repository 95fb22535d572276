//! Whether a cycle is open.

/// The phase of the table.
#[derive(Clone, Copy, Debug, PartialEq, Eq)]
pub enum Phase {
    /// No cycle is open.
    Quiet,
    /// A cycle is open: helpers may mark.
    Mark,
    /// A cycle is open, and waits while the young generation is copied: no helper has a seat.
    Paused,
}
