//! What a worker or the main side does in one step.

/// One step. Each that names a worker is a step of that worker, but for `Return`.
#[derive(Clone, Copy)]
pub enum Event {
    /// Nothing is changed: a word was read that says nothing.
    Look {},
    /// One more worker begins.
    Lend {},
    /// The worker ends.
    Return { worker: u32 },
    /// The worker reads a live slot, and takes on the cell that it refers to.
    LoadSlot { worker: u32, slot: u32 },
    /// The worker reads the header of the cell that it took on.
    LoadHeader { worker: u32 },
    /// The worker reads the next word of the cell.
    LoadBody { worker: u32 },
    /// The worker stores a word in its own room.
    CopyWord { worker: u32, at: u32, word: u64 },
    /// The worker exchanges the header that it read for the reference to its copy.
    Forward { worker: u32, to: u32 },
    /// The worker stores the reference to the copy that counts in the slot.
    Redirect { worker: u32 },
    /// The worker gives a copy whose slots are to be done to a word of the board.
    Give { worker: u32, place: u32, at: u32 },
    /// The worker takes what a word of the board holds.
    Take { worker: u32, place: u32 },
}
