//! Slot snapshots: a helper reads a cell of a page slot by slot while the mutator runs, and visits what it read only
//! where it makes the cell black itself.
//!
//! Model: none. A visit is what the seat learns by it (`specs/Visited.antt`): a snap of the cell was begun, and
//! settled.
//! Invariant: there is room for the slots of each cell.
#![tactic(auto)]

mod naming;
mod visits;

pub use visits::{Helper, Snapshot, Visit};
