//! A marker: a helper's seat with its table, the cells that wait with it, and the places that it reads cells in. It
//! visits cells by turns, and looks for more on the board.
//!
//! Model: `Marking` of `specs/Markers.antt`: the table, the seat if there is one, and the list of cells.
//! Invariant: with a seat, the list has just the cells that wait with it, and it has no snap and nothing to visit.
#![tactic(auto)]

mod markers;
mod marking;
mod offer;
mod shading;
mod turn;

pub use markers::Marker;
pub use marking::Outcome;
