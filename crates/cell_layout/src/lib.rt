//! Cell layout: the cell at an address, read off any words, and the walk from cell to cell.
//!
//! Model: none of its own. `IsCell` of `specs/Cells.antt` says which cell words read as at an
//! address, and `IsRow` that cells stand one behind another.
//! Invariant: none. Every call is total on any words.
#![tactic(auto)]

mod cell;
mod cells;
mod laws;
mod slots;

pub use cell::{Cell, NotACell};
pub use cells::{cell_at, next_cell};
pub use laws::{laws_of_cells, laws_of_rows};
pub use slots::{next_scavenge_slot, next_tagged};
