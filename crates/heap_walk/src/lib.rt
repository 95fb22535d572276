//! Walking along the cells of a heap, one after another: the cell at an address at which one is known to
//! stand, the walk along the used row of a region, and where that row ends. A scavenge and a marking read
//! cells so; a sweep, a census and the making of images walk along the rows.
//!
//! Model: none of its own. `StandsAt` of `specs/Standing.antt` says which cell stands at an address,
//! `StandAhead` of `specs/Walks.antt` which cells a walk has before it, and `EndsRow` of `specs/Limits.antt`
//! where a row ends.
//! Invariant: none. A call changes nothing in the heap, and reads three words of a cell at most: the
//! header, the layout word of its shape, and the length of a kind that has one.
#![tactic(auto)]

mod cells;
mod known_cells;
mod rows;

pub use cells::Cells;
pub use known_cells::{known_cell, known_cell_by, known_kind};
pub use rows::row_end;
