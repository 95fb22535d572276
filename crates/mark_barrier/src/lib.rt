//! The barrier of marking: whole steps of the mutator in an open cycle. Each is one event or more on the shared table,
//! and after each the mutator owes nothing.
//!
//! Model: `Waiting` of `specs/Waiting.antt`: cells that wait to be visited, as the mutator shaded them or got them from
//! the board or from a helper, and those among them that were found black since.
//! Invariant: none of its own. `IsPaid` of `specs/Paid.antt` ties the two lists to the main seat.
//! Below: `heap_table`, whose main seat makes the events. Above: `write_barrier`.
#![tactic(auto)]

mod blackening;
mod board;
mod dropping;
mod grey_cells;
mod returning;
mod scanning;
mod shading;

pub use grey_cells::GreyCells;
