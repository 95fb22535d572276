//! Laws of marking: what the definitions of `mark_world` come to.
//!
//! Model: each law is a statement of `specs/`, and a clause of a function here with an empty body.
//! Invariant: none of its own.
#![tactic(auto)]

mod between;
mod births;
mod cycles;
mod ends;
mod keeping;
mod own_views;
mod runs;
mod snapshots;
mod soundness;
mod steadiness;

pub use between::{laws_of_changes, laws_of_growing, laws_of_settling};
pub use births::laws_of_births;
pub use cycles::{laws_of_cycles, laws_of_pages};
pub use ends::laws_of_ends;
pub use keeping::laws_of_covering;
pub use own_views::{laws_of_spots, laws_of_views};
pub use runs::laws_of_runs;
pub use snapshots::laws_of_snapshots;
pub use soundness::laws_of_soundness;
pub use steadiness::{laws_of_cells, laws_of_steadiness};
