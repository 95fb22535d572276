//! Laws of a cycle of marking: what is kept while it is open, what commands leave of it, what a step
//! of marking asks, and what holds as it ends.
//!
//! Model: none of its own. `Cycle` is that of `mark_world`; `KeepsClosed` and `Rests` are those of
//! `cycle_state`. Each law is a clause of a function that does nothing.
//! Invariant: none of its own.
#![tactic(auto)]

mod laws;

pub use laws::{
    laws_of_changes, laws_of_dead_words, laws_of_ends, laws_of_openings, laws_of_own_cells,
    laws_of_reached_cells, laws_of_scavenges, laws_of_steps,
};
