//! The dead entries of weak maps are cleared: once the live cells are marked, pairs whose keys are not
//! are taken out of the tables of maps.
//!
//! Model: none of its own. `specs/Marked.antt` says which pairs are left of a table, and
//! `specs/Clearing.antt` what `clear` does to the heap: it takes one pair after the other, by
//! `ephemeron_table`. A graph whose reachable objects are all marked is shown as before.
//! Invariant: none. While it clears, the heap is whole after each pair.
#![tactic(auto)]

mod maps;
mod search;

pub use maps::clear;
