//! Live cells: what a full collection has to keep, and what its marking finds.
//!
//! Model: none of its own. `IsLive` of `specs/Live.antt` says which cells slots and entries lead to;
//! `IsMarkClosed` which sets of addresses a marking may end with; `Exact` and `Fits` when a heap
//! keeps nothing else, and when words fit into it. The laws here tie them to what can be reached in
//! the graph that the heap shows. Each is a clause of a function that does nothing.
//! Invariant: none of its own.
#![tactic(auto)]

mod laws;

pub use laws::{
    laws_of_counts, laws_of_exact_heaps, laws_of_fitting, laws_of_live_cells, laws_of_starts,
};
