//! An open cycle of marking: what holds of a heap between two commands of it.
//!
//! Model: none of its own. `Cycle` of `mark_world` is what the mutator knows of a cycle.
//! `KeepsClosed` says what the cycle keeps, in cells alone; `Rests` adds that the mutator's part of
//! marking is done. The laws of both are in `cycle_laws`; here is only what ties a heap's cells to the
//! world of marking that its pages are.
//! Invariant: none of its own.
#![tactic(auto)]

mod laws;

pub use laws::{laws_of_claims, laws_of_going_on, laws_of_page_cells};
