//! Linear probing: tables with open addressing, as lists of numbers, and the laws that their changes
//! keep.
//!
//! Model: a table is a list of places, each with a number or nothing. The home of a number is the
//! number modulo the capacity, and probing goes up from there and round. `specs/Tables.antt` says
//! where each number is found, `specs/BackwardShift.antt` how one is removed without a mark, by
//! backward-shift deletion: those behind it that would be lost move back.
//! Invariant: none of its own. Each law is a clause of a function here with an empty body.
//! `find_place` and `remove` are the plain functions on a slice, and run in no program: what keeps a
//! table in words of its own follows them step by step.
#![tactic(auto)]

mod backward_shift;
mod probing;
mod table;

pub use backward_shift::laws_of_backward_shift;
pub use probing::laws_of_probing;
pub use table::{find_place, remove};
