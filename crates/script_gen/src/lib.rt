//! Generated scripts: the script of a seed, so that two programs can be compared on long runs.
//!
//! Model: none. The bytes are `generated` of `specs/Generated.antt`, a recursion on forms: each form is
//! one line of the table in `specs/Forms.antt`, chosen and filled in by numbers that are drawn from
//! a state of 64 bits.
//! Invariant: none of its own. A kept length is at most the number of the form before which it is kept.
#![tactic(auto)]

mod draws;
mod forms;
mod lines;
mod script;

pub use script::{FORMS_MOST, generate};
