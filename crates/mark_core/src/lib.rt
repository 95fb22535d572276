//! The core of marking: lists of events carried out on a world, as pure data with no program.
//!
//! Model: the worlds and events of `mark_world`. `is_possible` and `apply` are the definitions of one
//! event, and `replay` carries out a list of them.
//! Invariant: none of its own. A world may be any.
#![tactic(auto)]

mod cells;
mod conditions;
mod learning;
mod learning_helper;
mod lists;
mod naming;
mod possible;
mod runs;
mod safety;
mod spots;
mod steps;

pub use possible::is_possible;
pub use runs::replay;
pub use steps::apply;
