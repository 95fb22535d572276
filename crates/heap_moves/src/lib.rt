//! Heaps whose cells were moved: one law for all collections that clear no entry.
//!
//! Model: none of its own. `IsMoved` of `specs/Moved.antt` says that a heap is another one moved:
//! where each cell that stays stands, and what refers to it. The laws here say that such a heap is
//! whole, shows the same graph, and keeps the room of each object that stays. Each is a clause of a function
//! that does nothing.
//! Invariant: none of its own.
#![tactic(auto)]

mod laws;

pub use laws::laws_of_moves;
