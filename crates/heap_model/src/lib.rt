//! The heap as a model: which heaps are whole, which graph a heap shows, and what a change leaves
//! of both.
//!
//! Model: none of its own. `Heap` of `specs/Heaps.antt` is a heap between two commands, as its
//! words and what of them is used; `HasCell` says which cells stand in it. A `HeapImage` is such a
//! heap as plain data.
//! Invariant: none of its own. `Whole` of `specs/Wholeness.antt` is that of a heap between two
//! commands, and `Shows` of `specs/Showing.antt` says which graph it shows. Each law here is a
//! clause of a function that does nothing.
#![tactic(auto)]

pub mod cells;
mod image;
mod laws;

pub use image::{HeapImage, HeapWords};
pub use laws::{law_of_rooms, laws_of_bindings, laws_of_changes, laws_of_words};
