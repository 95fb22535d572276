//! Image walk: the cells of an image one after another, the words of a cell, and what a word stands for.
//!
//! Model: none of its own. An image is a `Heap` of `heap_model`.
//! Invariant: none. What needs rows requires `HasRows`, and what needs a cell that it stands in the heap.
//! Nothing here takes memory: where a cell is needed again, it is walked to again.
#![tactic(auto)]

mod finding;
mod kinds;
mod next_cell;
mod reads;
mod slots;
mod spans;
mod stores;
mod tables;

pub use finding::find_cell;
pub use kinds::{is_owned, is_plain};
pub use next_cell::next_from;
pub use reads::{cell_there, is_zero, word_at};
pub use slots::{Referent, integer_of, is_hole, is_undefined, sort_of, sort_of_cell};
pub use spans::{Span, behind_head, word_of};
pub use stores::slots_beside;
pub use tables::{KeyValue, is_free, is_power_of_two, pair_at};
