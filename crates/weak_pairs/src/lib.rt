//! The pairs of a weak map's table, as a list and as words: where probing finds each, and what is left
//! of them while one is removed or all come to a larger table.
//!
//! Model: `Table` says where a table stands, and how many pairs it has. The definitions of `specs/`
//! speak of lists of words and of pairs and of the heap's words alone, and the lemmas of `proofs/`
//! with them.
//! Invariant: none. Nothing here reads or writes a heap: `ephemeron_table` does.
#![tactic(auto)]

mod table;

pub use table::Table;
