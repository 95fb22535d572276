//! Lists: their elements, by the addresses of their cells.
//!
//! Model: none of its own. `specs/ListChanges.antt` says what `push`, `put`, `at` and `hold_at` do of each graph
//! that the heap shows. What the words that they write make of the list's cells and of the graph is
//! in `object_cells`.
//! Invariant: none. `IsShownList` of `object_cells` is what a call needs: the heap shows a graph, and
//! a list of it stands at the address.
#![tactic(auto)]

mod elements;
mod pushing;
mod putting;
mod stop;
mod telling;

pub use pushing::push;
pub use putting::put;
pub use stop::{PushStop, PutStop};
pub use telling::{at, hold_at};
