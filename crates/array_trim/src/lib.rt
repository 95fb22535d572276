//! Trims of lists: elements go at the front or at the back, and no word of one that stays is
//! written.
//!
//! Model: none of its own. `specs/TrimWords.antt` says which words a trim puts, and
//! `specs/Trims.antt` what `shift` and `truncate` do of each graph that the heap shows. That such
//! words make the list one of the elements that stay is `laws_of_trims`.
//! Invariant: none. `IsShownList` of `object_cells` is what a call needs: the heap shows a graph, and
//! a list of it stands at the address.
#![tactic(auto)]

mod laws;
mod shifting;
mod truncating;

pub use laws::laws_of_trims;
pub use shifting::shift;
pub use truncating::truncate;
