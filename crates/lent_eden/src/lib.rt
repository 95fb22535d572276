//! What workers of a scavenge may begin with, and what they hand over: the words of a heap that shows a graph may be
//! lent to them, and where they were taken in, the main side may go on.
//!
//! Model: none. `ShownHeapsMayBeLent` of `specs/Lent.antt` and `WorkersHandOver` of `specs/Handed.antt` are the laws.
//! Below: `scavenger`, `eden_copies`, `handed_rooms`. Above: nothing so far.
#![tactic(auto)]

mod laws;

pub use laws::{laws_of_handing, laws_of_lending};
