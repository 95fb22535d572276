//! Copying the live cells of a young space: what a scavenge in a pause and one by several workers
//! have in common.
//!
//! Model: `Fixed` of `specs/Places.antt` is what no step changes: the words before, the layouts, the
//! cells to be copied, the slots from outside that may refer to them, and the rooms that copies may
//! fill. Beside it stand the words now and the homes, which are the copies that count.
//! Invariant: `Copying` of `specs/Copies.antt`, between two steps. Where no live slot refers to a
//! cell any longer, `Renaming` of `specs/Renamings.antt` holds: all that was reached stands at its
//! home, and references were renamed. Each law here is a clause of a function that does nothing.
#![tactic(auto)]

mod laws;
mod places;

pub use laws::{
    laws_of_a_worked_scavenge, laws_of_copying, laws_of_home_copies, laws_of_live_slots,
    laws_of_renaming,
};
pub use places::{Home, Room};
