//! The collector's side of a heap: the heap that a script runs on, and images of it.
//!
//! Model: a `HeapState` of `specs/States.antt`: the mutator's side, which is lent to commands, the
//! places of the list of a scavenge, the bound of what can be marked, whether a cycle of marking is open,
//! and whether a full collection came since that was asked last.
//! Invariant: none over the mutator's side, which is lent. `HeapShows` of `specs/States.antt` is
//! what holds between two commands. `MakesRoom` of `specs/Making.antt` says how room is made, and
//! `CollectsAll` of `specs/Collected.antt` what a full collection leaves. `BeginsCycle` and `LeavesBorn` of
//! `specs/Born.antt` say what is done where a cycle begins and ends. `IsImageOf` of `specs/Images.antt` says what an
//! image is, and `laws_of_images` what it shows.
#![tactic(auto)]

mod blanking;
mod census;
mod collecting;
mod cycles;
mod filling;
mod imaging;
mod laws;
mod mark_sweeping;
mod room;
mod script_heap;

pub use census::Census;
pub use imaging::image_room;
pub use laws::{
    laws_of_cycles, laws_of_full_heaps, laws_of_images, laws_of_last_markings, laws_of_last_sweeps,
    laws_of_promotions,
};
pub use script_heap::Heap;
