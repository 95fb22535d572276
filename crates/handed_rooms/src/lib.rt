//! What workers of a scavenge copied, taken in by the main side: the words of their rooms, and in the header of each
//! cell that they copied the reference to its copy.
//!
//! Model: none of its own. `IsTakenIn` of `specs/Taken.antt` is what becomes of the words by one worker.
//! Invariant: none. Where all workers were taken in, the words are `Copying` of `scav_copy` (`laws_of_rooms`).
//! Below: `eden_copies`, `write_barrier`. Above: `lent_eden`.
#![tactic(auto)]

mod laws;
mod taking;

pub use laws::laws_of_rooms;
pub use taking::take_in;
