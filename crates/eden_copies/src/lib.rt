//! Copying eden by several workers at once: what one of them does. The words of the heap are lent to all, and nobody
//! stores into them. A worker copies cells to a room of its own, and claims each for the address that its copy gets.
//!
//! Model: `WorkerSide` of `specs/Sides.antt`: the words of the room, the copies that count, and the slots that are left
//! to the main side.
//! Invariant: there is memory for each word that the room may have. `HasCopied` of `specs/Copied.antt` is what a run
//! comes to, and `AreCopiedOnce` of `specs/Together.antt` what all of them do.
//! Below: `claims`, `scav_copy`. Above: nothing so far.
#![tactic(auto)]

mod dealing;
mod following;
mod laws;
mod lent_words;
mod running;
mod scanning;
mod worker;

pub use laws::laws_of_workers;
pub use worker::Worker;
