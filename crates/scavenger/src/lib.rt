//! Copying the live cells of the young generation by one thread: eden and one half are emptied. What
//! survived before goes to a page, if a free run has its words, or whatever lives where all is to be
//! promoted; all else goes to the other half. And granting words of a free run, where a cell is to be made
//! for which eden has no room.
//!
//! Model: none of its own. `Scavenges` of `specs/Scavenged.antt` is what a scavenge comes to, and
//! `Grants` of `specs/Granting.antt` what is granted.
//! Invariant: `Scavenging` of `specs/Walking.antt`, between two slots: home copies fill the segment one
//! behind another, or stand in pages, which are rows of cells; each live slot that refers to a cell that
//! is to be copied is to do; and recorded are those slots that were and still refer to a young cell, and
//! the slots of copies in pages that refer to a copy in the segment. Where helpers copied first, it begins with their
//! copies as homes, and with the slots that they left to do (`HandsOver` of `specs/Handing.antt`).
#![tactic(auto)]

mod copying;
mod emptying;
mod granting;
mod laws;
mod left_slots;
mod progress;
mod scanning;
mod scavenging;
mod slots;
mod spaces;
mod worker;

pub use granting::grant_run;
pub use laws::{laws_of_ends, laws_of_following, laws_of_grants, laws_of_scavenges, laws_of_slots};
pub use scavenging::{finish_scavenge, scavenge};
