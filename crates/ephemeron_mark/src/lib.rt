//! Marking in a pause: which cells of a heap are live, with the pairs of weak maps as ephemerons. While it
//! runs the heap does not change.
//!
//! A marked cell is listed once, and the list holds those that wait to be visited behind those that were.
//! The one that was found last is visited next. A pair whose key is not marked waits for it, and its value is
//! marked when the key is visited. So no table is gone through twice.
//!
//! A marking may have a head start: it may be given cells, and for some of them it is known that their slots lead to
//! given cells. Then it marks what is live from these and from variables.
//!
//! Model: a `Marked` of `specs/Marked.antt`: the marked cells, which are those that were given before `mark_given` is
//! called, those of them that were given as seen, and the weak maps that were found.
//! Invariant: `HasGrown` of `specs/Progress.antt` while it runs: only cells are marked that are live from those that
//! were marked before. Each that was visited is closed (`IsVisited`): what its slots refer to is marked; so is the
//! value of each of its pairs, unless that waits for its key; and nothing waits for it with a value that is not marked.
#![tactic(auto)]

mod ephemerons;
mod marking;
mod seen;
mod targets;
mod visits;
mod waiting;

pub use marking::Marking;
pub use visits::{mark_given, mark_live};
