//! The core of a parallel scavenge: a world, the events of its workers, and what every list of
//! events leaves true.
//!
//! Model: a `World` is plain data: the words before and now, what workers may read and fill, the
//! copies that count (its homes), the board, and each worker's view. `is_possible` of
//! `specs/Possible.antt` says which events may come in a world, and `after` of `specs/Steps.antt`
//! what each makes of it. An event touches one word, and changes only the view of its worker.
//! Invariant: `Underway` of `specs/Underway.antt`, from a fresh world on. Nothing runs here: those
//! who share the words make these steps, and rest on what is proved of them.
#![tactic(auto)]

mod copying;
mod event;
mod laws;
mod places;
mod possible;
mod run;
mod step;
mod touching;
mod view;
mod workers;
mod world;

pub use event::Event;
pub use laws::{
    laws_of_known_homes, laws_of_what_a_worker_knows, laws_of_what_is_left,
    laws_of_what_is_possible, laws_of_what_stays, laws_of_worlds,
};
pub use possible::is_possible;
pub use run::replay;
pub use step::{Touch, after};
pub use workers::{Job, WorkerView, Workers};
pub use world::World;
