//! The commands of a script on a heap.
//!
//! Model: none of its own. The calls work on the mutator's side of a heap, `write_barrier::Main`;
//! `MainShows` says which graph that shows, and `Carries` of `specs/CarriesOut.antt` what a call does
//! to it. Each call is one command of the script. An `Output` is the list of its bytes.
//! Invariant: a call is made on a heap that shows a graph, and leaves one that does. An output has
//! the memory for its most bytes.
#![tactic(auto)]

mod bindings;
mod fields;
mod lists;
mod lookups;
mod making;
mod outcome;
mod output;
mod printing;
mod prototypes;
mod shapes;
mod stop;
mod trims;
mod weak_maps;

pub use bindings::{add, drop_var, let_value};
pub use fields::{del, get, set};
pub use lists::{at, new_list, push, put};
pub use making::new_plain;
pub use outcome::{Explained, Outcome};
pub use output::{OUTPUT_BYTES, Output, ROOM};
pub use printing::{print, put_census, same};
pub use prototypes::proto;
pub use shapes::{alike, shape};
pub use stop::Stop;
pub use trims::{shift, trunc};
pub use weak_maps::{new_weak, wdel, wget, wput};
