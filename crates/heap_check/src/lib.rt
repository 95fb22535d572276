//! Heap check: the first word of an image that breaks a whole heap, in time linear in its words.
//!
//! Model: none of its own. An image is a `Heap` of `heap_model`; `IsFirstFlaw` of `specs/FirstFlaws.antt` says which
//! flaw of it is the first, part by part, and in a part by ascending address.
//! Invariant: a `Checker` has a flag for each word of a heap, of three sorts. They tell nothing between two checks.
#![tactic(auto)]

mod cells;
mod checker;
mod counts;
mod earlier;
mod entries;
mod fields;
mod finding;
mod flaw;
mod laws;
mod lists;
mod owners;
mod probing;
mod protos;
mod region_rows;
mod roots;
mod rows;
mod sizes;
mod stores;

pub use checker::{CheckStop, Checker, check, has_rows};
pub use counts::Counts;
pub use flaw::Flaw;
pub use laws::laws_of_flaws;
