//! Shape change: the fields and prototypes of plain objects, by the addresses of their cells.
//!
//! Model: none of its own. `specs/FieldChanges.antt` says what `get`, `set` and `delete` do of each
//! graph that the heap shows, and `specs/Prototypes.antt` what `would_ring` and `set_proto` do. What
//! the words that the calls write make of the object's cells and of the graph is in `object_cells`.
//! Invariant: none. A call on fields needs that the heap shows a graph, and that a plain object of it stands at the
//! address (`IsShownPlain` of `object_cells`); `AreShownPlain` and `MaySetProto` say it for prototypes.
#![tactic(auto)]

mod add_field;
mod add_in_store;
mod delete_field;
mod field_value;
mod get_field;
mod outcome;
mod prototypes;
mod set_field;
mod set_slot;
mod shift_slots;
mod slots;
mod stop;
mod transitions;

pub use delete_field::delete;
pub use field_value::FieldValue;
pub use get_field::get;
pub use outcome::FieldOutcome;
pub use prototypes::{set_proto, would_ring};
pub use set_field::set;
pub use stop::FieldStop;
