//! The parts of the slow program: what it does to one list, one path, one list of marks and one tree of
//! bindings, how it finds an object, and what it writes.
//!
//! Model: none of its own. Each function's clause is a definition of `object_graph`.
//! Invariant: a list is changed in a copy, so want of memory leaves it as it was.
#![tactic(auto)]

mod bindings;
mod keyed;
mod lookups;
mod marks;
mod paths;
mod places;
mod protos;
mod texts;

pub use bindings::{bind, has_none_from, unbind};
pub use keyed::{Keyed, value_under, with_value, without_key};
pub use lookups::{List, Plain, Weak, has_no_room, is_full_for, list_at, plain_at, weak_at};
pub use marks::{count_marked, is_marked, mark, mark_links, marked_entries};
pub use paths::{empty_paths, missing, path_of, same_path};
pub use places::{count_of, element_at, integer, key, place_in};
pub use protos::{field_along, makes_ring, proto_for};
pub use texts::{census_text, shape_text, value_text};
