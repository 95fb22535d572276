//! The graph of objects that a heap script means, of which nothing is ever collected.
//!
//! Model: a `Graph` of `specs/Graphs.antt` is the list of all objects ever made, what each variable
//! is bound to, and the list of field paths. `does` of `specs/Meaning.antt` is the meaning of a
//! command, `told` and `ending` of `specs/Run.antt` are the run of executed lines and how it ends,
//! and `reach` of `specs/Reach.antt` is what a program can get to from its variables.
//! Invariant: `IsGraph` of `specs/Invariants.antt` holds of each graph that a script makes.
#![tactic(auto)]

pub mod limits;
mod object;
mod path;
mod value;

pub use object::{Elements, Entries, Entry, Field, Fields, Object};
pub use path::{Path, PathField, PathFields};
pub use value::{Rep, Value};
