//! The plain, slow program whose contract is the meaning of the commands. The running heap never
//! uses it.
//!
//! Model: `Ideal` is a `NamedGraph` of `specs/Steps.antt`, a graph with the names of its fields by
//! number. `Steps` says what a step may answer: the command's meaning, or want of memory.
//! Invariant: a fault and want of memory leave the graph as it was.
#![tactic(auto)]

mod ideal;

pub use heap_command::{Command, FaultWord, Operand};
pub use ideal::{Census, Ideal, IdealStop, Said};
pub use ideal_parts::is_marked;
pub use object_graph::{
    Elements, Entries, Entry, Field, Fields, Object, Path, PathField, PathFields, Rep, Value,
};
