//! The commands of a heap script, and the faults that stop one.
//!
//! Model: a command is plain data, in which variables and field names stand by their numbers. An
//! executed line of `specs/Executed.antt` is one step of a run: a line's number and what it runs.
#![tactic(auto)]

mod command;

pub use command::{CAP_MOST, Command, FaultWord, Operand};
