//! The run of a script on a heap: its lines in the order of execution, the limit on them, and the
//! bytes that they write.
//!
//! Model: a run has come so far as it has executed lines. `RanTo` of `specs/Reached.antt` says that a
//! heap shows the graph after them, `Spends` of `specs/Spending.antt` from which words of eden and of
//! free runs the lines had what they needed, and how far and why the heap was collected between them,
//! and `EndsAs` of `specs/Runs.antt` in what way a run ends. `Finishes` is what `run_script` promises.
//! Invariant: between two lines the place in the script and the turns left of its open blocks stand
//! for the lines that are left to execute, what was told was handed on or waits in the output, and no
//! word of a page is granted.
#![tactic(auto)]

mod collecting;
mod commands;
mod execute;
mod finished;
mod flushing;
mod inspecting;
mod interpreter;
mod lines;
mod loop_counters;
mod making_room;
mod pace;

pub use finished::{Finished, How};
pub use inspecting::{Inspection, Inspector, Judge};
pub use interpreter::run_script;
pub use mutator::Output;
