//! A cycle of marking on a heap that shows a graph: it is opened, with its roots shaded, and closed before its marking
//! has ended.
//!
//! Model: none of its own. `OpensCycle` of `specs/Opened.antt` is what an opening makes of the mutator. After it the
//! heap shows the graph in the open cycle, as `MainShows` of `write_barrier` says.
//! Invariant: none.
#![tactic(auto)]

mod closing;
mod opening;
mod shading;

pub use closing::drop_cycle;
pub use opening::open_cycle;
