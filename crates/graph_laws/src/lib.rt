//! Laws of what a heap script means: of its runs, of its commands, of the graphs that it makes, of
//! what it can reach, of prototypes, and of the limits of graphs.
//!
//! Model: none of its own. Each function does nothing, and each of its clauses is a law: a fact of
//! every graph, command and list of lines, in the words of `specs/`.
//! Invariant: none of its own. `laws_of_graphs` says that every graph of a script has the one of
//! graphs.
#![tactic(auto)]

mod laws;
mod limit_laws;
mod proto_laws;
mod reach_laws;

pub use laws::{laws_of_commands, laws_of_graphs, laws_of_runs};
pub use limit_laws::laws_of_limits;
pub use proto_laws::laws_of_prototypes;
pub use reach_laws::{laws_of_commands_and_reach, laws_of_reach};
