//! Tests of what a heap script means: of `heap_command` and of the slow program of `ideal_graph`,
//! over their public calls. It has no items of its own. Scripts stand here as text, those with prototypes as commands.
#![tactic(auto)]

#[cfg(test)]
mod faults;
#[cfg(test)]
mod limits;
#[cfg(test)]
mod meaning;
#[cfg(test)]
mod prototypes;
