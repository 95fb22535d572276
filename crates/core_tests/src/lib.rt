//! The tests of the cores and of what they stand on: lists of events as data, each walked over one
//! world, and what the calls of lists, boards and tables answer. All values are worked out by hand.
//!
//! Model: none. The crate has no items of its own, and nothing stands on it.
//! Invariant: none of its own.
#![tactic(auto)]

#[cfg(test)]
mod black_cells;
#[cfg(test)]
mod changes;
#[cfg(test)]
mod conditions;
#[cfg(test)]
mod marking;
#[cfg(test)]
mod probing;
#[cfg(test)]
mod scavenging;
#[cfg(test)]
mod seats;
#[cfg(test)]
mod text;
