//! Tests of moved heaps: heaps that runs keep before and after scavenges, and ones forged of them,
//! judged.
//!
//! Model: none, since nothing stands here but tests.
#![tactic(auto)]

#[cfg(test)]
mod copied_objects;
#[cfg(test)]
mod linked_cells;
#[cfg(test)]
mod moved_heaps;
