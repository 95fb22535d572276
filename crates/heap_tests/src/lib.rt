//! Tests of opened heaps: of their words and images, of room for cells, and of what is written there.
//!
//! Model: none, since nothing stands here but tests. Each is a table, with values that are written
//! out by hand, over the public calls of the crates below.
#![tactic(auto)]

#[cfg(test)]
mod given_cells;
#[cfg(test)]
mod opened_heaps;
#[cfg(test)]
mod opened_words;
