//! Tests of whole runs over memory: what no clause says, and what no script for the built program can
//! show. Expected values are from the language's description and that of cells.
//!
//! It has no items of its own: it stands apart from the crates that it tests, so that these are proved
//! once. Scripts that show what they write stand in `rows/`.
#![tactic(auto)]

#[cfg(test)]
mod counts;
#[cfg(test)]
mod ends;
#[cfg(test)]
mod images;
#[cfg(test)]
mod outputs;
#[cfg(test)]
mod runs;
