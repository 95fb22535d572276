//! Tests of kept heaps: what a run leaves, judged against the ideal meaning of its script.
//!
//! Model: none, since nothing stands here but tests.
#![tactic(auto)]

#[cfg(test)]
mod full_heaps;
#[cfg(test)]
mod kept_heaps;
#[cfg(test)]
mod runs;
