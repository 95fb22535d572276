//! Tests of markings with a head start, on heaps that runs of scripts leave.
//!
//! Model: none, since nothing stands here but tests. What a marking is given and what it marks is written out by hand.
#![tactic(auto)]

#[cfg(test)]
mod cases;
#[cfg(test)]
mod found_cells;
#[cfg(test)]
mod left_heaps;
#[cfg(test)]
mod markings;
#[cfg(test)]
mod starts;
