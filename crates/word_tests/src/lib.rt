//! Tests of words and of the places where they stand. The crate has no items of its own: each
//! module holds tables for the crates that its first lines name.
#![tactic(auto)]

#[cfg(test)]
mod bits;
#[cfg(test)]
mod borders;
#[cfg(test)]
mod cells;
#[cfg(test)]
mod heaps;
#[cfg(test)]
mod kinds;
#[cfg(test)]
mod lists;
#[cfg(test)]
mod loads;
#[cfg(test)]
mod places;
#[cfg(test)]
mod seats;
#[cfg(test)]
mod spaces;
#[cfg(test)]
mod variables;
