//! Tests of the table that helpers read, of a heap's main seat at it, of the mutator's whole steps, of markers, of
//! places that seats claim, and of workers that copy eden. The crate has no items of its own but the cycles that its
//! tests open: with no cell to begin with, with two, with three, with those that pages are cut into, and one that goes
//! on as it waited.
#![tactic(auto)]

#[cfg(test)]
mod barrier;
#[cfg(test)]
mod cells;
#[cfg(test)]
mod crews;
#[cfg(test)]
mod cycles;
#[cfg(test)]
mod eden;
#[cfg(test)]
mod gated;
#[cfg(test)]
mod grids;
#[cfg(test)]
mod kinds;
#[cfg(test)]
mod main_steps;
#[cfg(test)]
mod markers;
#[cfg(test)]
mod mutators;
#[cfg(test)]
mod open_mains;
#[cfg(test)]
mod opened_mutators;
#[cfg(test)]
mod rounds;
#[cfg(test)]
mod scans;
#[cfg(test)]
mod seats;
#[cfg(test)]
mod sizes;
#[cfg(test)]
mod steps;
#[cfg(test)]
mod visits;
#[cfg(test)]
mod waiting_mains;
