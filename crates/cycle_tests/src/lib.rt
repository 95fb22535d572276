//! Tests of commands while a cycle of marking is open: what helpers would read after each of them. The crate has no
//! items of its own but what its tests go through.
#![tactic(auto)]

#[cfg(test)]
mod cases;
#[cfg(test)]
mod commands;
#[cfg(test)]
mod fields;
#[cfg(test)]
mod lists;
#[cfg(test)]
mod seen;
#[cfg(test)]
mod weak_maps;
#[cfg(test)]
mod widening;
#[cfg(test)]
mod young_hosts;
