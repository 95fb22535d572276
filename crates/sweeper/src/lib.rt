//! The sweep of a full collection: what is not marked becomes free cells, and the free runs of pages are
//! made anew of them. Marked cells stay where they stand.
//!
//! Model: none of its own. `Sweeps` of `specs/Swept.antt` is what a sweep comes to.
//! Invariant: `Sweeping` of `specs/Sweeping.antt`, between two cells: each cell before an address is
//! marked, or in a gap, in whose words one free cell stands; free runs are the gaps of pages; recorded
//! is what was, but in the gaps; and no word beside these has changed.
#![tactic(auto)]

mod covering;
mod regions;
mod rows;

pub use regions::sweep;
