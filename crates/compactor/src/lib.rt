//! Compaction of pages: the cells of each page that are not free move together to its front, and what is left of the
//! page becomes one free cell and one free run. Cells of the young generation stay in place.
//!
//! Model: of `Moves`, a `Table` of `specs/Tables.antt`: where each cell of a page comes. `Compacts` of
//! `specs/Compacted.antt` is what a compaction comes to.
//! Invariant: `Slid` of `specs/Sliding.antt`, between two pages: the pages before one are packed, and the words of
//! those after it are as they were. A header is read until its page is packed, so places stand in a table of their own.
#![tactic(auto)]

mod beside;
mod compacting;
mod copying;
mod moves;
mod pages;
mod places;

pub use compacting::compact;
pub use moves::Moves;
