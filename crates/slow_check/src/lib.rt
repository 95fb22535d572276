//! Slow check: what a whole heap shows and keeps, found out by looking at each cell, for crates of tests alone.
//!
//! Model: none of its own. `Shows` of `heap_model` says which graph a heap shows; each function here
//! returns whether one part of it holds, and `shows` puts them together. `are_remembered` and
//! `are_free_runs` return what `AreRemembered` and `AreFreeRuns` of `heap_model` say of pages, and
//! `is_moved` what `IsMoved` of `heap_moves` says of two heaps. `is_exact` and `fits` return what
//! `Exact` and `Fits` of `live_cells` say.
//! Invariant: none. Whether a heap is whole is decided by `heap_check`; what needs it requires it.
//! The judges are slow: each object that can be reached is looked for in the whole heap.
#![tactic(auto)]

mod bindings;
mod dead;
mod entries;
mod exact;
mod fields;
mod fitting;
mod free;
mod lists;
mod moved;
mod moved_cells;
mod moved_roots;
mod moved_words;
mod moves;
mod naming;
mod objects;
mod pairs;
mod paths;
mod places;
mod remembered;
mod shown;
mod tables;
mod values;
mod weak;

pub use exact::is_exact;
pub use fitting::fits;
pub use free::are_free_runs;
pub use moved::is_moved;
pub use moves::Move;
pub use objects::show_reached;
pub use remembered::are_remembered;
pub use shown::shows;
