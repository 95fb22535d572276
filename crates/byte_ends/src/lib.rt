//! Where bytes come from and where they go: sources, sinks and the writing of a whole piece.
//!
//! Model: a source is what it has left, where it tells it. A sink says of each list of bytes
//! whether it may have taken just these. Both count their faults: a call that fails raises the
//! count, and any other call leaves it as it was.
//! Invariant: each end keeps its own, such as that a sink in memory has all its memory from the
//! beginning.
#![tactic(auto)]

mod copying;
mod ends;
mod memory;
mod settling;
mod standard;
mod sure;
mod writing;

pub use ends::{Failed, Sink, Source};
pub use memory::{MemSink, MemSource};
pub use standard::{StdSink, StdSource};
pub use sure::{SureSource, Tally};
pub use writing::write_all;
