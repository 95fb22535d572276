//! The whole program as one call: from the words and the source to the bytes and the status.
//!
//! Model: a source is what it has left and a sink which bytes it may have taken, each with a count of
//! faults; both may tell nothing. `Comes` of `specs/Answers.antt` says what a run comes to, and
//! `Taken` what of it the sink took. `laws_of_answers` says what follows of the heap that is kept.
//! Invariant: none of its own. Each part hands on what the call below it promised.
#![tactic(auto)]

mod ended;
mod generated;
mod last_line;
mod laws;
mod opened;
mod program;
mod soaking;
mod source_bytes;

pub use byte_ends::{
    Failed, MemSink, MemSource, Sink, Source, StdSink, StdSource, SureSource, Tally,
};
pub use crew::{Gate, OpenGate, Point};
pub use ended::{Ended, Kept};
pub use laws::laws_of_answers;
pub use program::{run, run_without_words};
