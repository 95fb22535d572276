//! The table of a heap's words, and the seat from which the thread that runs commands reads and writes them.
//!
//! Model: a `Seat` of `specs/Seats.antt`: the regions, the phase, the heap words, which are those before the marks, and
//! what is known of the table that helpers read (`shared_table`), where there is one.
//! Invariant: there is a word for each address before the marks. In each phase the shared table has the same words in
//! its pages. Its layout words are known by themselves.
#![tactic(auto)]

mod board;
mod copies;
mod cycles;
mod lending;
mod main_seat;
mod marking;
mod sharing;

pub use main_seat::{HeapTable, MainSeat};
pub use shared_table::{Choice, Colour, HelperSeat, OwnWords, Phase, SharedTable};
