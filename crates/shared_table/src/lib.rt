//! The table that helpers read while the mutator runs: the words of the pages, the layout words, the colours of the
//! pages' words, and the board, as words that change in single atomic steps.
//!
//! Model: a `Side` of `specs/Seats.antt`: the table, and what the main seat knows of it (`Overview`).
//! Invariant: `KeepsRule` of `specs/Keeping.antt` is the rule of the table. While a cycle is open, its words and the
//! views of its seats are a world of `mark_world` that is sound and in which marking reaches born cells alone. Each
//! step of a seat is one event of that world. `OwnWords` are the words that the main seat's caller has besides, plain
//! ones.
#![tactic(auto)]

mod board;
mod colour;
mod cycles;
mod helper;
mod helper_plays;
mod helper_steps;
mod lending;
mod main_side;
mod overview;
mod own_words;
mod phase;
mod plays;
mod rule;
mod steps;
mod whitening;

pub use colour::Colour;
pub use helper::HelperSeat;
pub use main_side::MainSide;
pub use overview::{Counts, Lent, Overview, View};
pub use own_words::OwnWords;
pub use phase::Phase;
pub use plays::Choice;
pub use rule::{Ruled, SharedTable};
