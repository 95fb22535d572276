//! Steps of seats: what a core that marks and a core that scavenges share. Both are pure data: a
//! world changes event by event, and a log says what each step found.
//!
//! Model: a world's lists are `Items`, which contracts see as lists. `specs/Lists.antt` says which
//! list an address leaves behind when it joins or leaves, and `specs/Boards.antt` what a step does
//! to a word of the board and to the list of its seat, as functions of the word that it finds.
//! Invariant: none of its own. `laws_of_lists` and `laws_of_boards` say what the functions come to.
#![tactic(auto)]

mod board;
mod cell;
mod items;
mod list;
mod note;
mod stop;

pub use board::{empty_board, give, laws_of_boards, take};
pub use cell::{layout_of, read_cell};
pub use items::Items;
pub use list::{join, laws_of_lists, leave};
pub use note::Note;
pub use stop::StepStop;
