//! Words of the heap: what 64 bits stand for, the header that a cell begins with, and the layout
//! word of its shape, which tells how many words the cell has and which of them are slots.
//!
//! Model: a word is its bits. `Class` says what the bits of a slot stand for, and `bits_of` of
//! `specs/Words.antt` gives the bits of each class. A header and a small integer may have the same
//! bits: the place of a word tells them apart. `IsLayout` of `specs/Layouts.antt` says which layouts
//! there are. `cell_size`, `tagged_offsets` and `scavenge_offsets` of `specs/Cells.antt` are the
//! table of cells, and `ReadsAs` there says which cell stands at an address. `specs/Readings.antt`
//! has the same as functions of words, as `read_cell`; a call that reads a cell stands elsewhere.
//! Invariant: none of its own. A layout may be any: what asks for one of `IsLayout` says so.
#![tactic(auto)]

pub mod cell;
mod header;
mod known_words;
mod layout;
mod no_memory;
pub mod odd;
mod reading;
pub mod shape;
mod word;

pub use header::Header;
pub use layout::{Kind, LayoutWord};
pub use no_memory::NoMemory;
pub use reading::{Reading, laws_of_readings};
pub use word::{Class, Word, is_small};
