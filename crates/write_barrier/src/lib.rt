//! The mutator's side of a heap: stores with their barrier, and room for new cells.
//!
//! Model: a `Mutator` of `specs/MutatorState.antt`: the seat with its words, the field paths, the young
//! generation, the free runs of pages, which slots of pages are recorded, and what is known of the open cycle of
//! marking. `heap_of` is the heap that stands in the words. While a cycle waits the seat has its marks, too.
//! Invariant: an address is below the bound of what is recorded exactly if it is one of a page, and the layout
//! words of the shared table, where there is one, are those of the shapes. While a cycle of marking is open, or waits,
//! nothing is owed, and listed are just the grey cells that wait with the mutator. Else none is listed, all cells are
//! white, and no seat is out. There is none over the part that is lent.
//! `MainShows` of `specs/MutatorState.antt` is what holds between two commands; each call here says what it
//! changes, in the middle of a change too.
#![tactic(auto)]

mod cycles;
mod fills;
mod free_cells;
mod held_words;
mod laws;
mod layouts;
mod lending;
mod main_side;
mod marking;
mod opening;
mod page_writes;
mod paths;
mod room;
mod roots;
mod values;
mod writes;

pub use laws::laws_of_values;
pub use main_side::Main;
pub use room::NoRoom;
