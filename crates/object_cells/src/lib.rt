//! Object cells: what words that are written in an object's own cells make of the heap, and of the
//! graph that it shows.
//!
//! Model: none of its own. `specs/CellWrites.antt` says which words were written, and
//! `specs/OwnSlots.antt` where the word of each slot comes from; `laws_of_writes` says what this makes
//! of the cells of an object, `laws_of_capacities` what of how many slots objects have, and
//! `laws_of_refills` what a change of its cells makes of the graph. `specs/SlotChanges.antt` and
//! `laws_of_slots` say what the slots of a plain object then show, `specs/ElementChanges.antt` and
//! `laws_of_elements` those of a list.
//! `content_of` is what the slot of a field holds for a value. `formats.rt` has the words of boxes and
//! stores; `stores.rt` and `boxes.rt` make those that objects need, and say which words that puts, and
//! what becomes of the recorded slots; `lists.rt` reads a list's length.
//! `specs/CycleChanges.antt` says what a change of cells leaves of an open cycle of marking.
//! Invariant: none. The calls that write show how they wrote, and nothing of graphs or owners.
#![tactic(auto)]

mod boxes;
mod content;
mod formats;
mod laws;
mod lists;
mod stores;

pub use boxes::{boxed_word, fill, filling_of, need_of};
pub use content::{SlotContent, SlotWrite, content_for, content_of, rep_of};
pub use formats::{STORE, fill_store, make_box};
pub use laws::{
    laws_of_capacities, laws_of_elements, laws_of_refills, laws_of_slots, laws_of_writes,
};
pub use lists::{Range, checked_index, count_of};
pub use stores::{Store, begin_store, make_store, room_for, store_of};
