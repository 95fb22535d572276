//! Weak maps: their entries, by the addresses of the cells of maps and keys. An entry keeps its value
//! alive only while its key is (ephemerons).
//!
//! Model: none of its own. `specs/EntryChanges.antt` says what `put`, `get` and `delete` do of each
//! graph that the heap shows; `specs/PairChanges.antt` what they do of the pairs of a map's table,
//! `specs/Pairs.antt` what `remove_at` does, and `specs/PutWords.antt` which words `put` writes.
//! `specs/PairWrites.antt` says which words were written, pair by pair, and the laws what this makes of
//! the heap and of the graph. Entries are found by linear probing, from the number of the key's object
//! on (`linear_probing`), and removed by backward-shift deletion; `weak_pairs` has what is of the pairs
//! alone.
//! Invariant: none. `IsShownKey` is what a call needs: the heap shows a graph, and a weak map and an
//! object of it stand at the addresses.
#![tactic(auto)]

mod adding;
mod clearing;
mod deleting;
mod getting;
mod growing;
mod laws;
mod maps;
mod probing;
mod putting;
mod removing;
mod replacing;
mod stop;
mod table;

pub use clearing::remove_at;
pub use deleting::delete;
pub use getting::get;
pub use laws::{laws_of_entries, laws_of_pairs};
pub use maps::put;
pub use probing::key_of;
pub use stop::TableStop;
pub use table::table_of;
