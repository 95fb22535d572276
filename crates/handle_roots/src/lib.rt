//! Handle roots: the variables of a script, two words each, as references from outside the heap.
//!
//! Model: none of its own. `Holds` of `specs/Roots.antt` says what the root words of a variable
//! stand for.
//! Invariant: none. Each call works on any words that a crate above has.
#![tactic(auto)]

mod both_words;
mod first_words;
mod given;
mod held;
mod laws;
mod roots;

pub use both_words::{RootPair, small_word, wide_word, words_of};
pub use given::Given;
pub use held::Held;
pub use laws::laws_of_roots;
pub use roots::{
    given_by, held_by, is_bound, referred, root_words, small_by, small_word_by, wide_by,
};
