//! The command line of `heaprun`: the words after the program's name, read as an invocation.
//!
//! Model: the words are a list of texts, each the list of its bytes. `given_of` of
//! `specs/Given.antt` says which options and positional words they give, and `invocation_of` of
//! `specs/Invocations.antt` what they ask for.
//! Invariant: none.
#![tactic(auto)]

mod invocation;
mod laws;
mod number;
mod options;
mod parting;
mod plan;
mod reading;
mod rows;

pub use invocation::{Invocation, WordsStop};
pub use laws::laws_of_sizes;
pub use page_space::Sizes;
pub use reading::read_words;
pub use rows::{
    checked_rows, generated_rows, refused_number_rows, refused_soak_rows, refused_word_rows,
    run_rows, soaked_rows,
};
