//! Words: a list of 64-bit words by their addresses, to read and to write.
//!
//! Model: a list of words; an address is a place in it, counted from 0. `Reads` and `Words` are
//! what the crates above are generic over, so that the same code serves the heap, an image and a
//! table that threads share. `Rest` of `Reads` is what stands beside the words.
//! Invariant: there are fewer than 2^32 words, and their number stays.
#![tactic(auto)]

mod copying;
mod slice_words;
mod vec_words;
mod words;

pub use copying::copy;
pub use slice_words::SliceWords;
pub use vec_words::VecWords;
pub use words::{Reads, Words};
