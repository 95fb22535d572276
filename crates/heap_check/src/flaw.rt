//! A word that breaks a heap, and what is asked for in its place.
ghost use Rattle.std.specs.Prelude.{◌≡◌};
ghost use Rattle.heap_check.specs.Firsts.{asked_of};

use tagged_word::{Word, odd};
use thiserror::Error;

/// A word of an image that breaks a whole heap.
#[derive(Clone, Copy, Debug, PartialEq, Eq, Error)]
#[error("word {at} is {found}, and {wanted} is asked for")]
pub struct Flaw {
    /// Its address. What is no word of a heap has the number of a heap's words here: how many words of eden are used,
    /// how many words the survivors have, and how many words there are.
    pub at: u32,
    /// The word that stands there, or that number.
    pub found: u64,
    /// The word that is asked for.
    pub wanted: u64,
}

/// What is asked for in a slot that may hold several words: `undefined`, or the hole where `undefined` stands.
pub(crate) fn asked_of(found: u64) -> u64
    ensures { result ≡ asked_of found }
{
    if found == Word::odd(odd::UNDEFINED).0 {
        Word::odd(odd::HOLE).0
    } else {
        Word::odd(odd::UNDEFINED).0
    }
}
