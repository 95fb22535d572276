//! Values by the words that slots have for them.
ghost use Rattle.std.specs.Prelude.{◌≡◌, true};
ghost use Rattle.tagged_word.specs.Words.{small};
ghost use Rattle.handle_roots.specs.declared.held.Held.{Held as What};
ghost use Rattle.handle_roots.specs.declared.held.Held.TheVariants as held;
ghost use Rattle.handle_roots.specs.Roots.{FitsHeld, first_word};
ghost use Rattle.handle_roots.specs.Givens.{IsGivenFor, has_slot_word};

use crate::first_words::held_by_first;
use crate::held::Held;
use tagged_word::{Word, odd};

/// What a variable holds, or an operand stands for: by the word that a slot has for it, where a slot has one.
#[derive(Clone, Copy)]
pub enum Given {
    /// The word of a small integer, of a reference or of `undefined`.
    Word(Word),
    /// An integer. It may be small too.
    Int(i64),
}

impl Given {
    /// An integer, by its word where it is small.
    #[inline(always)]
    pub fn integer(v: i64) -> Given
        ensures gives { IsGivenFor result (held.Int v) }
        ensures by_word { small v ≡ true → (word : Word) × (result ≡ Given.Word word) }
    {
        match Word::small(v) {
            Some(word) => Given::Word(word),
            None => Given::Int(v),
        }
    }

    /// `undefined`, by its word.
    #[inline(always)]
    pub fn undefined() -> Given
        ensures { IsGivenFor result held.Undefined }
    {
        Given::Word(Word::odd(odd::UNDEFINED))
    }

    /// The value.
    #[inline(always)]
    pub fn held(self) -> Held
        requires { (held : What) × IsGivenFor self held }
        ensures { (held : What) → IsGivenFor self held → result ≡ held }
    {
        match self {
            Given::Word(word) => held_by_slot_word(word),
            Given::Int(v) => Held::Int(v),
        }
    }
}

/// What the word of a slot stands for that is a first root word too.
#[inline(always)]
fn held_by_slot_word(word: Word) -> Held
    requires { (held : What) × IsGivenFor (Given.Word word) held }
    ensures { (held : What) → IsGivenFor (Given.Word word) held → result ≡ held }
{
    match held_by_first(word.0) {
        Some(held) => held,
        None => unreachable!(),
    }
}

/// Whether a first root word is the word that a slot has for what it tells.
#[inline(always)]
pub(crate) fn is_slot_word(word: u64) -> bool
    requires { (held : What) × FitsHeld held × (word ≡ first_word held) }
    ensures { (held : What) → FitsHeld held → word ≡ first_word held → result ≡ has_slot_word held }
{
    word % 4 != 3 || word == Word::odd(odd::UNDEFINED).0
}
