//! The two root words of a value.
ghost use Rattle.std.specs.Prelude.{◌≡◌, IsTrue, false};
ghost use Rattle.tagged_word.specs.Words.{small};
ghost use Rattle.handle_roots.specs.declared.held.Held.TheVariants.{Int};
ghost use Rattle.handle_roots.specs.Roots.{first_word, second_word};
ghost use Rattle.handle_roots.specs.RootValues.{AreWordsOf};

use crate::held::Held;
use tagged_word::{Word, odd};

/// The two root words of a variable.
#[derive(Clone, Copy)]
pub struct RootPair {
    /// The first: it tells all but an integer that is not small.
    pub first: u64,
    /// The second: the integer that is not small, and else 0.
    pub second: u64,
}

/// The root words of a value.
#[inline(always)]
pub fn words_of(value: Held) -> RootPair
    ensures { AreWordsOf value result }
{
    match value {
        Held::Unbound => of_first(Word::odd(odd::UNBOUND)),
        Held::Undefined => of_first(Word::odd(odd::UNDEFINED)),
        Held::Ref(at) => of_first(Word::reference(at)),
        Held::Int(v) => words_of_integer(v),
    }
}

/// The root words of an integer. That it is small is asked once for the two.
#[inline(always)]
fn words_of_integer(v: i64) -> RootPair
    ensures { AreWordsOf (Int v) result }
{
    match Word::small(v) {
        Some(word) => of_first(word),
        None => RootPair {
            first: Word::odd(odd::WIDE).0,
            second: wide_word(v),
        },
    }
}

/// The root words of a value that the first word tells.
#[inline(always)]
fn of_first(word: Word) -> RootPair
    ensures first { result.first ≡ word.0 }
    ensures second { result.second ≡ 0 }
{
    RootPair {
        first: word.0,
        second: 0,
    }
}

/// The first root word of a small integer. Its second is 0.
#[inline(always)]
pub fn small_word(v: i64) -> u64
    requires { IsTrue (small v) }
    ensures { result ≡ first_word (Int v) }
{
    let Some(word) = Word::small(v) else {
        unreachable!()
    };
    word.0
}

/// The second root word of an integer that is not small. Its first says so.
#[inline(always)]
pub fn wide_word(v: i64) -> u64
    requires { small v ≡ false }
    ensures { result ≡ second_word (Int v) }
{
    v.cast_unsigned()
}
