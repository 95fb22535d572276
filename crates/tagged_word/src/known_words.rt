//! Headers and layout words that are known to be such: they are taken apart, and nothing is asked of their bits.
ghost use Rattle.std.specs.Prelude.{◌≡◌, ℕ};
ghost use Rattle.tagged_word.specs.Headers.{IsHeader, header_bits};
ghost use Rattle.tagged_word.specs.Layouts.{IsLayout, kind_number, layout_bits};

use crate::header::Header;
use crate::layout::{Kind, LayoutWord};

impl Header {
    /// The header of which a word is known to have the bits.
    #[inline(always)]
    pub fn of_bits(word: u64) -> Header
        requires { (header : Header) × IsHeader header × (word ≡ header_bits header) }
        ensures { (header : Header) → IsHeader header → word ≡ header_bits header → result ≡ header }
    {
        Header {
            shape: (word % 4_294_967_296) as u32 / 4,
            object: (word / 4_294_967_296) as u32,
        }
    }
}

impl Kind {
    /// The kind that is known to have a number.
    #[inline(always)]
    fn of_known_number(number: u64) -> Kind
        requires { (kind : Kind) × (number ≡ kind_number kind) }
        ensures { (kind : Kind) → number ≡ kind_number kind → result ≡ kind }
    {
        // Of 1 to 8 the remainders by 8 are eight, so that the built program has no test.
        match number % 8 {
            1 => Kind::Plain,
            2 => Kind::List,
            3 => Kind::Weak,
            4 => Kind::Store,
            5 => Kind::Table,
            6 => Kind::Boxed,
            7 => Kind::Filler,
            _ => Kind::Gap,
        }
    }
}

impl LayoutWord {
    /// The layout of which a word is known to have the bits.
    #[inline(always)]
    pub fn of_bits(word: u64) -> LayoutWord
        requires { (layout : LayoutWord) × IsLayout layout × (word ≡ layout_bits layout) }
        ensures { (layout : LayoutWord) → IsLayout layout → word ≡ layout_bits layout → result ≡ layout }
    {
        LayoutWord {
            kind: Kind::of_known_number(word % 16),
            cap: (word / 16 % 16) as u32,
            used: (word / 256 % 16) as u32,
            raw: (word / 4096 % 256) as u32,
        }
    }
}
