//! The odd values: what is neither a small integer nor a reference, each by its code.
ghost use Rattle.std.specs.Prelude.{◌≡◌};
ghost use Rattle.tagged_word.specs.Odds.{undefined_code, hole_code, unbound_code, wide_code};

/// The value `undefined`.
pub const UNDEFINED: u32 = 0;

/// A place that holds nothing.
pub const HOLE: u32 = 1;

/// In a root word: the variable is bound to nothing.
pub const UNBOUND: u32 = 2;

/// In a root word: the variable's second word is the integer.
pub const WIDE: u32 = 3;

/// The codes are those of the table in `specs/Odds.antt`.
pub fn codes_are_those_of_the_table()
    ensures undefined { UNDEFINED ≡ undefined_code }
    ensures hole { HOLE ≡ hole_code }
    ensures unbound { UNBOUND ≡ unbound_code }
    ensures wide { WIDE ≡ wide_code }
{}
