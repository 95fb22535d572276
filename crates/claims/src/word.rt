//! The word of a place: the round in which it was last claimed in the upper half, and the value in the lower one.
ghost use Rattle.std.specs.Prelude.{◌≡◌};
ghost use Rattle.claims.specs.Halves.{word_of, round_in, value_in};

/// How many values a half of a word has.
const HALF: u64 = 4_294_967_296;

/// The word of a place that was claimed.
#[inline(always)]
pub(crate) fn word_of(round: u32, value: u32) -> u64
    ensures { result ≡ word_of round value }
{
    round as u64 * HALF + value as u64
}

/// The round in which the place was claimed.
#[inline(always)]
pub(crate) fn round_in(word: u64) -> u32
    ensures { result ≡ round_in word }
{
    (word / HALF) as u32
}

/// What the place was claimed for.
#[inline(always)]
pub(crate) fn value_in(word: u64) -> u32
    ensures { result ≡ value_in word }
{
    (word % HALF) as u32
}
