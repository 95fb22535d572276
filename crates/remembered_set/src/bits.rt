//! Flags, one for each word of the pages, as bits of words of 64: the first that is set, and
//! setting and clearing them. The flag of a place is bit `place % 64` of word `place / 64`.
ghost use Rattle.std.specs.Prelude.{◌≡◌, ◌*◌, ◌<◌, ◌≤◌, ◌↔◌, false, true, length, set, IsTrue, MatchOption};
ghost use Rattle.std.specs.Prelude.{slice_index_or};
ghost use Rattle.remembered_set.specs.Bits.{flags_of, HasNoBitFrom, IsFirstBitFrom};
ghost use Rattle.remembered_set.specs.Flags.{AreClear, IsFirstSet, ClearsBetween, CountsCleared};

/// The flags of a word.
const BITS: u32 = 64;

/// Sets the flag of a place, and answers whether it was clear.
pub(crate) fn note(bits: &mut [u64], place: u32) -> bool
    requires { place < 64 * length bits.old }
    ensures was_clear { IsTrue result ↔ (slice_index_or (flags_of bits.old) place false ≡ false) }
    ensures is_set { flags_of bits.new ≡ set (flags_of bits.old) place true }
{
    let word = bits[(place / BITS) as usize];
    bits[(place / BITS) as usize] = word | 1 << (place % BITS);
    word & 1 << (place % BITS) == 0
}

/// Whether the flag of a place is set.
#[inline(always)]
pub(crate) fn is_set(bits: &[u64], place: u32) -> bool
    requires { place < 64 * length bits.now }
    ensures { result ≡ slice_index_or (flags_of bits.now) place false }
{
    bits[(place / BITS) as usize] & 1 << (place % BITS) != 0
}

/// Clears the flag of a place.
#[inline(always)]
pub(crate) fn unset(bits: &mut [u64], place: u32)
    requires { place < 64 * length bits.old }
    ensures { flags_of bits.new ≡ set (flags_of bits.old) place false }
{
    let word = bits[(place / BITS) as usize];
    bits[(place / BITS) as usize] = word & !(1 << (place % BITS));
}

/// The first bit of a word that is set, from one on.
fn first_bit(word: u64, from: u32) -> Option<u32>
    requires { from < 64 }
    ensures { MatchOption result (HasNoBitFrom word from) (λ bit. IsFirstBitFrom word from bit) }
{
    let rest = word & u64::MAX << from;
    if rest == 0 {
        return None;
    }
    Some(rest.trailing_zeros())
}

/// The first flag that is set from a place up to, not including, another.
pub(crate) fn first_set(bits: &[u64], from: u32, to: u32) -> Option<u32>
    requires few { length bits.now ≤ 65536 }
    requires within { to ≤ 64 * length bits.now }
    ensures { MatchOption result
        (AreClear (flags_of bits.now) from to) (λ place. IsFirstSet (flags_of bits.now) from to place) }
{
    let mut at = from;
    while at < to {
        let start = at / BITS * BITS;
        if let Some(bit) = first_bit(bits[(at / BITS) as usize], at - start) {
            let place = start + bit;
            return if place < to { Some(place) } else { None };
        }
        at = start + BITS;
    }
    None
}

/// Clears the flags from a place up to, not including, another, and answers how many were set.
pub(crate) fn clear(bits: &mut [u64], from: u32, to: u32) -> u32
    requires few { length bits.old ≤ 65536 }
    requires within { to ≤ 64 * length bits.old }
    ensures as_many { length bits.new ≡ length bits.old }
    ensures cleared { ClearsBetween (flags_of bits.old) (flags_of bits.new) from to }
    ensures counted { CountsCleared (flags_of bits.old) (flags_of bits.new) from to result }
{
    let mut count = 0;
    let mut at = from;
    while let Some(place) = first_set(bits, at, to) {
        unset(bits, place);
        count += 1;
        at = place + 1;
    }
    count
}
