//! What a first root word tells by itself.
ghost use Rattle.std.specs.Prelude.{◌≡◌, ◌≢◌, ℕ, ℤ, IsTrue, IfSome, IsNone};
ghost use Rattle.handle_roots.specs.declared.held.Held.{Held};
ghost use Rattle.handle_roots.specs.declared.held.Held.TheVariants.{Int, Ref};
ghost use Rattle.handle_roots.specs.Roots.{FitsHeld, first_word};
ghost use Rattle.tagged_word.specs.Words.{small};
ghost use Rattle.handle_roots.specs.RootDecoding.{decoded, decoded_by};

use crate::held::Held;
use tagged_word::{Class, Word, odd};

/// What a first root word tells by itself; none where the integer is in the second.
#[inline(always)]
pub(crate) fn held_by_first(word: u64) -> Option<Held>
    requires { (held : Held) × FitsHeld held × (word ≡ first_word held) }
    ensures { (held : Held) → FitsHeld held → word ≡ first_word held → result ≡ decoded held }
{
    held_by_class(Word(word).known_class())
}

/// What the class of a first root word tells.
#[inline(always)]
fn held_by_class(class: Class) -> Option<Held>
    ensures { result ≡ decoded_by class }
{
    match class {
        Class::Small(v) => Some(Held::Int(v as i64)),
        Class::Ref(at) => Some(Held::Ref(at)),
        Class::Odd(odd::UNDEFINED) => Some(Held::Undefined),
        Class::Odd(odd::UNBOUND) => Some(Held::Unbound),
        Class::Odd(_) => None,
    }
}

/// The small integer of a first root word, if it is that of one.
#[inline(always)]
pub(crate) fn small_by_first(word: u64) -> Option<i64>
    requires { (held : Held) × FitsHeld held × (word ≡ first_word held) }
    ensures holds { (held : Held) → FitsHeld held → word ≡ first_word held →
        IfSome result (λ v. IsTrue (small v) × (held ≡ Int v)) }
    ensures none { IsNone result → (v : ℤ) → IsTrue (small v) → FitsHeld (Int v) → word ≢ first_word (Int v) }
{
    // The lowest bit tells it, and the whole word halved is the integer.
    if word % 2 == 0 {
        Some(word.cast_signed() >> 1)
    } else {
        None
    }
}

/// The address that a first root word refers to, if it is that of a reference.
#[inline(always)]
pub(crate) fn referred_by_first(word: u64) -> Option<u32>
    requires { (held : Held) × FitsHeld held × (word ≡ first_word held) }
    ensures refers { (held : Held) → FitsHeld held → word ≡ first_word held →
        IfSome result (λ at. held ≡ Ref at) }
    ensures none { IsNone result → (at : ℕ) → word ≢ first_word (Ref at) }
{
    // The second test never fails where the first does not. By both the compiler has one mask, and knows that the
    // address has 32 bits.
    if word % 4 == 1 && word / 4 <= u32::MAX as u64 {
        Some((word / 4) as u32)
    } else {
        None
    }
}
