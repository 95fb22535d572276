//! What the variables hold, read off their root words.
ghost use Rattle.std.specs.Prelude.{◌≡◌, ◌≢◌, ◌↔◌, ◌+◌, ◌<◌, ℕ, ℤ};
ghost use Rattle.std.specs.Prelude.{IsTrue, IfSome, IsNone, false};
ghost use Rattle.page_space.specs.Extents.{layouts_start};
ghost use Rattle.handle_roots.specs.declared.held.Held.{Held};
ghost use Rattle.handle_roots.specs.declared.held.Held.TheVariants.{Unbound, Int, Ref};
ghost use Rattle.handle_roots.specs.Roots.{root_at, Holds, IsRoot};
ghost use Rattle.handle_roots.specs.RootValues.{AreWordsOf};
ghost use Rattle.tagged_word.specs.Words.{small};
ghost use Rattle.handle_roots.specs.Givens.{IsGivenFor, GivesHeld};

use crate::both_words::RootPair;
use crate::first_words::{held_by_first, referred_by_first, small_by_first};
use crate::given::{Given, is_slot_word};
use crate::held::Held;
use page_space::Regions;
use tagged_word::{Word, odd};
use word_store::Reads;

/// What a variable holds. Only an integer that is not small makes it load the second root word.
#[inline(always)]
pub fn held_by<W: Reads>(words: &mut W, regions: &Regions, variable: u32) -> Held
    requires known { variable < regions.now.variables }
    requires steady { W.IsSteady words.old }
    requires root { IsRoot regions.now (W.words words.old) variable }
    ensures holds { Holds regions.now (W.words words.old) variable result }
    ensures kept { W.words words.new ≡ W.words words.old }
    ensures rest { W.Rest words.old words.new }
{
    match held_by_first(words.load(regions.root_at(variable))) {
        Some(held) => held,
        None => Held::Int(words.load(second_at(regions, variable)).cast_signed()),
    }
}

/// Whether a variable is bound to something. Its first root word tells it.
#[inline(always)]
pub fn is_bound<W: Reads>(words: &mut W, regions: &Regions, variable: u32) -> bool
    requires known { variable < regions.now.variables }
    requires steady { W.IsSteady words.old }
    requires root { IsRoot regions.now (W.words words.old) variable }
    ensures bound { (held : Held) → Holds regions.now (W.words words.old) variable held →
        (IsTrue result ↔ (held ≢ Unbound)) }
    ensures kept { W.words words.new ≡ W.words words.old }
    ensures rest { W.Rest words.old words.new }
{
    words.load(regions.root_at(variable)) != Word::odd(odd::UNBOUND).0
}

/// What a variable holds, by the word that a slot has for it, where a slot has one; none where it is bound to nothing.
#[inline(always)]
pub fn given_by<W: Reads>(words: &mut W, regions: &Regions, variable: u32) -> Option<Given>
    requires known { variable < regions.now.variables }
    requires steady { W.IsSteady words.old }
    requires root { IsRoot regions.now (W.words words.old) variable }
    ensures given { GivesHeld regions.now (W.words words.old) variable result }
    ensures kept { W.words words.new ≡ W.words words.old }
    ensures rest { W.Rest words.old words.new }
{
    let word = words.load(regions.root_at(variable));
    if is_slot_word(word) {
        return Some(Given::Word(Word(word)));
    }
    match held_by(words, regions, variable) {
        Held::Int(v) => Some(Given::Int(v)),
        Held::Unbound | Held::Undefined | Held::Ref(_) => None,
    }
}

/// The address of the cell to which a variable refers, if it refers to one.
#[inline(always)]
pub fn referred<W: Reads>(words: &mut W, regions: &Regions, variable: u32) -> Option<u32>
    requires known { variable < regions.now.variables }
    requires steady { W.IsSteady words.old }
    requires root { IsRoot regions.now (W.words words.old) variable }
    ensures refers { IfSome result (λ at. Holds regions.now (W.words words.old) variable (Ref at)) }
    ensures none { IsNone result → (at : ℕ) → ¬ Holds regions.now (W.words words.old) variable (Ref at) }
    ensures kept { W.words words.new ≡ W.words words.old }
    ensures rest { W.Rest words.old words.new }
{
    referred_by_first(words.load(regions.root_at(variable)))
}

/// The small integer that a variable holds, if it holds one.
#[inline(always)]
pub fn small_by<W: Reads>(words: &mut W, regions: &Regions, variable: u32) -> Option<i64>
    requires known { variable < regions.now.variables }
    requires steady { W.IsSteady words.old }
    requires root { IsRoot regions.now (W.words words.old) variable }
    ensures holds { IfSome result (λ v. IsTrue (small v) × Holds regions.now (W.words words.old) variable (Int v)) }
    ensures none { IsNone result → (v : ℤ) → IsTrue (small v) →
        ¬ Holds regions.now (W.words words.old) variable (Int v) }
    ensures kept { W.words words.new ≡ W.words words.old }
    ensures rest { W.Rest words.old words.new }
{
    small_by_first(words.load(regions.root_at(variable)))
}

/// The integer that a variable holds in its second root word, if it holds one there.
#[inline(always)]
pub fn wide_by<W: Reads>(words: &mut W, regions: &Regions, variable: u32) -> Option<i64>
    requires known { variable < regions.now.variables }
    requires steady { W.IsSteady words.old }
    requires root { IsRoot regions.now (W.words words.old) variable }
    ensures holds { IfSome result (λ v. (small v ≡ false) × Holds regions.now (W.words words.old) variable (Int v)) }
    ensures none { IsNone result → (v : ℤ) → small v ≡ false →
        ¬ Holds regions.now (W.words words.old) variable (Int v) }
    ensures kept { W.words words.new ≡ W.words words.old }
    ensures rest { W.Rest words.old words.new }
{
    if words.load(regions.root_at(variable)) != Word::odd(odd::WIDE).0 {
        return None;
    }
    Some(words.load(second_at(regions, variable)).cast_signed())
}

/// The word of the small integer that a variable holds, if it holds one.
#[inline(always)]
pub fn small_word_by<W: Reads>(words: &mut W, regions: &Regions, variable: u32) -> Option<Word>
    requires known { variable < regions.now.variables }
    requires steady { W.IsSteady words.old }
    requires root { IsRoot regions.now (W.words words.old) variable }
    ensures holds { IfSome result (λ word. (v : ℤ) × IsTrue (small v) × IsGivenFor (Given.Word word) (Int v)
        × Holds regions.now (W.words words.old) variable (Int v)) }
    ensures none { IsNone result → (v : ℤ) → IsTrue (small v) →
        ¬ Holds regions.now (W.words words.old) variable (Int v) }
    ensures kept { W.words words.new ≡ W.words words.old }
    ensures rest { W.Rest words.old words.new }
{
    let word = words.load(regions.root_at(variable));
    if word % 2 == 0 {
        Some(Word(word))
    } else {
        None
    }
}

/// The root words of a variable.
#[inline(always)]
pub fn root_words<W: Reads>(words: &mut W, regions: &Regions, variable: u32) -> RootPair
    requires known { variable < regions.now.variables }
    requires steady { W.IsSteady words.old }
    requires root { IsRoot regions.now (W.words words.old) variable }
    ensures are { (held : Held) → Holds regions.now (W.words words.old) variable held → AreWordsOf held result }
    ensures kept { W.words words.new ≡ W.words words.old }
    ensures rest { W.Rest words.old words.new }
{
    let first = words.load(regions.root_at(variable));
    let second = words.load(second_at(regions, variable));
    RootPair { first, second }
}

/// The address of the second root word of a variable.
#[inline(always)]
fn second_at(regions: &Regions, variable: u32) -> u32
    requires { variable < regions.now.variables }
    ensures at { result ≡ root_at regions.now variable + 1 }
    ensures within { result < layouts_start regions.now }
{
    // No address of a heap is past 32 bits.
    regions.sizes_fit();
    regions.root_at(variable) + 1
}
