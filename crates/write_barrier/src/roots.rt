//! What the variables hold.
ghost use Rattle.std.specs.Prelude.{◌≡◌, ◌≢◌, ◌↔◌, ◌+◌, ◌<◌, ◌≤◌, ℕ, ℤ, IsTrue, IfSome, IsNone, false};
ghost use Rattle.tagged_word.specs.Words.{small};
ghost use Rattle.page_space.specs.Extents.{eden_start, marks_start};
ghost use Rattle.write_barrier.specs.Seats.{heap_words};
ghost use Rattle.handle_roots.specs.declared.held.Held.TheVariants.{Unbound, Int, Ref};
ghost use Rattle.handle_roots.specs.Givens.{IsGivenFor, GivesHeld};
ghost use Rattle.handle_roots.specs.declared.held.Held.{Held};
ghost use Rattle.handle_roots.specs.RootValues.{AreWordsOf};
ghost use Rattle.handle_roots.specs.Roots.{Holds, IsRoot, root_at, with_root};
ghost use Rattle.write_barrier.specs.MutatorState.{with_variable};

use crate::main_side::Main;
use handle_roots::{Given, Held, RootPair, held_by, root_words, small_word, wide_word, words_of};
use tagged_word::{Word, is_small};

/// Whether a value is a small integer.
#[inline(always)]
fn is_small_integer(value: Held) -> bool {
    match value {
        Held::Int(v) => is_small(v),
        Held::Unbound | Held::Undefined | Held::Ref(_) => false,
    }
}

impl Main {
    /// The address of the first root word of a variable. Both stand behind the pages, and before the marks.
    #[inline(always)]
    pub(crate) fn root_of(&self, variable: u32) -> u32
        requires { variable < self.now.seat.space.variables }
        ensures at { result ≡ root_at self.now.seat.space variable }
        ensures behind { eden_start self.now.seat.space ≤ result }
        ensures before { result + 1 < marks_start self.now.seat.space }
    {
        self.regions().root_at(variable)
    }

    /// Puts both root words of a variable: those of this value.
    #[inline(always)]
    fn put_roots(&mut self, variable: u32, pair: RootPair)
        requires known { variable < self.old.seat.space.variables }
        ensures held { (held : Held) → AreWordsOf held pair → self.new ≡ with_variable self.old variable held }
        ensures heap { (held : Held) → AreWordsOf held pair → let words = heap_words self.old.seat in
            heap_words self.new.seat ≡ with_root self.old.seat.space words variable held }
        ensures holds { (held : Held) → AreWordsOf held pair →
            Holds self.old.seat.space (heap_words self.new.seat) variable held }
    {
        self.addresses_fit();
        let root = self.root_of(variable);
        self.put_own(root, pair.first);
        self.put_own_slot(root, 1, pair.second);
    }

    /// The same, the second root word before the first.
    #[inline(always)]
    pub(crate) fn put_roots_from_second(&mut self, variable: u32, pair: RootPair)
        requires known { variable < self.old.seat.space.variables }
        ensures held { (held : Held) → AreWordsOf held pair → self.new ≡ with_variable self.old variable held }
        ensures heap { (held : Held) → AreWordsOf held pair → let words = heap_words self.old.seat in
            heap_words self.new.seat ≡ with_root self.old.seat.space words variable held }
        ensures holds { (held : Held) → AreWordsOf held pair →
            Holds self.old.seat.space (heap_words self.new.seat) variable held }
    {
        self.addresses_fit();
        let root = self.root_of(variable);
        self.put_own_slot(root, 1, pair.second);
        self.put_own(root, pair.first);
    }

    /// What a variable holds.
    #[inline(always)]
    pub fn held(&mut self, variable: u32) -> Held
        requires known { variable < self.old.seat.space.variables }
        requires root { IsRoot self.old.seat.space (heap_words self.old.seat) variable }
        ensures holds { let words = heap_words self.old.seat in
            Holds self.old.seat.space words variable result }
        ensures same { self.new ≡ self.old }
    {
        let regions = self.regions();
        held_by(self, &regions, variable)
    }

    /// What a variable holds, by the word that a slot has for it, where a slot has one; none where it is bound to
    /// nothing.
    #[inline(always)]
    pub fn given(&mut self, variable: u32) -> Option<Given>
        requires known { variable < self.old.seat.space.variables }
        requires root { IsRoot self.old.seat.space (heap_words self.old.seat) variable }
        ensures given { let words = heap_words self.old.seat in
            GivesHeld self.old.seat.space words variable result }
        ensures same { self.new ≡ self.old }
    {
        let regions = self.regions();
        handle_roots::given_by(self, &regions, variable)
    }

    /// The address of the cell to which a variable refers, if it refers to one.
    #[inline(always)]
    pub fn referred(&mut self, variable: u32) -> Option<u32>
        requires known { variable < self.old.seat.space.variables }
        requires root { IsRoot self.old.seat.space (heap_words self.old.seat) variable }
        ensures refers { let words = heap_words self.old.seat in
            IfSome result (λ at. Holds self.old.seat.space words variable (Ref at)) }
        ensures none { let words = heap_words self.old.seat in
            IsNone result → (at : ℕ) → ¬ Holds self.old.seat.space words variable (Ref at) }
        ensures same { self.new ≡ self.old }
    {
        let regions = self.regions();
        handle_roots::referred(self, &regions, variable)
    }

    /// The small integer that a variable holds, if it holds one.
    #[inline(always)]
    pub fn small(&mut self, variable: u32) -> Option<i64>
        requires known { variable < self.old.seat.space.variables }
        requires root { IsRoot self.old.seat.space (heap_words self.old.seat) variable }
        ensures holds { let words = heap_words self.old.seat in
            IfSome result (λ v. IsTrue (small v) × Holds self.old.seat.space words variable (Int v)) }
        ensures none { let words = heap_words self.old.seat in
            IsNone result → (v : ℤ) → IsTrue (small v) → ¬ Holds self.old.seat.space words variable (Int v) }
        ensures same { self.new ≡ self.old }
    {
        let regions = self.regions();
        handle_roots::small_by(self, &regions, variable)
    }

    /// The word of the small integer that a variable holds, if it holds one.
    #[inline(always)]
    pub fn small_word(&mut self, variable: u32) -> Option<Word>
        requires known { variable < self.old.seat.space.variables }
        requires root { IsRoot self.old.seat.space (heap_words self.old.seat) variable }
        ensures holds { let words = heap_words self.old.seat in
            IfSome result (λ word. (v : ℤ) × IsTrue (small v) × IsGivenFor (Given.Word word) (Int v)
            × Holds self.old.seat.space words variable (Int v)) }
        ensures none { let words = heap_words self.old.seat in
            IsNone result → (v : ℤ) → IsTrue (small v) → ¬ Holds self.old.seat.space words variable (Int v) }
        ensures same { self.new ≡ self.old }
    {
        let regions = self.regions();
        handle_roots::small_word_by(self, &regions, variable)
    }

    /// The integer that a variable holds in its second root word, if it holds one there.
    #[inline(always)]
    pub fn wide(&mut self, variable: u32) -> Option<i64>
        requires known { variable < self.old.seat.space.variables }
        requires root { IsRoot self.old.seat.space (heap_words self.old.seat) variable }
        ensures holds { let words = heap_words self.old.seat in
            IfSome result (λ v. (small v ≡ false) × Holds self.old.seat.space words variable (Int v)) }
        ensures none { let words = heap_words self.old.seat in
            IsNone result → (v : ℤ) → small v ≡ false → ¬ Holds self.old.seat.space words variable (Int v) }
        ensures same { self.new ≡ self.old }
    {
        let regions = self.regions();
        handle_roots::wide_by(self, &regions, variable)
    }

    /// Makes a variable that holds an integer in its second root word hold another one there. Only that word changes.
    #[inline(always)]
    pub fn replace_wide(&mut self, variable: u32, v: i64)
        requires known { variable < self.old.seat.space.variables }
        requires was { let words = heap_words self.old.seat in
            (was : ℤ) × (small was ≡ false) × Holds self.old.seat.space words variable (Int was) }
        requires wide { small v ≡ false }
        ensures held { self.new ≡ with_variable self.old variable (Int v) }
        ensures heap { let words = heap_words self.old.seat in
            heap_words self.new.seat ≡ with_root self.old.seat.space words variable (Int v) }
        ensures holds { let words = heap_words self.new.seat in
            Holds self.old.seat.space words variable (Int v) }
    {
        self.addresses_fit();
        let root = self.root_of(variable);
        self.put_own_slot(root, 1, wide_word(v));
    }

    /// Makes a variable that holds a small integer hold another one. Only its first root word changes.
    #[inline(always)]
    pub fn replace_small(&mut self, variable: u32, v: i64)
        requires known { variable < self.old.seat.space.variables }
        requires was { let words = heap_words self.old.seat in
            (was : ℤ) × IsTrue (small was) × Holds self.old.seat.space words variable (Int was) }
        requires small { IsTrue (small v) }
        ensures held { self.new ≡ with_variable self.old variable (Int v) }
        ensures heap { let words = heap_words self.old.seat in
            heap_words self.new.seat ≡ with_root self.old.seat.space words variable (Int v) }
        ensures holds { let words = heap_words self.new.seat in
            Holds self.old.seat.space words variable (Int v) }
    {
        self.addresses_fit();
        let root = self.root_of(variable);
        self.put_own(root, small_word(v));
    }

    /// Whether a variable is bound to something.
    #[inline(always)]
    pub fn is_bound(&mut self, variable: u32) -> bool
        requires known { variable < self.old.seat.space.variables }
        requires root { IsRoot self.old.seat.space (heap_words self.old.seat) variable }
        ensures bound { (held : Held) → let words = heap_words self.old.seat in
            Holds self.old.seat.space words variable held → (IsTrue result ↔ (held ≢ Unbound)) }
        ensures same { self.new ≡ self.old }
    {
        let regions = self.regions();
        handle_roots::is_bound(self, &regions, variable)
    }

    /// Makes a variable hold what another one holds. Only its two root words change.
    #[inline(always)]
    pub fn copy(&mut self, from: u32, to: u32)
        requires known { from < self.old.seat.space.variables }
        requires target_known { to < self.old.seat.space.variables }
        requires root { IsRoot self.old.seat.space (heap_words self.old.seat) from }
        ensures held { (held : Held) → let words = heap_words self.old.seat in
            Holds self.old.seat.space words from held → self.new ≡ with_variable self.old to held }
        ensures heap { (held : Held) → let words = heap_words self.old.seat in
            Holds self.old.seat.space words from held →
            heap_words self.new.seat ≡ with_root self.old.seat.space words to held }
        ensures holds { (held : Held) → let words = heap_words self.old.seat in
            Holds self.old.seat.space words from held →
            Holds self.old.seat.space (heap_words self.new.seat) to held }
    {
        let regions = self.regions();
        let pair = root_words(self, &regions, from);
        self.put_roots(to, pair);
    }

    /// Makes a variable hold a value. Only its two root words change.
    #[inline(always)]
    pub fn hold(&mut self, variable: u32, value: Held)
        requires known { variable < self.old.seat.space.variables }
        ensures held { self.new ≡ with_variable self.old variable value }
        ensures heap { let words = heap_words self.old.seat in
            heap_words self.new.seat ≡ with_root self.old.seat.space words variable value }
        ensures holds { let words = heap_words self.new.seat in
            Holds self.old.seat.space words variable value }
    {
        // A small integer's words are put in an order of their own. In one order the compiler makes one store of those
        // for small and other integers, and chooses each word by a conditional move, which costs more than the branch.
        if is_small_integer(value) {
            self.put_roots_from_second(variable, words_of(value));
        } else {
            self.put_roots(variable, words_of(value));
        }
    }
}
