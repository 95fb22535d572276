//! What the words of slots stand for, brought to variables.
ghost use Rattle.std.specs.Prelude.{◌≡◌, ℕ, ◌+◌, ◌<◌, ◌%◌, Some};
ghost use Rattle.tagged_word.specs.declared.word.Class.{Class};
ghost use Rattle.tagged_word.specs.Words.{IsClass, bits_of};
ghost use Rattle.tagged_word.specs.Readings.{reference_in};
ghost use Rattle.page_space.specs.Extents.{marks_start};
ghost use Rattle.write_barrier.specs.Seats.{heap_words};
ghost use Rattle.handle_roots.specs.Roots.{FitsHeld, with_root};
ghost use Rattle.write_barrier.specs.MutatorState.{heap_of, with_variable};
ghost use Rattle.write_barrier.specs.Values as values;

use crate::main_side::Main;
use handle_roots::RootPair;
use tagged_word::Word;

impl Main {
    /// Makes a variable hold what the word of a slot stands for.
    #[inline(always)]
    pub fn hold_word(&mut self, variable: u32, word: Word)
        requires known { variable < self.old.seat.space.variables }
        requires class { (class : Class) × IsClass class × (word.0 ≡ bits_of class) }
        requires within { (at : ℕ) → reference_in word.0 ≡ Some at
            → at + 1 < marks_start self.old.seat.space }
        ensures held { (class : Class) → IsClass class → word.0 ≡ bits_of class →
            let value = values.held_of_class (heap_of self.old) class in
            self.new ≡ with_variable self.old variable value }
        ensures heap { (class : Class) → IsClass class → word.0 ≡ bits_of class →
            let value = values.held_of_class (heap_of self.old) class in
            let words = heap_words self.old.seat in
            heap_words self.new.seat ≡ with_root self.old.seat.space words variable value }
        ensures fits { (class : Class) → IsClass class → word.0 ≡ bits_of class →
            FitsHeld (values.held_of_class (heap_of self.old) class) }
    {
        if word.0 % 2 == 0 {
            self.hold_small(variable, word);
        } else {
            let value = self.value_of_word(word);
            self.hold(variable, value);
        }
    }

    /// The same of an even word, which is that of a small integer: it is the variable's first root word
    /// too.
    #[inline(always)]
    fn hold_small(&mut self, variable: u32, word: Word)
        requires known { variable < self.old.seat.space.variables }
        requires even { word.0 % 2 ≡ 0 }
        ensures held { (class : Class) → IsClass class → word.0 ≡ bits_of class →
            let value = values.held_of_class (heap_of self.old) class in
            self.new ≡ with_variable self.old variable value }
        ensures heap { (class : Class) → IsClass class → word.0 ≡ bits_of class →
            let value = values.held_of_class (heap_of self.old) class in
            let words = heap_words self.old.seat in
            heap_words self.new.seat ≡ with_root self.old.seat.space words variable value }
        ensures fits { (class : Class) → IsClass class → word.0 ≡ bits_of class →
            FitsHeld (values.held_of_class (heap_of self.old) class) }
    {
        let pair = RootPair {
            first: word.0,
            second: 0,
        };
        self.put_roots_from_second(variable, pair);
    }
}
