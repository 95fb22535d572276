//! The words of slots, and the values that they stand for.
ghost use Rattle.std.specs.Prelude.{◌≡◌, ℕ, ◌+◌, ◌<◌, Some};
ghost use Rattle.tagged_word.specs.declared.word.Class.{Class};
ghost use Rattle.tagged_word.specs.Words.{IsClass, bits_of};
ghost use Rattle.tagged_word.specs.Readings.{reference_in};
ghost use Rattle.page_space.specs.Extents.{marks_start};
ghost use Rattle.heap_model.specs.Needs.{is_box_at, is_box_word};
ghost use Rattle.write_barrier.specs.MutatorState.{heap_of};
ghost use Rattle.write_barrier.specs.Values as values;

use crate::main_side::Main;
use handle_roots::Held;
use tagged_word::{Class, Header, Word, shape};

impl Main {
    /// Whether a word refers to a box.
    pub fn is_box(&self, word: Word) -> bool
        requires { (at : ℕ) → reference_in word.0 ≡ Some at
            → at < marks_start self.now.seat.space }
        ensures { result ≡ is_box_word (heap_of self.now) word.0 }
    {
        match word.address() {
            Some(at) => self.has_box(at),
            None => false,
        }
    }

    /// What the word of a slot stands for: the integer in a box where it refers to one, and where
    /// it is a hole, `undefined`.
    #[inline(always)]
    pub fn value_of_word(&self, word: Word) -> Held
        requires { (at : ℕ) → reference_in word.0 ≡ Some at
            → at + 1 < marks_start self.now.seat.space }
        ensures { (class : Class) → IsClass class → word.0 ≡ bits_of class
            → result ≡ values.held_of_class (heap_of self.now) class }
    {
        match word.class() {
            Some(Class::Small(v)) => Held::Int(v as i64),
            Some(Class::Ref(at)) => self.value_at(at),
            Some(Class::Odd(_)) => Held::Undefined,
            None => Held::Undefined,
        }
    }

    /// Whether the header of a box stands at an address.
    fn has_box(&self, at: u32) -> bool
        requires { at < marks_start self.now.seat.space }
        ensures { result ≡ is_box_at (heap_of self.now) (Some at) }
    {
        match Header::parse(Word(self.word(at))) {
            Some(header) => header.shape == shape::BOX,
            None => false,
        }
    }

    /// What a reference to an address stands for.
    #[inline(never)]
    fn value_at(&self, at: u32) -> Held
        requires { at + 1 < marks_start self.now.seat.space }
        ensures { let heap = heap_of self.now in
            result ≡ values.held_at heap at (is_box_at heap (Some at)) }
    {
        if self.has_box(at) {
            Held::Int(self.slot(at, 1).cast_signed())
        } else {
            Held::Ref(at)
        }
    }
}
