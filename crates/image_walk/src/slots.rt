//! What the word of a slot stands for, and which slots may hold it.
ghost use Rattle.std.specs.Prelude.{◌≡◌, ◌↔◌, IsTrue, FitsSigned};
ghost use Rattle.std.specs.Int.{w64};
ghost use Rattle.tagged_word.specs.Words.{IsClass, bits_of};
ghost use Rattle.heap_model.specs.Images.{image_heap};
ghost use Rattle.heap_model.specs.Heaps.{Heap, words_of_cell};
ghost use Rattle.heap_model.specs.Slots.{reference_word, raw_word, undefined_word, hole_word};
ghost use Rattle.heap_model.specs.Kinds.{HasWord};
ghost use Rattle.heap_model.specs.Wholeness.{HasRows};
ghost use Rattle.image_walk.specs.Words.{HasWords};
ghost use Rattle.image_walk.specs.Spans.{StandsIn};
ghost use Rattle.image_walk.specs.Sorts.{IsSort, is_slot_sort, is_value_sort};
ghost use Rattle.image_walk.specs.Sorts.{is_small_sort, is_box_sort, is_field_sort, object_number};

use crate::finding::find_cell;
use crate::kinds::is_box;
use crate::spans::word_of;
use cell_layout::Cell;
use heap_model::HeapImage;
use shape_tree::Rep;
use tagged_word::{Class, Kind, Word, is_small, odd};

/// What the word of a slot stands for.
#[derive(Clone, Copy)]
pub enum Referent {
    /// A small integer.
    Small,
    /// The value `undefined`.
    Undefined,
    /// A hole.
    Hole,
    /// The object of this number.
    Object(u32),
    /// A box with this integer.
    Boxed(i64),
    /// A cell that is no object's and no box: a store, a weak table or free words.
    Other(Cell),
    /// Nothing.
    Nothing,
}

impl Referent {
    /// Whether a slot of a store or table may hold it.
    pub fn is_slot(self) -> bool
        ensures { result ≡ is_slot_sort self }
    {
        match self {
            Referent::Other(_) => false,
            Referent::Nothing => false,
            _ => true,
        }
    }

    /// Whether it is a value in a tagged slot: an integer in a box is not small.
    pub fn is_value(self) -> bool
        ensures { result ≡ is_value_sort self }
    {
        match self {
            Referent::Small => true,
            Referent::Undefined => true,
            Referent::Object(_) => true,
            Referent::Boxed(v) => !is_small(v),
            _ => false,
        }
    }

    /// Whether it is a small integer.
    fn is_small(self) -> bool
        ensures { result ≡ is_small_sort self }
    {
        match self {
            Referent::Small => true,
            _ => false,
        }
    }

    /// Whether it is a box.
    fn is_box(self) -> bool
        ensures { result ≡ is_box_sort self }
    {
        match self {
            Referent::Boxed(_) => true,
            _ => false,
        }
    }

    /// Whether a field of the representation may hold it, in an own slot or in a property store.
    pub fn is_field(self, own: bool, rep: Rep) -> bool
        ensures { result ≡ is_field_sort own rep self }
    {
        match rep {
            Rep::Small => self.is_small(),
            Rep::Wide => own || self.is_box(),
            Rep::Tagged => self.is_value(),
        }
    }

    /// The number of the object that it is.
    pub fn number(self) -> Option<u32>
        ensures { result ≡ object_number self }
    {
        match self {
            Referent::Object(number) => Some(number),
            _ => None,
        }
    }
}

/// What a word stands for.
pub fn sort_of(image: &HeapImage, word: u64) -> Referent
    requires sized { HasWords (image_heap image.now) }
    requires rows { HasRows (image_heap image.now) }
    ensures { IsSort (image_heap image.now) word result }
{
    // No address of a heap is past 32 bits.
    image.regions.sizes_fit();
    match Word(word).class() {
        Some(class) => sort_of_class(image, class),
        None => Referent::Nothing,
    }
}

/// What a word of the class stands for.
fn sort_of_class(image: &HeapImage, class: Class) -> Referent
    requires sized { HasWords (image_heap image.now) }
    requires rows { HasRows (image_heap image.now) }
    requires is { IsClass class }
    ensures { IsSort (image_heap image.now) (bits_of class) result }
{
    match class {
        Class::Small(_) => Referent::Small,
        Class::Ref(at) => sort_at(image, at),
        Class::Odd(code) => sort_of_odd(code),
    }
}

/// What an odd value stands for in a slot.
fn sort_of_odd(code: u32) -> Referent
    ensures { (heap : Heap) → IsSort heap (bits_of (Class.Odd code)) result }
{
    match code {
        odd::UNDEFINED => Referent::Undefined,
        odd::HOLE => Referent::Hole,
        _ => Referent::Nothing,
    }
}

/// What a reference to an address stands for.
fn sort_at(image: &HeapImage, at: u32) -> Referent
    requires sized { HasWords (image_heap image.now) }
    requires rows { HasRows (image_heap image.now) }
    ensures { IsSort (image_heap image.now) (reference_word at) result }
{
    match find_cell(image, at) {
        Some(cell) => sort_of_cell(image, cell),
        None => Referent::Nothing,
    }
}

/// What a reference to the cell stands for.
pub fn sort_of_cell(image: &HeapImage, cell: Cell) -> Referent
    requires { StandsIn (image_heap image.now) cell }
    ensures { IsSort (image_heap image.now) (reference_word cell.at) result }
{
    if cell.layout.kind.is_object() {
        return Referent::Object(cell.header.object);
    }
    if is_box(cell.layout.kind) {
        return Referent::Boxed(integer_of(image, cell));
    }
    Referent::Other(cell)
}

/// The integer in a box.
pub fn integer_of(image: &HeapImage, cell: Cell) -> i64
    requires stands { StandsIn (image_heap image.now) cell }
    requires boxed { cell.layout.kind ≡ Kind.Boxed }
    ensures holds { HasWord (words_of_cell (image_heap image.now) cell) 1 (raw_word result) }
    ensures fits { FitsSigned w64 result }
{
    word_of(image, cell, 1).cast_signed()
}

/// Whether a word is a hole.
pub fn is_hole(word: u64) -> bool
    ensures { IsTrue result ↔ (word ≡ hole_word) }
{
    word == Word::odd(odd::HOLE).0
}

/// Whether a word is `undefined`.
pub fn is_undefined(word: u64) -> bool
    ensures { IsTrue result ↔ (word ≡ undefined_word) }
{
    word == Word::odd(odd::UNDEFINED).0
}
