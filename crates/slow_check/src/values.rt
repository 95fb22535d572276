//! Whether the word of a slot shows a value.
ghost use Rattle.std.specs.Prelude.{◌≡◌, ◌↔◌, Bool, IsTrue};
ghost use Rattle.heap_model.specs.Images.{image_heap};
ghost use Rattle.heap_model.specs.Heaps.{Heap};
ghost use Rattle.heap_model.specs.Slots.{RefersToPlace, RefersToBox};
ghost use Rattle.heap_model.specs.Showing.{ShowsValue, ShowsField, ShowsWide};
ghost use Rattle.heap_model.specs.Wholeness.{HasRows};
ghost use Rattle.image_walk.specs.Words.{HasWords};
ghost use Rattle.slow_check.specs.ShownSlots.{IsSmallWordOf};

use crate::tables::is_undefined;
use heap_model::HeapImage;
use ideal_graph::Value;
use image_walk::{Referent, sort_of};
use shape_tree::Rep;
use tagged_word::{Word, is_small};

/// Whether the word of a tagged slot shows a value.
pub(crate) fn shows_value(image: &HeapImage, word: u64, value: Value) -> bool
    requires sized { HasWords (image_heap image.now) }
    requires rows { HasRows (image_heap image.now) }
    ensures { IsTrue result ↔ ShowsValue (image_heap image.now) word value }
{
    match value {
        Value::Int(v) => shows_integer(image, word, v),
        Value::Undefined => is_undefined(word),
        Value::Ref(number) => refers_to(image, word, number),
    }
}

/// Whether the word of a tagged slot shows an integer: as such where it is small, and else in a box.
fn shows_integer(image: &HeapImage, word: u64, v: i64) -> bool
    requires sized { HasWords (image_heap image.now) }
    requires rows { HasRows (image_heap image.now) }
    ensures { IsTrue result ↔ ShowsValue (image_heap image.now) word (Value.Int v) }
{
    if is_small(v) {
        is_small_word(word, v)
    } else {
        refers_to_box(image, word, v)
    }
}

/// Whether a word is that of this integer, which is small.
fn is_small_word(word: u64, v: i64) -> bool
    ensures { IsTrue result ↔ IsSmallWordOf word v }
{
    match Word::small(v) {
        Some(small) => word == small.0,
        None => false,
    }
}

/// Whether a word refers to the place of the object of this number.
pub(crate) fn refers_to(image: &HeapImage, word: u64, number: u32) -> bool
    requires sized { HasWords (image_heap image.now) }
    requires rows { HasRows (image_heap image.now) }
    ensures { IsTrue result ↔ RefersToPlace (image_heap image.now) word number }
{
    is_object_of(sort_of(image, word), number)
}

/// Whether it is the object of this number.
fn is_object_of(sort: Referent, number: u32) -> bool
    ensures { IsTrue result ↔ (sort ≡ Referent.Object number) }
{
    match sort {
        Referent::Object(other) => other == number,
        _ => false,
    }
}

/// Whether a word refers to a box that holds this integer.
fn refers_to_box(image: &HeapImage, word: u64, v: i64) -> bool
    requires sized { HasWords (image_heap image.now) }
    requires rows { HasRows (image_heap image.now) }
    ensures { IsTrue result ↔ RefersToBox (image_heap image.now) word v }
{
    is_box_of(sort_of(image, word), v)
}

/// Whether it is a box that holds this integer.
fn is_box_of(sort: Referent, v: i64) -> bool
    ensures { IsTrue result ↔ (sort ≡ Referent.Boxed v) }
{
    match sort {
        Referent::Boxed(other) => other == v,
        _ => false,
    }
}

/// Whether the word of a field of the representation shows a value, in an own slot of the object or
/// else in its property store.
pub(crate) fn shows_field(image: &HeapImage, own: bool, word: u64, rep: Rep, value: Value) -> bool
    requires sized { HasWords (image_heap image.now) }
    requires rows { HasRows (image_heap image.now) }
    ensures { IsTrue result ↔ ShowsField (image_heap image.now) own word rep value }
{
    match rep {
        Rep::Small => shows_small(word, value),
        Rep::Wide => shows_wide(image, own, word, value),
        Rep::Tagged => shows_value(image, word, value),
    }
}

/// Whether the word of a small field shows a value: a small integer.
fn shows_small(word: u64, value: Value) -> bool
    ensures { (heap : Heap) (own : Bool) →
        (IsTrue result ↔ ShowsField heap own word Rep.Small value) }
{
    match value {
        Value::Int(v) => is_small_word(word, v),
        Value::Undefined => false,
        Value::Ref(_) => false,
    }
}

/// Whether the word of a wide field shows a value: an integer.
fn shows_wide(image: &HeapImage, own: bool, word: u64, value: Value) -> bool
    requires sized { HasWords (image_heap image.now) }
    requires rows { HasRows (image_heap image.now) }
    ensures { IsTrue result ↔ ShowsField (image_heap image.now) own word Rep.Wide value }
{
    match value {
        Value::Int(v) => shows_wide_integer(image, own, word, v),
        Value::Undefined => false,
        Value::Ref(_) => false,
    }
}

/// Whether the word of a wide field shows an integer: raw in an own slot, and else in a box.
fn shows_wide_integer(image: &HeapImage, own: bool, word: u64, v: i64) -> bool
    requires sized { HasWords (image_heap image.now) }
    requires rows { HasRows (image_heap image.now) }
    ensures { IsTrue result ↔ ShowsWide (image_heap image.now) own word v }
{
    match own {
        true => word == v.cast_unsigned(),
        false => refers_to_box(image, word, v),
    }
}
