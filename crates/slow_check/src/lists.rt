//! Whether the cell of a list shows its elements.
ghost use Rattle.std.specs.Prelude.{◌≡◌, ◌↔◌, IsTrue};
ghost use Rattle.heap_model.specs.Images.{image_heap};
ghost use Rattle.heap_model.specs.Heaps.{words_of_cell};
ghost use Rattle.heap_model.specs.Showing.{ShowsList};
ghost use Rattle.heap_model.specs.Wholeness.{HasRows};
ghost use Rattle.image_walk.specs.Words.{HasWords};
ghost use Rattle.image_walk.specs.Spans.{StandsIn, EachWord, WordAt, span_words};
ghost use Rattle.slow_check.specs.ShownSlots.{ShowsElementAt};

use crate::values::shows_value;
use cell_layout::Cell;
use heap_model::HeapImage;
use heap_model::cells::COUNT;
use ideal_graph::Value;
use image_walk::{Span, slots_beside, sort_of, word_at, word_of};
use tagged_word::Kind;
use tagged_word::cell::STORE_SLOT;

/// Whether the cell is that of a list of these elements.
pub(crate) fn shows_list(image: &HeapImage, cell: Cell, elements: &[Value]) -> bool
    requires sized { HasWords (image_heap image.now) }
    requires rows { HasRows (image_heap image.now) }
    requires stands { StandsIn (image_heap image.now) cell }
    ensures { let heap = image_heap image.now in IsTrue result
        ↔ ShowsList heap cell (words_of_cell heap cell) elements.now }
{
    match cell.layout.kind {
        Kind::List => shows_list_cell(image, cell, elements),
        _ => false,
    }
}

/// Whether the cell of a list is that of one of these elements.
fn shows_list_cell(image: &HeapImage, cell: Cell, elements: &[Value]) -> bool
    requires sized { HasWords (image_heap image.now) }
    requires rows { HasRows (image_heap image.now) }
    requires stands { StandsIn (image_heap image.now) cell }
    requires list { cell.layout.kind ≡ Kind.List }
    ensures { let heap = image_heap image.now in IsTrue result
        ↔ ShowsList heap cell (words_of_cell heap cell) elements.now }
{
    let count = word_of(image, cell, COUNT);
    if count != elements.len() as u64 {
        return false;
    }
    let store = word_of(image, cell, STORE_SLOT);
    match slots_beside(image, store, sort_of(image, store), Kind::Store) {
        Some(span) => show_elements(image, elements, span),
        None => false,
    }
}

/// Whether each word of a span shows the element at its place.
fn show_elements(image: &HeapImage, elements: &[Value], span: Span) -> bool
    requires sized { HasWords (image_heap image.now) }
    requires rows { HasRows (image_heap image.now) }
    ensures { let heap = image_heap image.now in IsTrue result
        ↔ EachWord (span_words heap span) (ShowsElementAt heap elements.now) }
{
    for at in span.from..span.end {
        if !shows_at(image, elements, (at - span.from) as usize, at) {
            return false;
        }
    }
    true
}

/// Whether the word at an address shows the element at a place.
fn shows_at(image: &HeapImage, elements: &[Value], place: usize, at: u32) -> bool
    requires sized { HasWords (image_heap image.now) }
    requires rows { HasRows (image_heap image.now) }
    ensures { let heap = image_heap image.now in IsTrue result
        ↔ WordAt heap at (ShowsElementAt heap elements.now place) }
{
    match word_at(image, at) {
        Some(word) => shows_element(image, elements, place, word),
        None => true,
    }
}

/// Whether a word shows the element at a place, if there is one.
fn shows_element(image: &HeapImage, elements: &[Value], place: usize, word: u64) -> bool
    requires sized { HasWords (image_heap image.now) }
    requires rows { HasRows (image_heap image.now) }
    ensures { IsTrue result ↔ ShowsElementAt (image_heap image.now) elements.now place word }
{
    match elements.get(place).copied() {
        Some(value) => shows_value(image, word, value),
        None => true,
    }
}
