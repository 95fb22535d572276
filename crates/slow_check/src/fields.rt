//! Whether the cell of a plain object shows its cap, its prototype and its fields.
ghost use Rattle.std.specs.Prelude.{◌≡◌, ◌+◌, ◌≤◌, ◌++◌, ◌↔◌, IsTrue};
ghost use Rattle.heap_model.specs.Images.{image_heap};
ghost use Rattle.heap_model.specs.Heaps.{words_of_cell};
ghost use Rattle.heap_model.specs.Showing.{ShowsPlain, ShowsProto};
ghost use Rattle.heap_model.specs.Wholeness.{HasRows};
ghost use Rattle.image_walk.specs.Words.{HasWords};
ghost use Rattle.image_walk.specs.Spans.{StandsIn, EachWord, WordAt, span_words, IsSpan};
ghost use Rattle.heap_check.specs.SoundCells.{HasSoundCells};
ghost use Rattle.slow_check.specs.ShownSlots.{ShowsFieldAt};

use crate::paths::is_path_of;
use crate::values::{refers_to, shows_field};
use cell_layout::Cell;
use heap_model::HeapImage;
use ideal_graph::Field;
use image_walk::{Span, behind_head, is_undefined, slots_beside, sort_of, word_at, word_of};
use tagged_word::Kind;
use tagged_word::cell::{PLAIN_HEAD, PROTO_SLOT, STORE_SLOT};

/// Whether the cell is that of a plain object with this cap, this prototype or none, and these fields.
pub(crate) fn shows_plain(
    image: &HeapImage,
    cell: Cell,
    cap: u32,
    proto: Option<u32>,
    fields: &[Field],
) -> bool
    requires sized { HasWords (image_heap image.now) }
    requires rows { HasRows (image_heap image.now) }
    requires sound { HasSoundCells (image_heap image.now) }
    requires stands { StandsIn (image_heap image.now) cell }
    ensures { let heap = image_heap image.now in let words = words_of_cell heap cell in IsTrue result
        ↔ (ShowsPlain heap cell words cap fields.now × ShowsProto heap words proto) }
{
    match cell.layout.kind {
        Kind::Plain => {
            if !shows_plain_cell(image, cell, cap, fields) {
                return false;
            }
            shows_proto(image, cell, proto)
        }
        _ => false,
    }
}

/// Whether the cell of a plain object is that of one with this cap and these fields.
fn shows_plain_cell(image: &HeapImage, cell: Cell, cap: u32, fields: &[Field]) -> bool
    requires sized { HasWords (image_heap image.now) }
    requires rows { HasRows (image_heap image.now) }
    requires sound { HasSoundCells (image_heap image.now) }
    requires stands { StandsIn (image_heap image.now) cell }
    requires plain { cell.layout.kind ≡ Kind.Plain }
    ensures { let heap = image_heap image.now in IsTrue result
        ↔ ShowsPlain heap cell (words_of_cell heap cell) cap fields.now }
{
    if !is_path_of(&image.shapes, cell.header.shape, cap, fields) {
        return false;
    }
    let store = word_of(image, cell, STORE_SLOT);
    match slots_beside(image, store, sort_of(image, store), Kind::Store) {
        Some(beside) => show_fields(
            image,
            cap,
            fields,
            behind_head(image, cell, PLAIN_HEAD),
            beside,
        ),
        None => false,
    }
}

/// Whether the prototype slot of a plain object's cell shows this prototype, or that there is none.
fn shows_proto(image: &HeapImage, cell: Cell, proto: Option<u32>) -> bool
    requires sized { HasWords (image_heap image.now) }
    requires rows { HasRows (image_heap image.now) }
    requires stands { StandsIn (image_heap image.now) cell }
    requires plain { cell.layout.kind ≡ Kind.Plain }
    ensures { let heap = image_heap image.now in IsTrue result
        ↔ ShowsProto heap (words_of_cell heap cell) proto }
{
    let word = word_of(image, cell, PROTO_SLOT);
    match proto {
        Some(number) => refers_to(image, word, number),
        None => is_undefined(word),
    }
}

/// Whether the own slots of an object and those beside them show its fields.
fn show_fields(image: &HeapImage, cap: u32, fields: &[Field], own: Span, beside: Span) -> bool
    requires sized { HasWords (image_heap image.now) }
    requires rows { HasRows (image_heap image.now) }
    requires is_own { IsSpan (image_heap image.now) own }
    ensures { let heap = image_heap image.now in IsTrue result
        ↔ EachWord (span_words heap own ++ span_words heap beside)
        (ShowsFieldAt heap cap fields.now) }
{
    if !show_slots(image, cap, fields, 0, own) {
        return false;
    }
    show_slots(image, cap, fields, (own.end - own.from) as u64, beside)
}

/// Whether each word of a span shows the field of its slot, from a place on.
fn show_slots(image: &HeapImage, cap: u32, fields: &[Field], first: u64, span: Span) -> bool
    requires sized { HasWords (image_heap image.now) }
    requires rows { HasRows (image_heap image.now) }
    requires few { first ≤ u32.MAX }
    ensures { let heap = image_heap image.now in IsTrue result
        ↔ EachWord (span_words heap span)
        (λ at word. ShowsFieldAt heap cap fields.now (first + at) word) }
{
    for at in span.from..span.end {
        if !shows_at(image, cap, fields, first + (at - span.from) as u64, at) {
            return false;
        }
    }
    true
}

/// Whether the word at an address shows the field of the slot at a place.
fn shows_at(image: &HeapImage, cap: u32, fields: &[Field], place: u64, at: u32) -> bool
    requires sized { HasWords (image_heap image.now) }
    requires rows { HasRows (image_heap image.now) }
    ensures { let heap = image_heap image.now in IsTrue result
        ↔ WordAt heap at (ShowsFieldAt heap cap fields.now place) }
{
    match word_at(image, at) {
        Some(word) => shows_slot(image, cap, fields, place, word),
        None => true,
    }
}

/// Whether a word shows the field of the slot at a place, if there is one.
fn shows_slot(image: &HeapImage, cap: u32, fields: &[Field], place: u64, word: u64) -> bool
    requires sized { HasWords (image_heap image.now) }
    requires rows { HasRows (image_heap image.now) }
    ensures { IsTrue result ↔ ShowsFieldAt (image_heap image.now) cap fields.now place word }
{
    match fields.get(place as usize).copied() {
        Some(field) => shows_field(image, place < cap as u64, word, field.rep, field.value),
        None => true,
    }
}
