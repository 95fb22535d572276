//! Flaws of stores, tables and boxes.
ghost use Rattle.std.specs.Prelude.{◌≡◌, ◌<◌};
ghost use Rattle.heap_model.specs.Images.{image_heap};
ghost use Rattle.heap_model.specs.Heaps.{words_of_cell};
ghost use Rattle.heap_model.specs.Kinds.{HasNoNumber, IsStoreCell, IsBoxCell};
ghost use Rattle.heap_model.specs.Slots.{IsSlotWord};
ghost use Rattle.heap_model.specs.Wholeness.{HasRows};
ghost use Rattle.image_walk.specs.Spans.{StandsIn, EachWord, span_words, IsSpan, IsStoreKind};
ghost use Rattle.image_walk.specs.Words.{HasWords};
ghost use Rattle.heap_check.specs.Cells.{BreaksNumber, BreaksStoreCell, IsUnnumbered};
ghost use Rattle.heap_check.specs.Firsts.{IsVerdict, asked_of};
ghost use Rattle.heap_check.specs.Marks.{MarksStarts};
ghost use Rattle.heap_check.specs.SpanFlaws.{BreaksSpan};

use crate::finding::referent;
use crate::flaw::{Flaw, asked_of};
use cell_layout::Cell;
use heap_model::HeapImage;
use image_walk::{Referent, Span, behind_head, integer_of};
use tagged_word::cell::STORE_HEAD;
use tagged_word::{Header, Kind};

/// The flaw of a slot that may hold several words.
pub(crate) fn slot_flaw(at: u32, found: u64) -> Flaw
    ensures { result ≡ record { at = at; found = found; wanted = asked_of found } }
{
    Flaw {
        at,
        found,
        wanted: asked_of(found),
    }
}

/// The flaw of the number of a cell that is no object's.
pub(crate) fn flaw_of_number(cell: Cell) -> Option<Flaw>
    requires unnumbered { IsUnnumbered cell.layout.kind }
    requires shaped { cell.header.shape < 65536 }
    ensures { IsVerdict (HasNoNumber cell) (BreaksNumber cell) result }
{
    if cell.header.object == 0 {
        return None;
    }
    let bare = Header {
        shape: cell.header.shape,
        object: 0,
    };
    Some(Flaw {
        at: cell.at,
        found: cell.header.word().0,
        wanted: bare.word().0,
    })
}

/// The flaw of a box. Whatever its word is, it is that of an integer.
pub(crate) fn flaw_of_box(image: &HeapImage, cell: Cell) -> Option<Flaw>
    requires stands { StandsIn (image_heap image.now) cell }
    requires boxed { cell.layout.kind ≡ Kind.Boxed }
    ensures { let heap = image_heap image.now in
        IsVerdict (IsBoxCell cell (words_of_cell heap cell)) (BreaksNumber cell) result }
{
    // Tells that the word is that of an integer.
    let _integer = integer_of(image, cell);
    flaw_of_number(cell)
}

/// The first flaw of a store or a table.
pub(crate) fn flaw_of_store(image: &HeapImage, starts: &[bool], cell: Cell) -> Option<Flaw>
    requires sized { HasWords (image_heap image.now) }
    requires rows { HasRows (image_heap image.now) }
    requires marks { MarksStarts (image_heap image.now) starts.now }
    requires stands { StandsIn (image_heap image.now) cell }
    requires of_stores { IsStoreKind cell.layout.kind }
    ensures { let heap = image_heap image.now in IsVerdict (IsStoreCell heap cell (words_of_cell heap cell))
        (BreaksStoreCell heap cell (words_of_cell heap cell)) result }
{
    match flaw_of_number(cell) {
        Some(flaw) => Some(flaw),
        None => flaw_of_slots(image, starts, behind_head(image, cell, STORE_HEAD)),
    }
}

/// The first word of a span that no slot may hold.
fn flaw_of_slots(image: &HeapImage, starts: &[bool], span: Span) -> Option<Flaw>
    requires sized { HasWords (image_heap image.now) }
    requires rows { HasRows (image_heap image.now) }
    requires marks { MarksStarts (image_heap image.now) starts.now }
    requires is { IsSpan (image_heap image.now) span }
    ensures { let heap = image_heap image.now in
        IsVerdict (EachWord (span_words heap span) (λ at word. IsSlotWord heap word))
        (BreaksSpan heap span (λ at word. IsSlotWord heap word) (λ at word. asked_of word)) result }
{
    for at in span.from..span.end {
        let found = image.words.as_slice()[at as usize];
        if !referent(image, starts, found).is_slot() {
            return Some(slot_flaw(at, found));
        }
    }
    None
}
