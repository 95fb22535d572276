//! Flaws of plain objects: their shape, their store's slot, and the slots for their fields. Those of the slot for
//! their prototype are in `protos.rt`.
ghost use Rattle.std.specs.Prelude.{◌≡◌, ◌+◌, ◌≤◌};
ghost use Rattle.shape_tree.specs.Shapes.{IsPathShape, shape_path};
ghost use Rattle.heap_model.specs.Images.{image_heap};
ghost use Rattle.heap_model.specs.Heaps.{words_of_cell};
ghost use Rattle.heap_model.specs.Kinds.{IsPlainCell};
ghost use Rattle.heap_model.specs.Wholeness.{HasRows};
ghost use Rattle.heap_check.specs.PathSlots.{FitsSlot};
ghost use Rattle.image_walk.specs.Spans.{StandsIn, EachWord, span_words, IsSpan};
ghost use Rattle.image_walk.specs.Words.{HasWords};
ghost use Rattle.heap_check.specs.Cells.{BreaksPlain, asked_at};
ghost use Rattle.heap_check.specs.Firsts.{IsVerdict};
ghost use Rattle.heap_check.specs.Marks.{MarksStarts};
ghost use Rattle.heap_check.specs.SpanFlaws.{BreaksSpan, BreaksWord, HasBeside};

use crate::earlier::earlier;
use crate::finding::referent;
use crate::flaw::{Flaw, asked_of};
use crate::protos::flaw_of_proto;
use crate::rows::filler_word;
use crate::stores::slot_flaw;
use cell_layout::Cell;
use heap_model::HeapImage;
use image_walk::{Span, behind_head, is_hole, slots_beside, word_of};
use tagged_word::cell::{PLAIN_HEAD, STORE_SLOT};
use tagged_word::{Kind, Word, odd};

/// The first flaw of a plain object.
pub(crate) fn flaw_of_plain(image: &HeapImage, starts: &[bool], cell: Cell) -> Option<Flaw>
    requires sized { HasWords (image_heap image.now) }
    requires rows { HasRows (image_heap image.now) }
    requires marks { MarksStarts (image_heap image.now) starts.now }
    requires stands { StandsIn (image_heap image.now) cell }
    requires plain { cell.layout.kind ≡ Kind.Plain }
    requires ends { cell.at + cell.size ≤ u32.MAX }
    ensures { let heap = image_heap image.now in IsVerdict (IsPlainCell heap cell (words_of_cell heap cell))
        (BreaksPlain heap cell (words_of_cell heap cell)) result }
{
    if !image.shapes.has_path(cell.header.shape) {
        return Some(Flaw {
            at: cell.at,
            found: cell.header.word().0,
            wanted: filler_word(),
        });
    }
    let store = word_of(image, cell, STORE_SLOT);
    match slots_beside(image, store, referent(image, starts, store), Kind::Store) {
        Some(beside) => flaw_of_fields(image, starts, cell, beside),
        None => Some(slot_flaw(cell.at + STORE_SLOT, store)),
    }
}

/// The first flaw of the slots of a plain object: that of its prototype, its own, and those beside it.
fn flaw_of_fields(image: &HeapImage, starts: &[bool], cell: Cell, beside: Span) -> Option<Flaw>
    requires sized { HasWords (image_heap image.now) }
    requires rows { HasRows (image_heap image.now) }
    requires marks { MarksStarts (image_heap image.now) starts.now }
    requires stands { StandsIn (image_heap image.now) cell }
    requires plain { cell.layout.kind ≡ Kind.Plain }
    requires ends { cell.at + cell.size ≤ u32.MAX }
    requires path { IsPathShape image.now.shapes cell.header.shape }
    requires beside { HasBeside (image_heap image.now) cell Kind.Store beside }
    ensures { let heap = image_heap image.now in IsVerdict (IsPlainCell heap cell (words_of_cell heap cell))
        (BreaksPlain heap cell (words_of_cell heap cell)) result }
{
    let shape = cell.header.shape;
    let own = behind_head(image, cell, PLAIN_HEAD);
    let first = (own.end - own.from) as u64;
    if image.shapes.fields(shape) as u64 > first + (beside.end - beside.from) as u64 {
        return Some(slot_flaw(cell.at + STORE_SLOT, word_of(image, cell, STORE_SLOT)));
    }
    let of_fields = earlier(
        flaw_of_places(image, starts, shape, 0, own),
        flaw_of_places(image, starts, shape, first, beside),
    );
    earlier(flaw_of_proto(image, starts, cell), of_fields)
}

/// The first word of a span that does not fit the path of a shape, from a place on.
fn flaw_of_places(
    image: &HeapImage,
    starts: &[bool],
    shape: u32,
    first: u64,
    span: Span,
) -> Option<Flaw>
    requires sized { HasWords (image_heap image.now) }
    requires rows { HasRows (image_heap image.now) }
    requires marks { MarksStarts (image_heap image.now) starts.now }
    requires path { IsPathShape image.now.shapes shape }
    requires is { IsSpan (image_heap image.now) span }
    requires few { first ≤ u32.MAX }
    ensures { let heap = image_heap image.now in let path = shape_path heap.paths shape in
        IsVerdict (EachWord (span_words heap span) (λ at word. FitsSlot heap path (first + at) word))
        (BreaksSpan heap span (λ at word. FitsSlot heap path (first + at) word)
        (λ at word. asked_at path (first + at) word)) result }
{
    for at in span.from..span.end {
        let found = image.words.as_slice()[at as usize];
        if let Some(flaw) = flaw_of_place(
            image,
            starts,
            shape,
            first + (at - span.from) as u64,
            at,
            found,
        ) {
            return Some(flaw);
        }
    }
    None
}

/// Whether a word fits the path of a shape at a place, and else its flaw.
fn flaw_of_place(
    image: &HeapImage,
    starts: &[bool],
    shape: u32,
    place: u64,
    at: u32,
    found: u64,
) -> Option<Flaw>
    requires sized { HasWords (image_heap image.now) }
    requires rows { HasRows (image_heap image.now) }
    requires marks { MarksStarts (image_heap image.now) starts.now }
    requires path { IsPathShape image.now.shapes shape }
    ensures { let heap = image_heap image.now in let path = shape_path heap.paths shape in
        IsVerdict (FitsSlot heap path place found)
        (BreaksWord at found (FitsSlot heap path place) (asked_at path place)) result }
{
    if place >= image.shapes.fields(shape) as u64 {
        if is_hole(found) {
            return None;
        }
        return Some(Flaw {
            at,
            found,
            wanted: Word::odd(odd::HOLE).0,
        });
    }
    let field = image.shapes.field(shape, place as u32);
    let own = place < image.shapes.cap(shape) as u64;
    if referent(image, starts, found).is_field(own, field.rep) {
        return None;
    }
    Some(slot_flaw(at, found))
}
