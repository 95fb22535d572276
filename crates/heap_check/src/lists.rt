//! Flaws of lists: their store's slot, their length, and the slots for their elements.
ghost use Rattle.std.specs.Prelude.{◌≡◌, ◌+◌, ◌≤◌, nat_lt};
ghost use Rattle.heap_model.specs.Images.{image_heap};
ghost use Rattle.heap_model.specs.Heaps.{words_of_cell};
ghost use Rattle.heap_model.specs.Kinds.{IsListCell};
ghost use Rattle.heap_model.specs.Wholeness.{HasRows};
ghost use Rattle.heap_check.specs.Elements.{IsElement};
ghost use Rattle.image_walk.specs.Spans.{StandsIn, EachWord, span_words, IsSpan};
ghost use Rattle.image_walk.specs.Words.{HasWords};
ghost use Rattle.heap_check.specs.Cells.{BreaksList, asked_element};
ghost use Rattle.heap_check.specs.Firsts.{IsVerdict};
ghost use Rattle.heap_check.specs.Marks.{MarksStarts};
ghost use Rattle.heap_check.specs.SpanFlaws.{BreaksSpan, BreaksWord, HasBeside};

use crate::finding::referent;
use crate::flaw::Flaw;
use crate::stores::slot_flaw;
use cell_layout::Cell;
use heap_model::HeapImage;
use heap_model::cells::COUNT;
use image_walk::{Span, is_hole, slots_beside, word_of};
use object_graph::limits::ELEMENTS_MOST;
use tagged_word::cell::STORE_SLOT;
use tagged_word::{Kind, Word, odd};

/// The first flaw of a list.
pub(crate) fn flaw_of_list(image: &HeapImage, starts: &[bool], cell: Cell) -> Option<Flaw>
    requires sized { HasWords (image_heap image.now) }
    requires rows { HasRows (image_heap image.now) }
    requires marks { MarksStarts (image_heap image.now) starts.now }
    requires stands { StandsIn (image_heap image.now) cell }
    requires list { cell.layout.kind ≡ Kind.List }
    requires ends { cell.at + cell.size ≤ u32.MAX }
    ensures { let heap = image_heap image.now in IsVerdict (IsListCell heap (words_of_cell heap cell))
        (BreaksList heap cell (words_of_cell heap cell)) result }
{
    let store = word_of(image, cell, STORE_SLOT);
    match slots_beside(image, store, referent(image, starts, store), Kind::Store) {
        Some(beside) => flaw_of_elements(image, starts, cell, beside),
        None => Some(slot_flaw(cell.at + STORE_SLOT, store)),
    }
}

/// The first flaw of the length of a list, and of the slots beside it.
fn flaw_of_elements(image: &HeapImage, starts: &[bool], cell: Cell, beside: Span) -> Option<Flaw>
    requires sized { HasWords (image_heap image.now) }
    requires rows { HasRows (image_heap image.now) }
    requires marks { MarksStarts (image_heap image.now) starts.now }
    requires stands { StandsIn (image_heap image.now) cell }
    requires list { cell.layout.kind ≡ Kind.List }
    requires ends { cell.at + cell.size ≤ u32.MAX }
    requires beside { HasBeside (image_heap image.now) cell Kind.Store beside }
    ensures { let heap = image_heap image.now in IsVerdict (IsListCell heap (words_of_cell heap cell))
        (BreaksList heap cell (words_of_cell heap cell)) result }
{
    let count = word_of(image, cell, COUNT);
    let most = (beside.end - beside.from).min(ELEMENTS_MOST) as u64;
    if count > most {
        return Some(Flaw {
            at: cell.at + COUNT,
            found: count,
            wanted: most,
        });
    }
    flaw_of_values(image, starts, count as u32, beside)
}

/// The first word of a span that is no value though it is used, or no hole though it isn't; so many of the first are
/// used.
fn flaw_of_values(image: &HeapImage, starts: &[bool], count: u32, span: Span) -> Option<Flaw>
    requires sized { HasWords (image_heap image.now) }
    requires rows { HasRows (image_heap image.now) }
    requires marks { MarksStarts (image_heap image.now) starts.now }
    requires is { IsSpan (image_heap image.now) span }
    ensures { let heap = image_heap image.now in
        IsVerdict (EachWord (span_words heap span) (λ at word. IsElement heap (nat_lt at count) word))
        (BreaksSpan heap span (λ at word. IsElement heap (nat_lt at count) word)
        (λ at word. asked_element (nat_lt at count) word)) result }
{
    for at in span.from..span.end {
        let found = image.words.as_slice()[at as usize];
        if let Some(flaw) = flaw_of_value(image, starts, at - span.from < count, at, found) {
            return Some(flaw);
        }
    }
    None
}

/// The flaw of an element's slot, used or not.
fn flaw_of_value(
    image: &HeapImage,
    starts: &[bool],
    used: bool,
    at: u32,
    found: u64,
) -> Option<Flaw>
    requires sized { HasWords (image_heap image.now) }
    requires rows { HasRows (image_heap image.now) }
    requires marks { MarksStarts (image_heap image.now) starts.now }
    ensures { let heap = image_heap image.now in IsVerdict (IsElement heap used found)
        (BreaksWord at found (IsElement heap used) (asked_element used)) result }
{
    if used {
        if referent(image, starts, found).is_value() {
            return None;
        }
        return Some(slot_flaw(at, found));
    }
    if is_hole(found) {
        return None;
    }
    Some(Flaw {
        at,
        found,
        wanted: Word::odd(odd::HOLE).0,
    })
}
