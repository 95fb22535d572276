//! Flaws of the prototype slots of plain objects.
ghost use Rattle.std.specs.Prelude.{◌≡◌, ◌+◌, ◌≤◌, ◌↔◌, IsTrue};
ghost use Rattle.heap_model.specs.Images.{image_heap};
ghost use Rattle.heap_model.specs.Heaps.{words_of_cell};
ghost use Rattle.heap_model.specs.Kinds.{IsProtoWord};
ghost use Rattle.heap_model.specs.Slots.{reference_word};
ghost use Rattle.heap_model.specs.Wholeness.{HasRows};
ghost use Rattle.image_walk.specs.Spans.{StandsIn};
ghost use Rattle.image_walk.specs.Words.{HasWords};
ghost use Rattle.heap_check.specs.Cells.{BreaksProto};
ghost use Rattle.heap_check.specs.Firsts.{IsVerdict};
ghost use Rattle.heap_check.specs.Marks.{MarksStarts};
ghost use Rattle.heap_check.specs.PathSlots.{HasProto};

use crate::finding::find;
use crate::flaw::Flaw;
use cell_layout::Cell;
use heap_model::HeapImage;
use image_walk::{is_plain, is_undefined, word_of};
use tagged_word::cell::PROTO_SLOT;
use tagged_word::{Kind, Word, odd};

/// The flaw of the prototype slot of a plain object.
pub(crate) fn flaw_of_proto(image: &HeapImage, starts: &[bool], cell: Cell) -> Option<Flaw>
    requires sized { HasWords (image_heap image.now) }
    requires rows { HasRows (image_heap image.now) }
    requires marks { MarksStarts (image_heap image.now) starts.now }
    requires stands { StandsIn (image_heap image.now) cell }
    requires plain { cell.layout.kind ≡ Kind.Plain }
    requires ends { cell.at + cell.size ≤ u32.MAX }
    ensures { let heap = image_heap image.now in IsVerdict (HasProto heap (words_of_cell heap cell))
        (BreaksProto heap cell (words_of_cell heap cell)) result }
{
    let found = word_of(image, cell, PROTO_SLOT);
    if is_proto(image, starts, found) {
        return None;
    }
    Some(Flaw {
        at: cell.at + PROTO_SLOT,
        found,
        wanted: Word::odd(odd::UNDEFINED).0,
    })
}

/// Whether a word is one of a prototype slot: undefined, or a reference to the cell of a plain object.
fn is_proto(image: &HeapImage, starts: &[bool], word: u64) -> bool
    requires sized { HasWords (image_heap image.now) }
    requires rows { HasRows (image_heap image.now) }
    requires marks { MarksStarts (image_heap image.now) starts.now }
    ensures { IsTrue result ↔ IsProtoWord (image_heap image.now) word }
{
    // No address of a heap is past 32 bits.
    image.regions.sizes_fit();
    match Word(word).address() {
        Some(at) => is_plain_at(image, starts, at),
        None => is_undefined(word),
    }
}

/// Whether the cell of a plain object stands at an address.
fn is_plain_at(image: &HeapImage, starts: &[bool], at: u32) -> bool
    requires sized { HasWords (image_heap image.now) }
    requires rows { HasRows (image_heap image.now) }
    requires marks { MarksStarts (image_heap image.now) starts.now }
    ensures { IsTrue result ↔ IsProtoWord (image_heap image.now) (reference_word at) }
{
    match find(image, starts, at) {
        Some(cell) => is_plain(cell.layout.kind),
        None => false,
    }
}
