//! The cells of a heap by their addresses, and what words stand for, by the flags of where cells start.
ghost use Rattle.std.specs.Prelude.{◌≡◌, ◌↔◌, true, Some, slice_get, IsTrue, MatchOption};
ghost use Rattle.heap_model.specs.Images.{image_heap};
ghost use Rattle.heap_model.specs.Heaps.{HasCell, words_of_cell};
ghost use Rattle.heap_model.specs.Wholeness.{HasRows};
ghost use Rattle.image_walk.specs.Finding.{HasNoCellAt};
ghost use Rattle.image_walk.specs.Sorts.{IsSort};
ghost use Rattle.image_walk.specs.Words.{HasWords};
ghost use Rattle.heap_check.specs.Marks.{MarksStarts};

use cell_layout::Cell;
use heap_model::HeapImage;
use image_walk::{Referent, cell_there, sort_of, sort_of_cell};
use tagged_word::Word;

/// The cell of a heap at an address.
pub(crate) fn find(image: &HeapImage, starts: &[bool], address: u32) -> Option<Cell>
    requires sized { HasWords (image_heap image.now) }
    requires rows { HasRows (image_heap image.now) }
    requires marks { MarksStarts (image_heap image.now) starts.now }
    ensures { let heap = image_heap image.now in MatchOption result (HasNoCellAt heap address)
        (λ cell. (cell.at ≡ address) × HasCell heap cell (words_of_cell heap cell)) }
{
    if is_start(starts, address) {
        cell_there(image, address)
    } else {
        None
    }
}

/// Whether the flag of an address is there and is set.
fn is_start(starts: &[bool], address: u32) -> bool
    ensures { IsTrue result ↔ (slice_get starts.now address ≡ Some true) }
{
    match starts.get(address as usize).copied() {
        Some(flag) => flag,
        None => false,
    }
}

/// What a word stands for.
pub(crate) fn referent(image: &HeapImage, starts: &[bool], word: u64) -> Referent
    requires sized { HasWords (image_heap image.now) }
    requires rows { HasRows (image_heap image.now) }
    requires marks { MarksStarts (image_heap image.now) starts.now }
    ensures { IsSort (image_heap image.now) word result }
{
    match Word(word).address() {
        Some(at) => match find(image, starts, at) {
            Some(cell) => sort_of_cell(image, cell),
            None => Referent::Nothing,
        },
        None => sort_of(image, word),
    }
}
