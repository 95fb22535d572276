//! Whether addresses are those of the slots of pages that refer to young cells.
ghost use Rattle.std.specs.Prelude.{◌↔◌, ◌<◌, IsTrue, MatchOption};
ghost use Rattle.page_space.specs.Extents.{eden_start};
ghost use Rattle.heap_model.specs.Images.{image_heap};
ghost use Rattle.heap_model.specs.Remembered.{AreRemembered, RefersToYoung};
ghost use Rattle.heap_model.specs.Wholeness.{HasRows};
ghost use Rattle.image_walk.specs.Words.{HasWords};
ghost use Rattle.slow_check.specs.Recorded.{AreRecordedTo, AreOfPages, MustBeRecorded, IsCellOver, HasNoCellOver};

use cell_layout::Cell;
use heap_model::HeapImage;
use image_walk::{next_from, word_at};
use page_space::PAGE_WORDS;
use tagged_word::Word;

/// Whether these are the addresses of the slots of pages that refer to young cells: of all of them,
/// and of nothing else. For each word of a page it walks through the cells before it.
pub fn are_remembered(image: &HeapImage, slots: &[u32]) -> bool
    requires sized { HasWords (image_heap image.now) }
    requires rows { HasRows (image_heap image.now) }
    ensures { IsTrue result ↔ AreRemembered (image_heap image.now) slots.now }
{
    if are_of_pages(image, slots) {
        are_recorded(image, slots)
    } else {
        false
    }
}

/// Whether each of these is the address of a word of a page.
fn are_of_pages(image: &HeapImage, slots: &[u32]) -> bool
    ensures { IsTrue result ↔ AreOfPages (image_heap image.now) slots.now }
{
    for at in slots {
        if !image.regions.is_page(*at) {
            return false;
        }
    }
    true
}

/// Whether the addresses of pages are among these exactly where they are due.
fn are_recorded(image: &HeapImage, slots: &[u32]) -> bool
    requires sized { HasWords (image_heap image.now) }
    requires rows { HasRows (image_heap image.now) }
    ensures { IsTrue result
        ↔ AreRecordedTo (image_heap image.now) slots.now (eden_start image.now.regions) }
{
    // No address of a heap is past 32 bits.
    image.regions.sizes_fit();
    for at in 0..PAGE_WORDS * image.regions.sizes().pages {
        if slots.contains(&at) != must_be_recorded(image, at) {
            return false;
        }
    }
    true
}

/// Whether the address of a word of a page is that of a slot that refers to a young cell.
fn must_be_recorded(image: &HeapImage, at: u32) -> bool
    requires sized { HasWords (image_heap image.now) }
    requires rows { HasRows (image_heap image.now) }
    requires page { at < eden_start image.now.regions }
    ensures { IsTrue result ↔ MustBeRecorded (image_heap image.now) at }
{
    let Some(cell) = cell_over(image, at) else {
        return false;
    };
    if cell.layout.is_scavenge_slot(cell.length, at - cell.at) {
        refers_to_young(image, at)
    } else {
        false
    }
}

/// The cell of which the word at an address is one.
pub(crate) fn cell_over(image: &HeapImage, address: u32) -> Option<Cell>
    requires sized { HasWords (image_heap image.now) }
    requires rows { HasRows (image_heap image.now) }
    ensures { MatchOption result (HasNoCellOver (image_heap image.now) address)
        (λ cell. IsCellOver (image_heap image.now) address cell) }
{
    let mut at = 0;
    while let Some(cell) = next_from(image, at) {
        if address < cell.at {
            return None;
        }
        if address < cell.at + cell.size {
            return Some(cell);
        }
        at = cell.at + cell.size;
    }
    None
}

/// Whether the word at an address refers to a young cell.
fn refers_to_young(image: &HeapImage, at: u32) -> bool
    ensures { IsTrue result ↔ RefersToYoung (eden_start image.now.regions) image.now.words at }
{
    let Some(word) = word_at(image, at) else {
        return false;
    };
    match Word(word).address() {
        Some(cell) => !image.regions.is_page(cell),
        None => false,
    }
}
