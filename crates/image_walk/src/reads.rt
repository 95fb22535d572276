//! Single words and cells of an image.
ghost use Rattle.std.specs.Prelude.{◌≡◌, ◌+◌, ◌≤◌, ◌↔◌, IsTrue};
ghost use Rattle.std.specs.Prelude.{slice_get, MatchOption, IfSome, Some};
ghost use Rattle.cell_layout.specs.Cells.{IsCell, HasNoCell};
ghost use Rattle.heap_model.specs.Images.{image_heap};
ghost use Rattle.image_walk.specs.Words.{HasWords};

use cell_layout::{Cell, cell_at};
use heap_model::HeapImage;
use word_store::SliceWords;

/// The word at an address; none behind the last.
pub fn word_at(image: &HeapImage, a: u32) -> Option<u64>
    ensures { result ≡ slice_get image.now.words a }
{
    image.words.as_slice().get(a as usize).copied()
}

/// Whether the word at an address is there and is 0.
pub fn is_zero(image: &HeapImage, a: u32) -> bool
    ensures { IsTrue result ↔ (slice_get image.now.words a ≡ Some 0) }
{
    match word_at(image, a) {
        Some(word) => word == 0,
        None => false,
    }
}

/// The cell that words at an address read as, whatever stands before it.
pub fn cell_there(image: &HeapImage, a: u32) -> Option<Cell>
    requires { HasWords (image_heap image.now) }
    ensures cell { MatchOption result (HasNoCell image.now.regions image.now.words a)
        (λ cell. (cell.at ≡ a) × IsCell image.now.regions image.now.words cell) }
    ensures ends { IfSome result (λ cell. (1 ≤ cell.size) × (a + cell.size ≤ u32.MAX)) }
{
    // No heap has 2^32 words or more.
    image.regions.sizes_fit();
    let mut words = SliceWords::new(image.words.as_slice());
    match cell_at(&mut words, &image.regions, a) {
        Ok(cell) => Some(cell),
        Err(_) => None,
    }
}
