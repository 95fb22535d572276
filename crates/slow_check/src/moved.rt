//! Whether a heap is another one moved.
ghost use Rattle.std.specs.Prelude.{◌≡◌, ◌↔◌, IsTrue, IfOk};
ghost use Rattle.heap_model.specs.Images.{image_heap};
ghost use Rattle.heap_model.specs.Wholeness.{HasRows, HasSizes, Blank};
ghost use Rattle.heap_moves.specs.Moved.{IsMoved};
ghost use Rattle.image_walk.specs.Words.{HasWords};
ghost use Rattle.slow_check.specs.Moves.{to_of};
ghost use Rattle.slow_check.specs.MovedCells.{HasSameFrame};

use crate::moved_cells::{are_from, are_moved_cells};
use crate::moved_roots::are_moved_roots;
use crate::moves::Move;
use crate::paths::has_same_paths;
use heap_check::has_rows;
use heap_model::HeapImage;
use page_space::Regions;
use std::alloc::Global;
use tagged_word::NoMemory;

/// Whether an image is another one moved, where these moves tell where what stood at an address
/// stands; what they don't name went. For each cell it walks through the cells of the old image. What no cell of the
/// new image uses must be 0 there.
///
/// # Errors
/// There was no memory for a flag for each word of the new image.
pub fn is_moved(
    alloc: Global,
    old: &HeapImage,
    new: &HeapImage,
    moves: &[Move],
) -> Result<bool, NoMemory>
    requires sized { HasWords (image_heap old.now) }
    requires rows { HasRows (image_heap old.now) }
    ensures { let heap = image_heap new.now in IfOk result (λ answer.
        IsTrue answer ↔ (IsMoved (image_heap old.now) heap (to_of moves.now) × Blank heap)) }
{
    if has_rows(alloc, new)? {
        Ok(is_moved_row_by_row(old, new, moves))
    } else {
        Ok(false)
    }
}

/// The same of a new image whose sizes and rows are right.
fn is_moved_row_by_row(old: &HeapImage, new: &HeapImage, moves: &[Move]) -> bool
    requires sized { HasWords (image_heap old.now) }
    requires rows { HasRows (image_heap old.now) }
    requires new_sized { HasSizes (image_heap new.now) }
    requires new_rows { HasRows (image_heap new.now) }
    ensures { IsTrue result
        ↔ IsMoved (image_heap old.now) (image_heap new.now) (to_of moves.now) }
{
    if !has_same_frame(old, new) {
        return false;
    }
    if !are_moved_cells(old, new, moves) {
        return false;
    }
    if !are_from(old, new, moves) {
        return false;
    }
    are_moved_roots(old, new, moves)
}

/// Whether the regions and the paths of two heaps are the same, where sizes and rows of the second are right.
fn has_same_frame(old: &HeapImage, new: &HeapImage) -> bool
    requires sized { HasSizes (image_heap new.now) }
    requires rows { HasRows (image_heap new.now) }
    ensures { IsTrue result ↔ HasSameFrame (image_heap old.now) (image_heap new.now) }
{
    if !are_same(&new.regions, &old.regions) {
        return false;
    }
    has_same_paths(&new.shapes, &old.shapes)
}

/// Whether two heaps have the same regions.
fn are_same(regions: &Regions, others: &Regions) -> bool
    ensures { IsTrue result ↔ (regions.now ≡ others.now) }
{
    if regions.sizes() != others.sizes() {
        return false;
    }
    regions.variables() == others.variables()
}
