//! Whether words are dead: in no object's cell, and in none that one names.
ghost use Rattle.std.specs.Prelude.{◌↔◌, IsTrue};
ghost use Rattle.heap_model.specs.Images.{image_heap};
ghost use Rattle.heap_model.specs.Wholeness.{HasRows};
ghost use Rattle.live_cells.specs.Exact.{IsNamedByObject, IsDeadWord};
ghost use Rattle.image_walk.specs.Words.{HasWords};
ghost use Rattle.image_walk.specs.Spans.{StandsIn};
ghost use Rattle.slow_check.specs.DeadCells.{IsDeadCell};

use crate::naming::naming_slot;
use crate::remembered::cell_over;
use cell_layout::Cell;
use heap_model::HeapImage;
use image_walk::is_owned;

/// Whether an object's cell names the cell, as its store, its weak table or a box.
pub(crate) fn is_named(image: &HeapImage, cell: Cell) -> bool
    requires sized { HasWords (image_heap image.now) }
    requires rows { HasRows (image_heap image.now) }
    requires stands { StandsIn (image_heap image.now) cell }
    ensures { IsTrue result ↔ IsNamedByObject (image_heap image.now) cell.at }
{
    if is_owned(cell.layout.kind) {
        naming_slot(image, cell.at).is_some()
    } else {
        false
    }
}

/// Whether the cell is no object's, and none that an object's cell names.
fn is_dead_cell(image: &HeapImage, cell: Cell) -> bool
    requires sized { HasWords (image_heap image.now) }
    requires rows { HasRows (image_heap image.now) }
    requires stands { StandsIn (image_heap image.now) cell }
    ensures { IsTrue result ↔ IsDeadCell (image_heap image.now) cell }
{
    if cell.layout.kind.is_object() {
        return false;
    }
    !is_named(image, cell)
}

/// Whether the word at an address is dead.
pub(crate) fn is_dead(image: &HeapImage, at: u32) -> bool
    requires sized { HasWords (image_heap image.now) }
    requires rows { HasRows (image_heap image.now) }
    ensures { IsTrue result ↔ IsDeadWord (image_heap image.now) at }
{
    match cell_over(image, at) {
        Some(cell) => is_dead_cell(image, cell),
        None => true,
    }
}
