//! Whether a heap keeps exactly what can be reached.
ghost use Rattle.std.specs.Prelude.{◌≡◌, ◌↔◌, IsTrue, IfOk, IfErr};
ghost use Rattle.object_graph.specs.Reach.{reach};
ghost use Rattle.heap_model.specs.Images.{image_heap};
ghost use Rattle.heap_model.specs.Wholeness.{HasRows, Whole};
ghost use Rattle.live_cells.specs.Exact.{Exact};
ghost use Rattle.image_walk.specs.Words.{HasWords};
ghost use Rattle.image_walk.specs.Spans.{StandsIn};
ghost use Rattle.slow_check.specs.NeededCells.{IsNeeded, AreNeeded};

use crate::dead::is_named;
use crate::shown::shows_by;
use cell_layout::Cell;
use heap_model::HeapImage;
use ideal_graph::{Ideal, IdealStop, is_marked};
use image_walk::next_from;

/// Whether a whole heap keeps exactly what can be reached in the graph of the ideal meaning: it shows the graph; each
/// object's cell carries the number of an object that can be reached; an object's cell names each store, weak table and
/// box; and eden and the segments hold no free cell.
///
/// # Errors
/// Only `IdealStop::NoMemory`: there was no memory for a mark for each object.
pub fn is_exact(image: &HeapImage, ideal: &Ideal) -> Result<bool, IdealStop>
    requires whole { Whole (image_heap image.now) }
    ensures exact { IfOk result (λ answer.
        IsTrue answer ↔ Exact (image_heap image.now) ideal.now.graph) }
    ensures memory { IfErr result (λ stop. stop ≡ IdealStop.NoMemory) }
{
    let marks = ideal.reachable()?;
    Ok(is_exact_by(image, ideal, &marks))
}

/// Whether an image keeps exactly what can be reached, which is marked.
fn is_exact_by(image: &HeapImage, ideal: &Ideal, marks: &[bool]) -> bool
    requires whole { Whole (image_heap image.now) }
    requires marked { marks.now ≡ reach ideal.now.graph }
    ensures { IsTrue result ↔ Exact (image_heap image.now) ideal.now.graph }
{
    if shows_by(image, ideal, marks) {
        are_needed(image, marks)
    } else {
        false
    }
}

/// Whether each cell is one that the heap must keep, or is free and of a page.
fn are_needed(image: &HeapImage, marks: &[bool]) -> bool
    requires sized { HasWords (image_heap image.now) }
    requires rows { HasRows (image_heap image.now) }
    ensures { IsTrue result ↔ AreNeeded (image_heap image.now) marks.now }
{
    let mut at = 0;
    while let Some(cell) = next_from(image, at) {
        if !is_needed(image, marks, cell) {
            return false;
        }
        at = cell.at + cell.size;
    }
    true
}

/// Whether the cell is a marked object's, or one that an object's cell names, or is free and of a
/// page.
fn is_needed(image: &HeapImage, marks: &[bool], cell: Cell) -> bool
    requires sized { HasWords (image_heap image.now) }
    requires rows { HasRows (image_heap image.now) }
    requires stands { StandsIn (image_heap image.now) cell }
    ensures { IsTrue result ↔ IsNeeded (image_heap image.now) marks.now cell }
{
    if cell.layout.kind.is_object() {
        return is_marked(marks, cell.header.object);
    }
    if cell.layout.kind.is_free() {
        return image.regions.is_page(cell.at);
    }
    is_named(image, cell)
}
