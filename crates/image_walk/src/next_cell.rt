//! The walk from one cell of a heap on to the next. It stands on rows that were found whole; the
//! walk along words that may be no row is in `row`.
ghost use Rattle.std.specs.Prelude.{◌≡◌, ◌+◌, ◌≤◌, ◌<◌, ◌↔◌, IsTrue, MatchOption, IfSome};
ghost use Rattle.page_space.specs.Extents.{words_count, CellsEndAt};
ghost use Rattle.heap_model.specs.Images.{image_heap};
ghost use Rattle.heap_model.specs.Wholeness.{HasRows};
ghost use Rattle.image_walk.specs.Words.{HasWords};
ghost use Rattle.image_walk.specs.Finding.{HasNoCellFrom, HasNoCellOf};
ghost use Rattle.image_walk.specs.Spans.{StandsIn};
ghost use Rattle.image_walk.specs.NextCell.{IsBoundary, IsUsedAt, IsNextCell};

use crate::reads::cell_there;
use cell_layout::Cell;
use heap_model::HeapImage;
use page_space::Region;

/// The first cell of a heap that stands at an address or behind it, where no cell reaches over
/// that. It goes on from there, so a walk through the heap takes as long as there are cells.
pub fn next_from(image: &HeapImage, from: u32) -> Option<Cell>
    requires sized { HasWords (image_heap image.now) }
    requires rows { HasRows (image_heap image.now) }
    requires boundary { IsBoundary (image_heap image.now) from }
    ensures next { let heap = image_heap image.now in MatchOption result (HasNoCellFrom heap from)
        (λ cell. IsNextCell heap from cell) }
    ensures ends { IfSome result (λ cell. (1 ≤ cell.size) × (cell.at + cell.size ≤ u32.MAX)) }
{
    // Tells that the sizes are within their limits, so that no region is empty.
    image.regions.sizes_fit();
    let mut at = from;
    while let Some(end) = image.regions.cells_end(at) {
        if let Some(cell) = next_of_row(image, at, end) {
            return Some(cell);
        }
        at = end;
    }
    None
}

/// The cell at an address in the row of the region that ends at another; none behind that row.
fn next_of_row(image: &HeapImage, at: u32, end: u32) -> Option<Cell>
    requires sized { HasWords (image_heap image.now) }
    requires rows { HasRows (image_heap image.now) }
    requires boundary { IsBoundary (image_heap image.now) at }
    requires within { CellsEndAt image.now.regions at end }
    requires inside { end ≤ words_count image.now.regions }
    ensures cell { let heap = image_heap image.now in MatchOption result (HasNoCellOf heap at end at)
        (λ cell. (cell.at ≡ at) × StandsIn heap cell) }
    ensures ends { IfSome result (λ cell. (1 ≤ cell.size) × (cell.at + cell.size ≤ u32.MAX)) }
{
    if is_used(image, at) {
        cell_there(image, at)
    } else {
        None
    }
}

/// Whether an address is none of eden's behind its used words.
fn is_used(image: &HeapImage, at: u32) -> bool
    requires { at < words_count image.now.regions }
    ensures { IsTrue result ↔ IsUsedAt (image_heap image.now) at }
{
    match image.regions.region(at) {
        Region::Eden => at - image.regions.start(Region::Eden) < image.used,
        _ => true,
    }
}
