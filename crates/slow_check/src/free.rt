//! Whether runs of words are free cells of pages.
ghost use Rattle.std.specs.Prelude.{◌↔◌, IsTrue, map};
ghost use Rattle.heap_model.specs.Images.{image_heap};
ghost use Rattle.heap_model.specs.Collectable.{AreFreeRuns, IsFreeCell};
ghost use Rattle.heap_model.specs.Wholeness.{HasRows};
ghost use Rattle.image_walk.specs.Words.{HasWords};
ghost use Rattle.slow_check.specs.FreeCells.{AreFreeCells};

use heap_model::HeapImage;
use image_walk::find_cell;
use page_space::Run;

/// Whether each of these runs, in rows by pages, is one free cell of a page. For each it walks
/// through the cells before it in its page.
pub fn are_free_runs(image: &HeapImage, rows: &[Vec<Run>]) -> bool
    requires sized { HasWords (image_heap image.now) }
    requires rows { HasRows (image_heap image.now) }
    ensures { IsTrue result
        ↔ AreFreeRuns (image_heap image.now) (map (λ row. row.items) rows.now) }
{
    for row in rows {
        if !are_free_cells(image, row) {
            return false;
        }
    }
    true
}

/// Whether each run of a row is one free cell of a page.
fn are_free_cells(image: &HeapImage, row: &[Run]) -> bool
    requires sized { HasWords (image_heap image.now) }
    requires rows { HasRows (image_heap image.now) }
    ensures { IsTrue result ↔ AreFreeCells (image_heap image.now) row.now }
{
    for run in row {
        if !is_free_cell(image, *run) {
            return false;
        }
    }
    true
}

/// Whether a run is one free cell of a page.
fn is_free_cell(image: &HeapImage, run: Run) -> bool
    requires sized { HasWords (image_heap image.now) }
    requires rows { HasRows (image_heap image.now) }
    ensures { IsTrue result ↔ IsFreeCell (image_heap image.now) run }
{
    let Some(cell) = find_cell(image, run.at) else {
        return false;
    };
    if cell.size != run.words {
        return false;
    }
    if cell.layout.kind.is_free() {
        image.regions.is_page(run.at)
    } else {
        false
    }
}
