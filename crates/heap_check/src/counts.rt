//! How many objects have cells, and how many pairs of tables are filled.
ghost use Rattle.std.specs.Prelude.{◌≡◌, ◌+◌, ◌*◌, ◌≤◌, List};
ghost use Rattle.heap_model.specs.Images.{image_heap};
ghost use Rattle.heap_model.specs.Heaps.{Row, AreRows};
ghost use Rattle.heap_model.specs.Wholeness.{Whole};
ghost use Rattle.image_walk.specs.Spans.{StandsIn};
ghost use Rattle.live_cells.specs.Census.{objects_in, pairs_counted};
ghost use Rattle.live_cells.specs.Counting.{CountsCellsAndPairs, CountsTo, word_pairs_most};

use cell_layout::Cell;
use heap_model::HeapImage;
use heap_model::cells::COUNT;
use image_walk::{next_from, word_of};
use tagged_word::Kind;

/// How many objects have cells in a heap, and how many entries their weak maps count.
#[derive(Clone, Copy, Debug, PartialEq, Eq)]
pub struct Counts {
    pub objects: u64,
    pub entries: u64,
}

/// Counts the cells of objects and the entries of weak maps.
pub(crate) fn count(image: &HeapImage) -> Counts
    requires whole { Whole (image_heap image.now) }
    ensures { (rows : List Row) → AreRows (image_heap image.now) rows
        → CountsCellsAndPairs (image_heap image.now) (objects_in rows) result.objects result.entries }
{
    let mut counts = Counts {
        objects: 0,
        entries: 0,
    };
    let mut at = 0;
    while let Some(cell) = next_from(image, at) {
        counts = with_cell(image, counts, cell);
        at = cell.at + cell.size;
    }
    counts
}

/// The counts with one cell more.
fn with_cell(image: &HeapImage, counts: Counts, cell: Cell) -> Counts
    requires whole { Whole (image_heap image.now) }
    requires stands { StandsIn (image_heap image.now) cell }
    requires counts { CountsTo (image_heap image.now) cell.at counts.objects counts.entries }
    ensures { CountsTo (image_heap image.now) (cell.at + cell.size) result.objects result.entries }
{
    // No address of a heap is past 32 bits.
    image.regions.sizes_fit();
    if !cell.layout.kind.is_object() {
        return counts;
    }
    Counts {
        objects: counts.objects + 1,
        entries: counts.entries + entries_of(image, cell),
    }
}

/// How many entries an object counts: a weak map those of its table.
fn entries_of(image: &HeapImage, cell: Cell) -> u64
    requires whole { Whole (image_heap image.now) }
    requires stands { StandsIn (image_heap image.now) cell }
    ensures counted { result ≡ pairs_counted (image_heap image.now) cell.layout.kind cell.at }
    ensures few { result ≤ word_pairs_most * cell.size }
{
    match cell.layout.kind {
        Kind::Weak => word_of(image, cell, COUNT),
        _ => 0,
    }
}
