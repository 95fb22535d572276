//! The census of a heap: how many objects have cells in it, and how many pairs its weak maps hold.
ghost use Rattle.std.specs.Prelude.{◌≡◌, ◌+◌, ◌*◌, ◌≤◌, ℕ, List};
ghost use Rattle.heap_model.specs.Heaps.{HasCell, Row, AreRows};
ghost use Rattle.heap_model.specs.RegionRows.{StandsBetween};
ghost use Rattle.heap_model.specs.Wholeness.{Whole};
ghost use Rattle.live_cells.specs.Census.{pairs_counted};
ghost use Rattle.write_barrier.specs.MutatorState.{heap_of};
ghost use Rattle.collector.specs.Counted.{IsCensusOf};
ghost use Rattle.collector.specs.Passing.{CountsTo};
ghost use Rattle.live_cells.specs.Counting.{word_pairs_most};

use cell_layout::Cell;
use heap_model::cells::COUNT;
use heap_walk::Cells;
use tagged_word::Kind;
use write_barrier::Main;

/// How many objects, and how many entries of weak maps.
#[derive(Clone, Copy, Debug, PartialEq, Eq)]
pub struct Census {
    pub objects: u32,
    pub entries: u32,
}

/// How many pairs an object counts: a weak map those of its table.
fn pairs_of(main: &Main, cell: &Cell) -> u32
    requires whole { Whole (heap_of main.now) }
    requires stands { (words : List ℕ) × HasCell (heap_of main.now) cell.now words }
    ensures counted { result ≡ pairs_counted (heap_of main.now) cell.now.layout.kind cell.now.at }
    ensures few { result ≤ word_pairs_most * cell.now.size }
{
    match cell.layout.kind {
        Kind::Weak => main.slot(cell.at, COUNT) as u32,
        _ => 0,
    }
}

/// The census with one cell more, which counts where it is an object's.
fn with_cell(main: &Main, census: Census, cell: &Cell) -> Census
    requires whole { Whole (heap_of main.now) }
    requires stands { (words : List ℕ) × HasCell (heap_of main.now) cell.now words }
    requires counts { CountsTo (heap_of main.now) cell.now.at census }
    ensures counts { CountsTo (heap_of main.now) (cell.now.at + cell.now.size) result }
{
    if !cell.layout.kind.is_object() {
        return census;
    }
    // There is a word for each address before the marks, and for each word few pairs are counted.
    main.addresses_fit();
    Census {
        objects: census.objects + 1,
        entries: census.entries + pairs_of(main, cell),
    }
}

/// The census with the cells of the region that stands between two addresses.
fn count_row(main: &Main, census: Census, start: u32, end: u32) -> Census
    requires whole { Whole (heap_of main.now) }
    requires stands { StandsBetween main.now.seat.space start end }
    requires counts { CountsTo (heap_of main.now) start census }
    ensures { CountsTo (heap_of main.now) end result }
{
    let mut cells = Cells::between(main, start, end);
    let mut counted = census;
    'cells: while let Some(cell) = cells.next(main) {
        counted = with_cell(main, counted, &cell);
    }
    counted
}

/// Counts the cells of objects in pages, eden and segments, and the pairs that their weak maps count.
/// It goes along the cells of each region once, and reads four words of each at most.
pub(crate) fn count_cells(main: &Main) -> Census
    requires { Whole (heap_of main.now) }
    ensures { (rows : List Row) → AreRows (heap_of main.now) rows → IsCensusOf (heap_of main.now) rows result }
{
    let regions = main.regions();
    let mut census = Census {
        objects: 0,
        entries: 0,
    };
    let mut at = 0;
    while let Some(end) = regions.cells_end(at) {
        census = count_row(main, census, at, end);
        at = end;
    }
    census
}
