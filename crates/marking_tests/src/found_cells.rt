//! The cell that stands at an address of a heap, if one does.
ghost use Rattle.std.specs.Prelude.{◌≡◌, IfSome};
ghost use Rattle.heap_model.specs.RegionRows.{StandsBetween};
ghost use Rattle.heap_model.specs.Wholeness.{Whole};
ghost use Rattle.write_barrier.specs.MutatorState.{heap_of};
ghost use Rattle.ephemeron_mark.specs.Progress.{IsCellOf};

use cell_layout::Cell;
use heap_walk::Cells;
use write_barrier::Main;

/// The cell at an address of the heap.
pub(crate) fn find_cell(main: &Main, at: u32) -> Option<Cell>
    requires { Whole (heap_of main.now) }
    ensures { IfSome result (λ cell. IsCellOf (heap_of main.now) cell × (cell.at ≡ at)) }
{
    let regions = main.regions();
    let mut start = 0;
    while let Some(end) = regions.cells_end(start) {
        if let Some(cell) = find_between(main, start, end, at) {
            return Some(cell);
        }
        start = end;
    }
    None
}

/// The same, of the region that stands between two addresses.
fn find_between(main: &Main, start: u32, end: u32, at: u32) -> Option<Cell>
    requires whole { Whole (heap_of main.now) }
    requires stands { StandsBetween main.now.seat.space start end }
    ensures { IfSome result (λ cell. IsCellOf (heap_of main.now) cell × (cell.at ≡ at)) }
{
    let mut cells = Cells::between(main, start, end);
    'cells: while let Some(cell) = cells.next(main) {
        if cell.at == at {
            return Some(cell);
        }
    }
    None
}
