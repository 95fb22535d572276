//! Where the used row of a region ends.
ghost use Rattle.std.specs.Prelude.{◌≡◌, ◌≤◌};
ghost use Rattle.heap_model.specs.Heaps.{Heap};
ghost use Rattle.heap_model.specs.RegionRows.{StandsBetween};
ghost use Rattle.heap_model.specs.Wholeness.{HasRows};
ghost use Rattle.write_barrier.specs.MutatorState.{heap_of};
ghost use Rattle.heap_walk.specs.Limits.{IsLimit, EndsRow};

use crate::cells::Cells;
use page_space::Region;
use write_barrier::Main;

/// Where the row of the region that stands between two addresses ends at the latest.
pub(crate) fn row_limit(main: &Main, start: u32, end: u32) -> u32
    requires stands { StandsBetween main.now.seat.space start end }
    requires few { main.now.young.used ≤ main.now.seat.space.sizes.young }
    ensures { (heap : Heap) → heap.space ≡ main.now.seat.space → heap.used ≡ main.now.young.used →
        HasRows heap → IsLimit heap start end result }
{
    match main.regions().region(start) {
        Region::Eden => start + main.used(),
        _ => end,
    }
}

/// The address after the used row of the region that stands between two addresses. Only in a segment is it
/// found by a walk: eden's used words are counted, and a page is used whole.
pub fn row_end(main: &Main, start: u32, end: u32) -> u32
    requires rows { HasRows (heap_of main.now) }
    requires stands { StandsBetween main.now.seat.space start end }
    ensures { EndsRow (heap_of main.now) start result }
{
    let mut cells = Cells::between(main, start, end);
    if let Region::Segment { half: _, worker: _ } = main.regions().region(start) {
        while let Some(_) = cells.next(main) {}
        return cells.at;
    }
    cells.limit
}
