//! The walk along the cells of a region.
ghost use Rattle.std.specs.Prelude.{◌≡◌, ℕ, ◌+◌, ◌≤◌, List, IfSome, IsNone};
ghost use Rattle.page_space.specs.Extents.{marks_start};
ghost use Rattle.write_barrier.specs.Seats.{heap_words};
ghost use Rattle.heap_model.specs.Types.{Cell};
ghost use Rattle.heap_model.specs.Heaps.{Heap};
ghost use Rattle.heap_model.specs.RegionRows.{StandsBetween};
ghost use Rattle.heap_model.specs.Wholeness.{HasRows};
ghost use Rattle.heap_walk.specs.Limits.{IsLimit};
ghost use Rattle.heap_walk.specs.Walks.{StandAhead, IsNext, StepsPast};

use crate::known_cells::known_cell_by;
use crate::rows::row_limit;
use cell_layout::Cell;
use write_barrier::Main;

/// A walk along the used row of a region: where the next cell stands, and where the row ends at the latest.
/// It holds nothing of the heap, so words may be written between two steps, if only before `at`.
#[derive(Clone, Copy)]
pub struct Cells {
    /// The address of the next cell. At the end of the walk it is the address after the last one.
    pub at: u32,
    /// The row ends here, or before, where a word is 0.
    pub limit: u32,
}

impl Cells {
    /// The walk along the row of the region that stands between two addresses, before its first step.
    pub fn between(main: &Main, start: u32, end: u32) -> Cells
        requires stands { StandsBetween main.now.seat.space start end }
        requires few { main.now.young.used ≤ main.now.seat.space.sizes.young }
        ensures starts { result.at ≡ start }
        ensures limit { (heap : Heap) → heap.space ≡ main.now.seat.space → heap.used ≡ main.now.young.used →
            HasRows heap → IsLimit heap start end result.limit }
    {
        Cells {
            at: start,
            limit: row_limit(main, start, end),
        }
    }

    /// The next cell of the row, if it goes on: the walk steps past it.
    #[inline(always)]
    pub fn next(&mut self, main: &Main) -> Option<Cell>
        requires ahead { (row_end : ℕ) × (cells : List Cell) × let words = heap_words main.now.seat in
            StandAhead main.now.seat.space words self.old.at self.old.limit row_end cells }
        requires within { self.old.limit ≤ marks_start main.now.seat.space }
        ensures next { IfSome result (λ cell. (row_end : ℕ) (cells : List Cell) →
            StandAhead main.now.seat.space (heap_words main.now.seat) self.old.at self.old.limit row_end cells →
            IsNext main.now.seat.space (heap_words main.now.seat) self.old.at self.old.limit row_end cells cell) }
        ensures over { IsNone result → (row_end : ℕ) (cells : List Cell) →
            StandAhead main.now.seat.space (heap_words main.now.seat) self.old.at self.old.limit row_end cells →
            self.old.at ≡ row_end }
        ensures steps { IfSome result (λ cell. StepsPast self.old self.new cell) }
        ensures stays { IsNone result → self.new ≡ self.old }
    {
        // No address is past 32 bits.
        main.addresses_fit();
        if self.at >= self.limit {
            return None;
        }
        let word = main.word(self.at);
        if word == 0 {
            return None;
        }
        let cell = known_cell_by(main, self.at, word);
        self.at += cell.size;
        Some(cell)
    }
}
