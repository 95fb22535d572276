//! Going along the row of a region, from cell to cell.
ghost use Rattle.std.specs.Prelude.{◌≡◌, ℕ, ◌+◌, List};
ghost use Rattle.page_space.specs.Extents.{roots_start};
ghost use Rattle.write_barrier.specs.MutatorState.{Mutator};
ghost use Rattle.sweeper.specs.Sweeping.{InRow, MayPass, MaySweep, Sweeping};

use crate::covering::cover;
use cell_layout::Cell;
use cell_list::CellList;
use heap_walk::Cells;
use page_space::PAGE_WORDS;
use write_barrier::Main;

/// Makes the cells from an address up to another one free cell, if there are any.
fn end_stretch(main: &mut Main, from: u32, at: u32)
    requires row { (first : Mutator) × (marked : List ℕ) × (start : ℕ) × (end : ℕ) × (limit : ℕ) ×
        InRow first main.old marked start end limit from at }
    ensures { (first : Mutator) (marked : List ℕ) (start end limit : ℕ) →
        InRow first main.old marked start end limit from at → Sweeping first main.new marked at }
{
    if from < at {
        cover(main, from, at);
    }
}

/// Passes a cell by. It answers from where on the cells that were passed by are not marked and wait to be
/// made one free cell, which has no more words than a page.
fn pass(main: &mut Main, marked: &CellList, from: u32, cell: &Cell) -> u32
    requires may { (first : Mutator) × (start : ℕ) × (end : ℕ) × (limit : ℕ) ×
        MayPass first main.old marked.now.addresses start end limit from cell.now }
    requires bound { marked.now.bound ≡ roots_start main.old.seat.space }
    ensures { (first : Mutator) (start end limit : ℕ) →
        MayPass first main.old marked.now.addresses start end limit from cell.now →
        let behind = cell.now.at + cell.now.size in
        InRow first main.new marked.now.addresses start end limit result behind }
{
    // There is a word for each address before the marks.
    main.addresses_fit();
    let behind = cell.at + cell.size;
    if marked.contains(cell.at) {
        end_stretch(main, from, cell.at);
        return behind;
    }
    if behind - from > PAGE_WORDS {
        end_stretch(main, from, cell.at);
        return cell.at;
    }
    from
}

/// Sweeps the row of the region that stands between two addresses. A stretch becomes a free cell when the
/// walk is past its last cell, so no word is written that the walk still reads.
pub(crate) fn sweep_row(main: &mut Main, marked: &CellList, start: u32, end: u32)
    requires may { (first : Mutator) × MaySweep first main.old marked.now.addresses start end }
    requires bound { marked.now.bound ≡ roots_start main.old.seat.space }
    ensures { (first : Mutator) → MaySweep first main.old marked.now.addresses start end →
        Sweeping first main.new marked.now.addresses end }
{
    let mut cells = Cells::between(main, start, end);
    let mut from = start;
    'cells: while let Some(cell) = cells.next(main) {
        from = pass(main, marked, from, &cell);
    }
    end_stretch(main, from, cells.at);
}
