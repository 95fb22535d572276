//! The pass along the pages: the cells of each come to their places, and what is left of it becomes free.
ghost use Rattle.std.specs.Prelude.{◌≡◌, ℕ, ◌+◌, ◌<◌, ◌≤◌, length};
ghost use Rattle.write_barrier.specs.MutatorState.{Mutator, MayStore, heap_of};
ghost use Rattle.compactor.specs.Sliding.{ArePlacedBefore, EndsPage, InPage, IsBegun, MayPack, MayPass};
ghost use Rattle.compactor.specs.Sliding.{Slid, page_start};

use crate::copying::copy_cell;
use crate::moves::Moves;
use cell_layout::Cell;
use heap_walk::Cells;
use page_space::{PAGE_WORDS, Run};
use write_barrier::Main;

/// Makes the words from an address up to the end of a page one free cell, if there are any, and its only free run.
fn end_page(main: &mut Main, page: u32, next: u32)
    requires quiet { MayStore main.old }
    requires there { page < main.old.seat.space.sizes.pages }
    requires rows { length main.old.free ≡ main.old.seat.space.sizes.pages }
    requires from { page_start page ≤ next }
    requires to { next ≤ page_start (page + 1) }
    ensures { EndsPage main.old main.new page next }
{
    // The regions are within their limits.
    main.addresses_fit();
    main.clear_free(page);
    let words = (page + 1) * PAGE_WORDS - next;
    if words > 0 {
        main.put_free_cell(next, words);
        main.add_free(page, Run { at: next, words });
    }
}

/// Moves a cell of a page to the next place, if it is not free, and answers the place after it.
fn pass(main: &mut Main, moves: &Moves, cell: &Cell, next: u32) -> u32
    requires may { (first : Mutator) × (page : ℕ) × (limit : ℕ) ×
        MayPass first main.old moves.now page limit next cell.now }
    ensures { (first : Mutator) (page limit : ℕ) → MayPass first main.old moves.now page limit next cell.now →
        InPage first main.new moves.now page limit result (cell.now.at + cell.now.size) }
{
    // There is a word for each address before the marks.
    main.addresses_fit();
    if cell.layout.kind.is_free() {
        return next;
    }
    copy_cell(main, moves, cell, next);
    next + cell.size
}

/// Packs a page.
fn pack_page(main: &mut Main, moves: &Moves, page: u32)
    requires may { (first : Mutator) × MayPack first main.old moves.now page }
    ensures { (first : Mutator) → MayPack first main.old moves.now page → Slid first main.new moves.now (page + 1) }
{
    // The regions are within their limits.
    main.addresses_fit();
    let start = page * PAGE_WORDS;
    let mut cells = Cells::between(main, start, start + PAGE_WORDS);
    let mut next = start;
    'cells: while let Some(cell) = cells.next(main) {
        next = pass(main, moves, &cell, next);
    }
    end_page(main, page, next);
}

/// Packs all pages.
pub(crate) fn pack_pages(main: &mut Main, moves: &Moves)
    requires begun { IsBegun main.old }
    requires placed { ArePlacedBefore (heap_of main.old) moves.now main.old.seat.space.sizes.pages }
    ensures { Slid main.old main.new moves.now main.old.seat.space.sizes.pages }
{
    for page in 0..main.regions().sizes().pages {
        pack_page(main, moves, page);
    }
}
