//! The pass of places: it goes along the cells of each page, and writes no word of the heap.
ghost use Rattle.std.specs.Prelude.{◌≡◌, ◌≢◌, ℕ, ◌+◌, ◌<◌, ◌≤◌, true};
ghost use Rattle.page_space.specs.Extents.{eden_start};
ghost use Rattle.heap_model.specs.Wholeness.{HasRows};
ghost use Rattle.write_barrier.specs.MutatorState.{heap_of};
ghost use Rattle.compactor.specs.Sliding.{ArePlacedBefore, CountsBefore, is_kept, kept_words, page_start};
ghost use Rattle.compactor.specs.Tables.{place_in};

use crate::moves::Moves;
use cell_layout::Cell;
use heap_walk::Cells;
use page_space::PAGE_WORDS;
use write_barrier::Main;

/// Puts the place of a cell, if it is not free, and answers the next place.
#[inline(always)]
fn place_cell(moves: &mut Moves, cell: &Cell, next: u32) -> u32
    requires below { cell.now.at < moves.old.bound }
    requires fits { next + cell.now.size ≤ u32.MAX }
    ensures next { result ≡ next + kept_words cell.now }
    ensures own { is_kept cell.now ≡ true → place_in moves.new cell.now.at ≡ next }
    ensures others { (a : ℕ) → a ≢ cell.now.at → place_in moves.new a ≡ place_in moves.old a }
    ensures bound { moves.new.bound ≡ moves.old.bound }
{
    if cell.layout.kind.is_free() {
        return next;
    }
    moves.put(cell.at, next);
    next + cell.size
}

/// Counts a cell whose place is the next one, if it is not free and comes to another address.
#[inline(always)]
fn count_cell(cell: &Cell, next: u32, moving: u64) -> u64
    requires { moving < u64.MAX }
    ensures moves { is_kept cell.now ≡ true → next ≢ cell.now.at → result ≡ moving + 1 }
    ensures stays { (is_kept cell.now ≡ true → next ≡ cell.now.at) → result ≡ moving }
{
    if cell.layout.kind.is_free() || next == cell.at {
        return moving;
    }
    moving + 1
}

/// Puts the places of the cells of a page: those that are not free stand together at its front, in their order. It
/// counts those that come to another address, and answers how many they are with those of the pages before.
fn place_page(main: &Main, moves: &mut Moves, page: u32, before: u64) -> u64
    requires rows { HasRows (heap_of main.now) }
    requires there { page < main.now.seat.space.sizes.pages }
    requires before { ArePlacedBefore (heap_of main.now) moves.old page }
    requires counted { CountsBefore (heap_of main.now) moves.old (page_start page) before }
    ensures placed { ArePlacedBefore (heap_of main.now) moves.new (page + 1) }
    ensures counted { CountsBefore (heap_of main.now) moves.new (page_start (page + 1)) result }
{
    // The regions are within their limits.
    main.addresses_fit();
    let start = page * PAGE_WORDS;
    let mut cells = Cells::between(main, start, start + PAGE_WORDS);
    let mut next = start;
    let mut moving = before;
    'cells: while let Some(cell) = cells.next(main) {
        moving = count_cell(&cell, next, moving);
        next = place_cell(moves, &cell, next);
    }
    moving
}

/// Puts the places of the cells of all pages, and answers how many of them come to another address.
pub(crate) fn place_cells(main: &Main, moves: &mut Moves) -> u64
    requires rows { HasRows (heap_of main.now) }
    requires bound { moves.old.bound ≡ eden_start main.now.seat.space }
    ensures placed { ArePlacedBefore (heap_of main.now) moves.new main.now.seat.space.sizes.pages }
    ensures counted { CountsBefore (heap_of main.now) moves.new (eden_start main.now.seat.space) result }
{
    let mut moving = 0;
    for page in 0..main.regions().sizes().pages {
        moving = place_page(main, moves, page, moving);
    }
    moving
}
