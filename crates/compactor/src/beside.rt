//! What stands beside the pages: cells of the young generation and variables stay in place, and what refers to cells
//! of pages comes to refer to their places.
ghost use Rattle.std.specs.Prelude.{◌≡◌, ℕ, ◌+◌, ◌≤◌};
ghost use Rattle.page_space.specs.Extents.{marks_start, roots_start};
ghost use Rattle.write_barrier.specs.MutatorState.{Mutator, MayStore};
ghost use Rattle.compactor.specs.Sliding.{IsBegun, Slid};
ghost use Rattle.compactor.specs.Young.{MayMove, RootsMoved, Stays, YoungMoved};

use crate::copying::copy_cell;
use crate::moves::Moves;
use cell_layout::Cell;
use heap_walk::Cells;
use page_space::PAGE_WORDS;
use tagged_word::Word;
use write_barrier::Main;

/// Moves the slots of a young cell, if it is not free. The cell stays in place.
fn move_slots(main: &mut Main, moves: &Moves, cell: &Cell)
    requires quiet { MayStore main.old }
    requires within { cell.now.at + cell.now.size ≤ marks_start main.old.seat.space }
    ensures { Stays main.old main.new moves.now cell.now }
{
    if !cell.layout.kind.is_free() {
        copy_cell(main, moves, cell, cell.at);
    }
}

/// Moves the slots of the cells in the row of a region of young cells, which stands between two addresses.
fn move_row(main: &mut Main, moves: &Moves, start: u32, end: u32)
    requires may { (first : Mutator) × (was : Mutator) × MayMove first was main.old moves.now start end }
    ensures { (first was : Mutator) → MayMove first was main.old moves.now start end →
        YoungMoved first was main.new moves.now end }
{
    let mut cells = Cells::between(main, start, end);
    'cells: while let Some(cell) = cells.next(main) {
        move_slots(main, moves, &cell);
    }
}

/// Moves the slots of all young cells.
pub(crate) fn move_young(main: &mut Main, moves: &Moves)
    requires may { (first : Mutator) × IsBegun first ×
        Slid first main.old moves.now first.seat.space.sizes.pages }
    ensures { (first : Mutator) → IsBegun first →
        Slid first main.old moves.now first.seat.space.sizes.pages →
        YoungMoved first main.old main.new moves.now (roots_start first.seat.space) }
{
    let regions = main.regions();
    let mut at = PAGE_WORDS * regions.sizes().pages;
    while let Some(end) = regions.cells_end(at) {
        move_row(main, moves, at, end);
        at = end;
    }
}

/// Moves the first root word of each variable. The second one is never a reference.
pub(crate) fn move_roots(main: &mut Main, moves: &Moves)
    requires quiet { MayStore main.old }
    ensures { RootsMoved main.old main.new moves.now main.old.seat.space.variables }
{
    // No address is past 32 bits.
    main.addresses_fit();
    let regions = main.regions();
    for variable in 0..regions.variables() {
        let root = regions.root_at(variable);
        let word = main.word(root);
        main.store(root, 0, moves.moved(Word(word)));
    }
}
