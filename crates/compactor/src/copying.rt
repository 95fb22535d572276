//! One cell at its place: its words are copied there, its slots refer to where cells come.
ghost use Rattle.std.specs.Prelude.{◌≡◌, ◌+◌, ◌<◌, ◌≤◌};
ghost use Rattle.page_space.specs.Extents.{marks_start};
ghost use Rattle.compactor.specs.Copying.{Copies, CopiesOne};
ghost use Rattle.write_barrier.specs.MutatorState.{MayStore};

use crate::moves::Moves;
use cell_layout::Cell;
use tagged_word::Word;
use write_barrier::Main;

/// Copies the word at an offset of a cell to the same offset from another address, moved if it is a slot's.
#[inline(always)]
fn copy_word(main: &mut Main, moves: &Moves, cell: &Cell, to: u32, offset: u32)
    requires quiet { MayStore main.old }
    requires within { cell.now.at + offset < marks_start main.old.seat.space }
    requires front { to ≤ cell.now.at }
    ensures { CopiesOne main.old main.new moves.now cell.now to offset }
{
    // There is a word for each address before the marks.
    main.addresses_fit();
    let word = main.slot(cell.at, offset);
    if cell.layout.is_scavenge_slot(cell.length, offset) {
        main.store(to, offset, moves.moved(Word(word)));
    } else {
        main.write_slot(to, offset, word);
    }
}

/// Copies a cell to an address at or before its own, word by word from its first on: so no word is written before it
/// was read. Its slots are moved.
pub(crate) fn copy_cell(main: &mut Main, moves: &Moves, cell: &Cell, to: u32)
    requires quiet { MayStore main.old }
    requires within { cell.now.at + cell.now.size ≤ marks_start main.old.seat.space }
    requires front { to ≤ cell.now.at }
    ensures { Copies main.old main.new moves.now cell.now to cell.now.size }
{
    for offset in 0..cell.size {
        copy_word(main, moves, cell, to, offset);
    }
}
