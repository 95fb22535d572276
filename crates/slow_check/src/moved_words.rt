//! Whether the words of a cell are those of another one moved.
ghost use Rattle.std.specs.Prelude.{◌≡◌, ◌<◌, ◌↔◌, IsTrue};
ghost use Rattle.heap_model.specs.Images.{image_heap};
ghost use Rattle.heap_model.specs.Heaps.{words_of_cell};
ghost use Rattle.heap_moves.specs.Moved.{IsMovedWord, AreMoved};
ghost use Rattle.image_walk.specs.Spans.{StandsIn};
ghost use Rattle.slow_check.specs.Moves.{to_of};
ghost use Rattle.slow_check.specs.MovedCells.{IsMovedAt};

use crate::moves::{Move, place_after};
use cell_layout::Cell;
use heap_model::HeapImage;
use image_walk::word_of;
use tagged_word::Word;

/// Whether a word is another one moved.
pub(crate) fn is_moved_word(moves: &[Move], old: u64, new: u64) -> bool
    ensures { IsTrue result ↔ IsMovedWord (to_of moves.now) old new }
{
    // The two lowest bits of a reference are 01, and no other word has them.
    if old % 4 != 1 {
        return new == old;
    }
    match place_after(moves, old / 4) {
        Some(now) => new == Word::reference(now).0,
        None => false,
    }
}

/// Whether the words of a cell are those of another one moved.
pub(crate) fn are_moved(
    old: &HeapImage,
    new: &HeapImage,
    moves: &[Move],
    cell: Cell,
    other: Cell,
) -> bool
    requires stands { StandsIn (image_heap old.now) cell }
    requires other_stands { StandsIn (image_heap new.now) other }
    requires long { other.size ≡ cell.size }
    ensures { IsTrue result ↔ AreMoved (to_of moves.now) cell
        (words_of_cell (image_heap old.now) cell) (words_of_cell (image_heap new.now) other) }
{
    for offset in 0..cell.size {
        if !is_moved_at(old, new, moves, cell, other, offset) {
            return false;
        }
    }
    true
}

/// Whether the word of a cell at an offset is that of another one moved.
fn is_moved_at(
    old: &HeapImage,
    new: &HeapImage,
    moves: &[Move],
    cell: Cell,
    other: Cell,
    offset: u32,
) -> bool
    requires stands { StandsIn (image_heap old.now) cell }
    requires other_stands { StandsIn (image_heap new.now) other }
    requires long { other.size ≡ cell.size }
    requires within { offset < cell.size }
    ensures { IsTrue result ↔ IsMovedAt (to_of moves.now) cell
        (words_of_cell (image_heap old.now) cell) (words_of_cell (image_heap new.now) other) offset }
{
    let word = word_of(old, cell, offset);
    let now = word_of(new, other, offset);
    if cell.layout.is_scavenge_slot(cell.length, offset) {
        is_moved_word(moves, word, now)
    } else {
        now == word
    }
}
