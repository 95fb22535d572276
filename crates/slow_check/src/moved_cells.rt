//! Whether each cell that stays stands in another heap, moved, and each cell there is from one.
ghost use Rattle.std.specs.Prelude.{◌+◌, ◌↔◌, IsTrue, MatchOption};
ghost use Rattle.heap_model.specs.Images.{image_heap};
ghost use Rattle.heap_model.specs.Heaps.{words_of_cell};
ghost use Rattle.heap_model.specs.Wholeness.{HasRows};
ghost use Rattle.heap_moves.specs.Moved.{StandsMoved, IsFrom};
ghost use Rattle.image_walk.specs.Words.{HasWords};
ghost use Rattle.image_walk.specs.NextCell.{IsBoundary};
ghost use Rattle.image_walk.specs.Spans.{StandsIn};
ghost use Rattle.slow_check.specs.Moves.{to_of};
ghost use Rattle.slow_check.specs.MovedCells.{AreMovedCells, IsMovedCell, ComesTo, IsAlike};
ghost use Rattle.slow_check.specs.MovedCells.{HasNoComerFrom, IsComer, AreFrom, IsUnused};

use crate::moved_words::are_moved;
use crate::moves::{Move, place_after};
use cell_layout::Cell;
use heap_model::HeapImage;
use image_walk::{find_cell, next_from};

/// Whether each cell of a heap that stays is alone where it came, and stands there, moved.
pub(crate) fn are_moved_cells(old: &HeapImage, new: &HeapImage, moves: &[Move]) -> bool
    requires sized { HasWords (image_heap old.now) }
    requires rows { HasRows (image_heap old.now) }
    requires new_sized { HasWords (image_heap new.now) }
    requires new_rows { HasRows (image_heap new.now) }
    ensures { IsTrue result
        ↔ AreMovedCells (image_heap old.now) (image_heap new.now) (to_of moves.now) }
{
    let mut at = 0;
    while let Some(cell) = next_from(old, at) {
        if !is_moved_cell(old, new, moves, cell) {
            return false;
        }
        at = cell.at + cell.size;
    }
    true
}

/// Whether a cell, if it stays, is alone where it came, and stands there, moved.
fn is_moved_cell(old: &HeapImage, new: &HeapImage, moves: &[Move], cell: Cell) -> bool
    requires sized { HasWords (image_heap old.now) }
    requires rows { HasRows (image_heap old.now) }
    requires stands { StandsIn (image_heap old.now) cell }
    requires onward { IsBoundary (image_heap old.now) (cell.at + cell.size) }
    requires new_sized { HasWords (image_heap new.now) }
    requires new_rows { HasRows (image_heap new.now) }
    ensures { IsTrue result
        ↔ IsMovedCell (image_heap old.now) (image_heap new.now) (to_of moves.now) cell }
{
    match place_after(moves, cell.at as u64) {
        Some(now) => comes_to(old, new, moves, cell, now),
        None => true,
    }
}

/// Whether a cell is alone where it came, and stands there, moved.
fn comes_to(old: &HeapImage, new: &HeapImage, moves: &[Move], cell: Cell, now: u32) -> bool
    requires sized { HasWords (image_heap old.now) }
    requires rows { HasRows (image_heap old.now) }
    requires stands { StandsIn (image_heap old.now) cell }
    requires onward { IsBoundary (image_heap old.now) (cell.at + cell.size) }
    requires new_sized { HasWords (image_heap new.now) }
    requires new_rows { HasRows (image_heap new.now) }
    ensures { IsTrue result
        ↔ ComesTo (image_heap old.now) (image_heap new.now) (to_of moves.now) cell now }
{
    // No address of a heap is past 32 bits.
    old.regions.sizes_fit();
    if comer_from(old, moves, now, cell.at + cell.size).is_some() {
        return false;
    }
    stands_moved(old, new, moves, cell, now)
}

/// Whether a cell stands at an address of another heap, moved.
fn stands_moved(old: &HeapImage, new: &HeapImage, moves: &[Move], cell: Cell, now: u32) -> bool
    requires stands { StandsIn (image_heap old.now) cell }
    requires new_sized { HasWords (image_heap new.now) }
    requires new_rows { HasRows (image_heap new.now) }
    ensures { IsTrue result ↔ StandsMoved (image_heap new.now) (to_of moves.now) cell
        (words_of_cell (image_heap old.now) cell) now }
{
    let Some(other) = find_cell(new, now) else {
        return false;
    };
    if !is_alike(cell, other) {
        return false;
    }
    are_moved(old, new, moves, cell, other)
}

/// Whether a cell is another one, but for its address.
fn is_alike(cell: Cell, other: Cell) -> bool
    ensures { IsTrue result ↔ IsAlike cell other }
{
    if other.header != cell.header {
        return false;
    }
    if other.layout != cell.layout {
        return false;
    }
    other.length == cell.length && other.size == cell.size
}

/// The first cell of a heap that stands at an address or behind it, where no cell reaches over that,
/// and comes to an address.
fn comer_from(image: &HeapImage, moves: &[Move], now: u32, from: u32) -> Option<Cell>
    requires sized { HasWords (image_heap image.now) }
    requires rows { HasRows (image_heap image.now) }
    requires boundary { IsBoundary (image_heap image.now) from }
    ensures { MatchOption result (HasNoComerFrom (image_heap image.now) (to_of moves.now) now from)
        (λ cell. IsComer (image_heap image.now) (to_of moves.now) now from cell) }
{
    let mut at = from;
    while let Some(cell) = next_from(image, at) {
        if place_after(moves, cell.at as u64) == Some(now) {
            return Some(cell);
        }
        at = cell.at + cell.size;
    }
    None
}

/// Whether each cell of a heap is from one of another that came there, or is free and has no number.
pub(crate) fn are_from(old: &HeapImage, new: &HeapImage, moves: &[Move]) -> bool
    requires sized { HasWords (image_heap old.now) }
    requires rows { HasRows (image_heap old.now) }
    requires new_sized { HasWords (image_heap new.now) }
    requires new_rows { HasRows (image_heap new.now) }
    ensures { IsTrue result
        ↔ AreFrom (image_heap old.now) (image_heap new.now) (to_of moves.now) }
{
    let mut at = 0;
    while let Some(cell) = next_from(new, at) {
        if !is_from(old, moves, cell) {
            return false;
        }
        at = cell.at + cell.size;
    }
    true
}

/// Whether a cell is from one of the heap that came there, or is free and has no number.
fn is_from(old: &HeapImage, moves: &[Move], cell: Cell) -> bool
    requires sized { HasWords (image_heap old.now) }
    requires rows { HasRows (image_heap old.now) }
    ensures { IsTrue result ↔ IsFrom (image_heap old.now) (to_of moves.now) cell }
{
    if is_unused(cell) {
        return true;
    }
    comer_from(old, moves, cell.at, 0).is_some()
}

/// Whether a cell is free and has no number.
fn is_unused(cell: Cell) -> bool
    ensures { IsTrue result ↔ IsUnused cell }
{
    if cell.layout.kind.is_free() {
        cell.header.object == 0
    } else {
        false
    }
}
