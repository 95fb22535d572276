//! Where the objects of a heap stand.
ghost use Rattle.std.specs.Prelude.{◌↔◌, ◌+◌, ◌≤◌, IsTrue, MatchOption, IfSome};
ghost use Rattle.heap_model.specs.Images.{image_heap};
ghost use Rattle.heap_model.specs.Slots.{IsPlace};
ghost use Rattle.heap_model.specs.Wholeness.{HasRows};
ghost use Rattle.image_walk.specs.Words.{HasWords};
ghost use Rattle.image_walk.specs.NextCell.{IsBoundary};
ghost use Rattle.slow_check.specs.Places.{IsOf, IsFirstPlace, HasNoPlaceFrom, IsOnlyPlace};
ghost use Rattle.slow_check.specs.Places.{HasNoOnlyPlace, AreMade, HasMadeNumber};

use cell_layout::Cell;
use heap_model::HeapImage;
use image_walk::{find_cell, next_from};

/// Whether the cell is an object's own and carries the number.
fn is_of(cell: Cell, number: usize) -> bool
    ensures { IsTrue result ↔ IsOf cell number }
{
    if cell.layout.kind.is_object() {
        cell.header.object as usize == number
    } else {
        false
    }
}

/// Whether an object of this number stands at an address.
pub(crate) fn is_place(image: &HeapImage, number: usize, at: u32) -> bool
    requires sized { HasWords (image_heap image.now) }
    requires rows { HasRows (image_heap image.now) }
    ensures { IsTrue result ↔ IsPlace (image_heap image.now) number at }
{
    match find_cell(image, at) {
        Some(cell) => is_of(cell, number),
        None => false,
    }
}

/// The cell at the only place of an object of this number; none where it has no place, or more than
/// one.
pub(crate) fn only_place(image: &HeapImage, number: usize) -> Option<Cell>
    requires sized { HasWords (image_heap image.now) }
    requires rows { HasRows (image_heap image.now) }
    ensures { MatchOption result (HasNoOnlyPlace (image_heap image.now) number)
        (λ cell. IsOnlyPlace (image_heap image.now) number cell) }
{
    let Some(cell) = place_from(image, number, 0) else {
        return None;
    };
    match place_from(image, number, cell.at + cell.size) {
        Some(_) => None,
        None => Some(cell),
    }
}

/// The first cell of an object of this number that stands at an address or behind it, where no cell
/// reaches over that.
fn place_from(image: &HeapImage, number: usize, from: u32) -> Option<Cell>
    requires sized { HasWords (image_heap image.now) }
    requires rows { HasRows (image_heap image.now) }
    requires boundary { IsBoundary (image_heap image.now) from }
    ensures place { MatchOption result (HasNoPlaceFrom (image_heap image.now) number from)
        (λ cell. IsFirstPlace (image_heap image.now) number from cell) }
    ensures ends { IfSome result (λ cell. cell.at + cell.size ≤ u32.MAX) }
{
    let mut at = from;
    while let Some(cell) = next_from(image, at) {
        if is_of(cell, number) {
            return Some(cell);
        }
        at = cell.at + cell.size;
    }
    None
}

/// Whether each object's cell carries the number of one of so many objects.
pub(crate) fn are_made(image: &HeapImage, count: usize) -> bool
    requires sized { HasWords (image_heap image.now) }
    requires rows { HasRows (image_heap image.now) }
    ensures { IsTrue result ↔ AreMade (image_heap image.now) count }
{
    let mut at = 0;
    while let Some(cell) = next_from(image, at) {
        if !is_made(cell, count) {
            return false;
        }
        at = cell.at + cell.size;
    }
    true
}

/// Whether the cell carries the number of one of so many objects, if it is an object's own.
fn is_made(cell: Cell, count: usize) -> bool
    ensures { IsTrue result ↔ HasMadeNumber cell count }
{
    if cell.layout.kind.is_object() {
        (cell.header.object as usize) < count
    } else {
        true
    }
}
