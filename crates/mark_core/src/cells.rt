//! The cells of pages, and which of their words stores may change.
ghost use Rattle.std.specs.Prelude.{◌≡◌, ◌+◌, ◌<◌, ◌↔◌, IsTrue, true, false, min};
ghost use Rattle.std.specs.Prelude.{slice_index, Option};
ghost use Rattle.tagged_word.specs.declared.reading.Reading.{Reading};
ghost use Rattle.core_parts.specs.Lists.{is_in};
ghost use Rattle.mark_world.specs.Pages.{page_end, cell_at, slots_of, is_inside, is_head, is_head_of};
ghost use Rattle.mark_world.specs.Pages.{is_quiet, leaves_alone, is_free, EachFree, IsOutside};
ghost use Rattle.mark_world.specs.Coverage.{cell_of};

use crate::lists::is_in;
use core_parts::read_cell;
use mark_world::{MainView, World, page_end};
use tagged_word::Reading;
use tagged_word::cell::LENGTH;

/// The cell of a page at an address.
pub(crate) fn cell_of(world: &World, at: u32) -> Option<Reading>
    ensures { result ≡ cell_of world.now at }
{
    let bound = (world.old as u64).min(page_end(at)) as u32;
    read_cell(world.words.as_slice(), world.layouts.as_slice(), at, bound)
}

/// The word at an address; 0 behind the last word.
pub(crate) fn word_at(words: &[u64], at: u64) -> u64
    ensures { result ≡ slice_index words.now at }
{
    words.get(at as usize).copied().unwrap_or(0)
}

/// Whether marking visits the slot at an offset of a cell.
pub(crate) fn is_slot(cell: Reading, offset: u32) -> bool
    ensures { result ≡ is_in (slots_of cell) offset }
{
    cell.layout.is_tagged(cell.length, offset)
}

/// Whether a word lies in the cell that begins at an address.
fn is_inside(start: u32, cell: Option<Reading>, at: u32) -> bool
    ensures { result ≡ is_inside start cell at }
{
    match cell {
        Some(cell) => start <= at && (at as u64) < start as u64 + cell.size as u64,
        None => false,
    }
}

/// Whether an offset is that of a header, or of a length that a size is read from.
fn is_head(cell: Reading, offset: u32) -> bool
    ensures { result ≡ is_head cell offset }
{
    offset == 0 || (cell.layout.kind.has_length() && offset == LENGTH)
}

/// Whether a word is the header of the cell that begins at an address, or a length that its size is
/// read from.
fn is_head_of(start: u32, cell: Option<Reading>, at: u32) -> bool
    ensures { result ≡ is_head_of start cell at }
{
    match cell {
        Some(read) => is_inside(start, cell, at) && is_head(read, at.saturating_sub(start)),
        None => false,
    }
}

/// Whether no helper that reads the cell minds a word of it.
fn is_quiet(cell: Reading, offset: u32) -> bool
    ensures { result ≡ is_quiet cell offset }
{
    !is_head(cell, offset) && !is_slot(cell, offset)
}

/// Whether a store into a word leaves the cell that begins at an address alone.
fn leaves_alone(start: u32, cell: Option<Reading>, at: u32) -> bool
    ensures { result ≡ leaves_alone start cell at }
{
    match cell {
        Some(read) => !is_inside(start, cell, at) || is_quiet(read, at.saturating_sub(start)),
        None => true,
    }
}

/// Whether an address is a free start.
pub(crate) fn is_free(main: &MainView, at: u32) -> bool
    ensures { result ≡ is_free main.now at }
{
    is_in(main.starts.as_slice(), at) && !is_in(main.mine.as_slice(), at)
}

/// Whether a word lies in no free start's cell.
pub(crate) fn is_outside(world: &World, at: u32) -> bool
    ensures { IsTrue result
        ↔ IsOutside world.now.old world.now.words world.now.layouts world.now.main at }
{
    for start in world.main.starts.as_slice() {
        if is_free(&world.main, *start) && is_inside(*start, cell_of(world, *start), at) {
            return false;
        }
    }
    true
}

/// Whether a word is no header, and no length that a size is read from, of a free start's cell.
pub(crate) fn is_no_head(world: &World, at: u32) -> bool
    ensures { let w = world.now in IsTrue result ↔ EachFree w.main (λ start.
        is_head_of start (cell_at w.old w.words w.layouts start) at ≡ false) }
{
    for start in world.main.starts.as_slice() {
        if is_free(&world.main, *start) && is_head_of(*start, cell_of(world, *start), at) {
            return false;
        }
    }
    true
}

/// Whether a store into a word leaves each free start's cell alone.
pub(crate) fn leaves_all_alone(world: &World, at: u32) -> bool
    ensures { let w = world.now in IsTrue result ↔ EachFree w.main (λ start.
        leaves_alone start (cell_at w.old w.words w.layouts start) at ≡ true) }
{
    for start in world.main.starts.as_slice() {
        if is_free(&world.main, *start) && !leaves_alone(*start, cell_of(world, *start), at) {
            return false;
        }
    }
    true
}
