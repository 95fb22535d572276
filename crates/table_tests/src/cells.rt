//! Pages of cells that a test lays out: the cells are checked while the test runs, and a cycle begins with them.
ghost use Rattle.std.specs.Prelude.{◌≡◌, ◌<◌, Some, length, slice_index, true, Contains};
ghost use Rattle.std.specs.List.{list_all, range_with_len};
ghost use Rattle.tagged_word.specs.Shapes.{shapes_most};
ghost use Rattle.core_parts.specs.Lists.{is_in};
ghost use Rattle.mark_world.specs.Pages.{cell_at, page_end, slots_of};
ghost use Rattle.table_tests.specs.CellPages.{are_cells, cell_fits, is_apart, is_among, slot_fits, stands};
ghost use Rattle.table_tests.specs.CellPages.{three_starts, HasThese};
ghost use Rattle.table_tests.specs.OneCell.{IsBare};

use core_parts::read_cell;
use mark_world::target;
use page_space::PAGE_WORDS;
use shared_table::{Choice, MainSide, OwnWords};
use tagged_word::{Reading, Word};

/// The cycle that begins with the three cells of a page.
pub(crate) struct Three;

impl Choice for Three {
    ghost use Rattle.table_tests.specs.CellPages.{IsOfThree};

    ghost fits = { IsOfThree };
}

/// The address behind the page that an address lies in.
fn page_end(at: u32) -> u64
    ensures { result ≡ page_end at }
{
    let words = PAGE_WORDS as u64;
    words * (at as u64 / words + 1)
}

/// The cell of a page at an address.
pub(crate) fn cell_at(old: u32, words: &[u64], layouts: &[u64], at: u32) -> Option<Reading>
    ensures { result ≡ cell_at old words.now layouts.now at }
{
    let bound = (old as u64).min(page_end(at)) as u32;
    read_cell(words, layouts, at, bound)
}

/// The word at an address; 0 behind the last word.
pub(crate) fn word_at(words: &[u64], at: u64) -> u64
    ensures { result ≡ slice_index words.now at }
{
    words.get(at as usize).copied().unwrap_or(0)
}

/// Whether an address is one of a list.
pub(crate) fn is_in(list: &[u64], at: u64) -> bool
    ensures { result ≡ is_in list.now at }
{
    list.contains(&at)
}

/// Whether a target, if there is one, is a cell of the list.
fn is_among(starts: &[u64], to: Option<u32>) -> bool
    ensures { result ≡ is_among starts.now to }
{
    match to {
        Some(to) => is_in(starts, to as u64),
        None => true,
    }
}

/// Whether marking visits the slot at an offset of a cell.
pub(crate) fn is_slot(cell: Reading, offset: u32) -> bool
    ensures { result ≡ is_in (slots_of cell) offset }
{
    cell.layout.is_tagged(cell.length, offset)
}

/// Whether an offset of a cell is that of no tagged slot, or the word there refers to a cell of the list, or to none of
/// a page.
fn slot_fits(old: u32, words: &[u64], starts: &[u64], at: u32, cell: Reading, offset: u32) -> bool
    ensures { result ≡ slot_fits old words.now starts.now at cell offset }
{
    let word = word_at(words, at as u64 + offset as u64);
    let is_free = !is_slot(cell, offset);
    is_free || is_among(starts, target(Word(word), old))
}

/// Whether another cell begins outside a cell, or is it.
fn is_apart(at: u32, cell: Reading, other: u64) -> bool
    ensures { result ≡ is_apart at cell other }
{
    let first = at as u64;
    let is_inside = first <= other && other < first + cell.size as u64;
    first == other || !is_inside
}

/// Whether no other cell of the list begins in a cell.
fn is_alone(starts: &[u64], at: u32, cell: Reading) -> bool
    ensures { result ≡ list_all (λ other. is_apart at cell other) starts.now }
{
    starts.iter().all(|other| is_apart(at, cell, *other))
}

/// Whether the tagged slots of a cell refer to none but those of the list.
fn slots_fit(old: u32, words: &[u64], starts: &[u64], at: u32, cell: Reading) -> bool
    ensures { result ≡ list_all (λ offset. slot_fits old words.now starts.now at cell offset)
        (range_with_len 0 cell.size) }
{
    (0..cell.size).all(|offset| slot_fits(old, words, starts, at, cell, offset))
}

/// Whether no other cell of the list begins in a cell, and its tagged slots refer to none but those.
fn cell_fits(old: u32, words: &[u64], starts: &[u64], at: u32, cell: Reading) -> bool
    ensures { result ≡ cell_fits old words.now starts.now at (Some cell) }
{
    is_alone(starts, at, cell) && slots_fit(old, words, starts, at, cell)
}

/// Whether such a cell of a page begins at an address.
fn stands(old: u32, words: &[u64], layouts: &[u64], starts: &[u64], at: u64) -> bool
    ensures { result ≡ stands old words.now layouts.now starts.now at }
{
    if at >= old as u64 {
        return false;
    }
    let at = at as u32;
    match cell_at(old, words, layouts, at) {
        Some(cell) => cell_fits(old, words, starts, at, cell),
        None => false,
    }
}

/// Whether such cells begin at the addresses of the list.
pub(crate) fn are_cells(old: u32, words: &[u64], layouts: &[u64], starts: &[u64]) -> bool
    ensures { result ≡ are_cells old words.now layouts.now starts.now }
{
    starts
        .iter()
        .all(|at| stands(old, words, layouts, starts, *at))
}

/// Puts words in the pages.
pub(crate) fn fill_words(side: &mut MainSide, words: &[u64])
    requires bare { IsBare side.old.main }
    requires count { length words.now ≡ side.old.main.old }
    ensures { side.new ≡ record side.old { main = record side.old.main { words = words.now } } }
{
    let counts = side.counts();
    for a in 0..counts.old {
        side.store_owned(a, word_at(words, a as u64));
    }
}

/// Puts layout words.
pub(crate) fn fill_layouts(side: &mut MainSide, layouts: &[u64])
    requires bare { IsBare side.old.main }
    requires count { length layouts.now ≡ shapes_most }
    ensures { side.new ≡ record side.old { main = record side.old.main { layouts = layouts.now } } }
{
    let counts = side.counts();
    for shape in 0..counts.shapes {
        side.put_layout(shape, word_at(layouts, shape as u64));
    }
}

/// Opens a cycle with the cells of the list.
fn open_with(side: &mut MainSide, own: &OwnWords, starts: &[u64])
    requires bare { IsBare side.old.main }
    requires three { starts.now ≡ three_starts }
    requires cells { let main = side.old.main in
        are_cells main.old main.words main.layouts starts.now ≡ true }
    ensures these { HasThese side.new.main starts.now }
    ensures old { side.new.main.old ≡ side.old.main.old }
{
    side.open_cycle::<Three>(own, 0);
}

/// Puts words and layout words, and opens a cycle with the cells of the list, if there are such cells. Returns whether
/// there are.
pub(crate) fn begin(
    side: &mut MainSide,
    own: &OwnWords,
    words: &[u64],
    layouts: &[u64],
    starts: &[u64],
) -> bool
    requires bare { IsBare side.old.main }
    requires three { starts.now ≡ three_starts }
    ensures these { result ≡ true → HasThese side.new.main starts.now }
    ensures old { side.new.main.old ≡ side.old.main.old }
{
    let counts = side.counts();
    if words.len() != counts.old as usize {
        return false;
    }
    if layouts.len() != counts.shapes as usize {
        return false;
    }
    if !are_cells(counts.old, words, layouts, starts) {
        return false;
    }
    fill_words(side, words);
    fill_layouts(side, layouts);
    open_with(side, own, starts);
    true
}
