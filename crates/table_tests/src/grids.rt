//! Pages that are cut into cells of four words: a cycle begins with them, and what the mutator does to one of them in
//! the open cycle.
ghost use Rattle.std.specs.Prelude.{◌≡◌, ◌≤◌, ◌<◌, ◌+◌, ◌*◌, ◌%◌, ℕ, Contains, true, length, slice_index};
ghost use Rattle.tagged_word.specs.declared.word.Class.{Class};
ghost use Rattle.tagged_word.specs.Shapes.{shapes_most};
ghost use Rattle.tagged_word.specs.Words.{bits_of};
ghost use Rattle.table_tests.specs.Grids.{AreCutPages, IsOpenGrid, IsWholeGrid, are_cut, have_plain_heads};
ghost use Rattle.table_tests.specs.Grids.{StaysLent, is_plain_head};
ghost use Rattle.table_tests.specs.OneCell.{IsBare};

use crate::cells::{are_cells, fill_layouts, fill_words, word_at};
use shared_table::{Choice, Colour, Counts, MainSide, OwnWords};
use tagged_word::Word;

/// The header of a plain cell whose one field, at 3, is raw.
pub(crate) const ONE_RAW: u64 = 34;

/// The header of a plain cell whose one field is tagged.
pub(crate) const NONE_RAW: u64 = 38;

/// The header of a list.
pub(crate) const LIST: u64 = 6;

/// The header of a filler.
pub(crate) const FILLER: u64 = 26;

/// The cycle that begins with the cells.
struct CellsOfFour;

impl Choice for CellsOfFour {
    ghost use Rattle.table_tests.specs.Grids.{IsCutSo};

    ghost fits = { IsCutSo };
}

/// Pages that are cut into cells: their words, the layout words, and where the cells begin.
#[derive(Clone, Copy)]
pub(crate) struct Pages<'a> {
    pub(crate) words: &'a [u64],
    pub(crate) layouts: &'a [u64],
    pub(crate) starts: &'a [u64],
}

/// Whether the addresses of a list are 0, 4, 8 and so on.
fn are_cut(starts: &[u64], count: u32) -> bool
    ensures { result ≡ are_cut starts.now count }
{
    (0..count).all(|cell| word_at(starts, cell as u64) == 4 * cell as u64)
}

/// Whether a word is the header of a plain cell of one field.
fn is_plain_head(word: u64) -> bool
    ensures { result ≡ is_plain_head word }
{
    word == ONE_RAW || word == NONE_RAW
}

/// Whether each of the cells has such a header.
fn have_plain_heads(words: &[u64], count: u32) -> bool
    ensures { result ≡ have_plain_heads words.now count }
{
    (0..count).all(|cell| is_plain_head(word_at(words, 4 * cell as u64)))
}

/// Whether the lists of pages have as many elements as the sizes say, and the pages have room for so many cells.
fn have_lengths(counts: Counts, pages: Pages<'_>, count: u32) -> bool
    ensures words { result ≡ true → length pages.entry.words.now ≡ counts.old }
    ensures layouts { result ≡ true → length pages.entry.layouts.now ≡ counts.shapes }
    ensures starts { result ≡ true → length pages.entry.starts.now ≡ count }
    ensures room { result ≡ true → 4 * count ≤ counts.old }
{
    if pages.words.len() != counts.old as usize {
        return false;
    }
    if pages.layouts.len() != counts.shapes as usize {
        return false;
    }
    if pages.starts.len() != count as usize {
        return false;
    }
    4 * count as u64 <= counts.old as u64
}

/// Whether the layout words of the two headers are in place.
fn have_layouts(layouts: &[u64]) -> bool
    ensures one_raw { result ≡ true → slice_index layouts.now 8 ≡ 4369 }
    ensures none_raw { result ≡ true → slice_index layouts.now 9 ≡ 273 }
{
    if word_at(layouts, 8) != 4_369 {
        return false;
    }
    word_at(layouts, 9) == 273
}

/// Whether pages of these sizes are cut into so many cells.
pub(crate) fn are_cut_pages(counts: Counts, pages: Pages<'_>, count: u32) -> bool
    requires { counts.shapes ≡ shapes_most }
    ensures { result ≡ true → AreCutPages (record {
      words = pages.entry.words.now;
      layouts = pages.entry.layouts.now;
      starts = pages.entry.starts.now;
    }) counts.old count }
{
    if !have_lengths(counts, pages, count) {
        return false;
    }
    if !have_layouts(pages.layouts) {
        return false;
    }
    if !are_cut(pages.starts, count) {
        return false;
    }
    if !have_plain_heads(pages.words, count) {
        return false;
    }
    are_cells(counts.old, pages.words, pages.layouts, pages.starts)
}

/// Puts the words of pages, and opens a cycle with their cells.
pub(crate) fn begin(side: &mut MainSide, own: &OwnWords, pages: Pages<'_>, count: u32)
    requires bare { IsBare side.old.main }
    requires cut { AreCutPages (record {
      words = pages.words.now;
      layouts = pages.layouts.now;
      starts = pages.starts.now;
    }) side.old.main.old count }
    ensures whole { IsWholeGrid side.new.main count 0 }
    ensures out { side.new.main.out ≡ 0 }
{
    fill_words(side, pages.words);
    fill_layouts(side, pages.layouts);
    side.open_cycle::<CellsOfFour>(own, count);
}

/// Shades a cell. Returns whether it was white.
pub(crate) fn shade(side: &mut MainSide, count: u32, cell: u32) -> bool
    requires grid { IsOpenGrid side.old.main count }
    requires among { cell < count }
    ensures grid { IsOpenGrid side.new.main count }
    ensures whole { (trimmed : ℕ) → IsWholeGrid side.old.main count trimmed → IsWholeGrid side.new.main count trimmed }
    ensures sure { Contains side.new.main.view.sure (4 * cell) }
    ensures words { side.new.main.words ≡ side.old.main.words }
    ensures stays { StaysLent side.old side.new }
{
    let _counts = side.counts();
    side.shade(4 * cell) == Colour::White
}

/// Makes a cell black. Returns whether it was black.
pub(crate) fn blacken(side: &mut MainSide, count: u32, cell: u32) -> bool
    requires grid { IsOpenGrid side.old.main count }
    requires among { cell < count }
    ensures grid { IsOpenGrid side.new.main count }
    ensures trimmed { IsWholeGrid side.old.main count cell → IsWholeGrid side.new.main count (cell + 1) }
    ensures stays { StaysLent side.old side.new }
{
    let _counts = side.counts();
    side.blacken(4 * cell) == Colour::Black
}

/// Stores a reference to a cell in a slot of one that was not trimmed, and shades it. Returns whether it was white.
pub(crate) fn store(side: &mut MainSide, count: u32, trimmed: u32, at: u32, to: u32) -> bool
    requires whole { IsWholeGrid side.old.main count trimmed }
    requires within { at < 4 * count }
    requires slot { 2 ≤ at % 4 }
    requires among { to < count }
    ensures whole { IsWholeGrid side.new.main count trimmed }
    ensures sure { Contains side.new.main.view.sure (4 * to) }
    ensures word { slice_index side.new.main.words at ≡ bits_of (Class.Ref (4 * to)) }
    ensures stays { StaysLent side.old side.new }
{
    let _counts = side.counts();
    side.store_slot(at, Word::reference(4 * to).0);
    shade(side, count, to)
}

/// Stores a reference to a cell in the field of one that was not trimmed, shades it, and makes the field tagged.
/// Returns whether the cell was white.
pub(crate) fn widen(side: &mut MainSide, count: u32, trimmed: u32, cell: u32, to: u32) -> bool
    requires whole { IsWholeGrid side.old.main count trimmed }
    requires open { trimmed ≤ cell }
    requires within { cell < count }
    requires among { to < count }
    ensures whole { IsWholeGrid side.new.main count trimmed }
    ensures stays { StaysLent side.old side.new }
{
    let _counts = side.counts();
    let was_white = store(side, count, trimmed, 4 * cell + 3, to);
    side.store_header(4 * cell, NONE_RAW);
    was_white
}

/// Stores a word in a cell that was trimmed.
fn store_own(side: &mut MainSide, count: u32, trimmed: u32, at: u32, word: u64)
    requires whole { IsWholeGrid side.old.main count trimmed }
    requires own { at < 4 * trimmed }
    ensures whole { IsWholeGrid side.new.main count trimmed }
    ensures stays { StaysLent side.old side.new }
{
    let _counts = side.counts();
    side.store_owned(at, word);
}

/// Makes the cell that was made black last a list, with a word as its length, and a filler after it.
pub(crate) fn trim(side: &mut MainSide, count: u32, cell: u32, word: u64)
    requires whole { IsWholeGrid side.old.main count (cell + 1) }
    ensures whole { IsWholeGrid side.new.main count (cell + 1) }
    ensures stays { StaysLent side.old side.new }
{
    let _counts = side.counts();
    let at = 4 * cell;
    side.new_black(at + 3);
    store_own(side, count, cell + 1, at + 2, word);
    store_own(side, count, cell + 1, at + 3, FILLER);
    store_own(side, count, cell + 1, at, LIST);
}
