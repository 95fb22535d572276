//! The cell at an address, and the walk from cell to cell.
ghost use Rattle.std.specs.Prelude.{◌≡◌, ◌+◌, ◌<◌, ◌≤◌, length, slice_get, IfOk, IfErr};
ghost use Rattle.std.specs.Prelude.{MatchOption, IfSome, ◌↔◌, Ok, None, Some};
ghost use Rattle.tagged_word.specs.declared.layout.LayoutWord.{LayoutWord};
ghost use Rattle.tagged_word.specs.Cells.{has_length, length_by};
ghost use Rattle.page_space.specs.Extents.{IsInOne, is_cell_region};
ghost use Rattle.cell_layout.specs.Cells.{IsCell, IsNoCell, HasNoCell, HasWordsUpTo, IsLayoutOf};

use crate::cell::{Cell, NotACell};
use page_space::Regions;
use tagged_word::shape::COUNT;
use tagged_word::{Header, Kind, LayoutWord, Word};
use word_store::Reads;

/// The cell at an address, in any words; where there is none, the word there. It loads at most
/// three words: the cell's header, the layout word of its shape, and its length if it has one.
pub fn cell_at<W: Reads>(words: &mut W, regions: &Regions, a: u32) -> Result<Cell, NotACell>
    requires steady { W.IsSteady words.old }
    ensures cell { IfOk result (λ cell.
        (cell.at ≡ a) × IsCell regions.now (W.words words.old) cell) }
    ensures ends { IfOk result (λ cell. (1 ≤ cell.size) × (a + cell.size ≤ u32.MAX)) }
    ensures none { IfErr result (λ stop. IsNoCell regions.now (W.words words.old) a stop) }
    ensures kept { W.words words.new ≡ W.words words.old }
    ensures rest { W.Rest words.old words.new }
{
    if a >= words.count() {
        return Err(NotACell { at: a, word: 0 });
    }
    let word = words.load(a);
    match cell_of_word(words, regions, a, word) {
        Some(cell) => Ok(cell),
        None => Err(NotACell { at: a, word }),
    }
}

/// The next cell of a walk that has come to an address and ends at another: none there. The cell
/// may end behind that end, which the caller compares. It reads as `cell_at` does.
pub fn next_cell<W: Reads>(
    words: &mut W,
    regions: &Regions,
    from: u32,
    end: u32,
) -> Result<Option<Cell>, NotACell>
    requires before { from ≤ end }
    requires steady { W.IsSteady words.old }
    ensures ended { (result ≡ Ok None) ↔ (from ≡ end) }
    ensures cell { IfOk result (λ next. IfSome next (λ cell.
        (cell.at ≡ from) × IsCell regions.now (W.words words.old) cell)) }
    ensures ends { IfOk result (λ next. IfSome next (λ cell.
        (1 ≤ cell.size) × (from + cell.size ≤ u32.MAX))) }
    ensures none { IfErr result (λ stop. IsNoCell regions.now (W.words words.old) from stop) }
    ensures kept { W.words words.new ≡ W.words words.old }
    ensures rest { W.Rest words.old words.new }
{
    if from == end {
        return Ok(None);
    }
    let cell = cell_at(words, regions, from)?;
    Ok(Some(cell))
}

/// The cell at an address whose word has been read.
fn cell_of_word<W: Reads>(words: &mut W, regions: &Regions, a: u32, word: u64) -> Option<Cell>
    requires steady { W.IsSteady words.old }
    requires within { a < length (W.words words.old) }
    requires read { slice_get (W.words words.old) a ≡ Some word }
    ensures cell { MatchOption result (HasNoCell regions.now (W.words words.old) a)
        (λ cell. (cell.at ≡ a) × IsCell regions.now (W.words words.old) cell) }
    ensures kept { W.words words.new ≡ W.words words.old }
    ensures rest { W.Rest words.old words.new }
{
    let room = room_at(words, regions, a)?;
    let header = Header::parse(Word(word))?;
    let layout = layout_of(words, regions, header.shape)?;
    let length = length_at(words, layout.kind, a)?;
    let size = layout.size(length)?;
    if size > room {
        return None;
    }
    Some(Cell {
        at: a,
        header,
        layout,
        length,
        size,
    })
}

/// How many words there are from an address to the end of where its cell may stand; none where cells
/// don't stand.
fn room_at<W: Reads>(words: &W, regions: &Regions, a: u32) -> Option<u32>
    requires { a < length (W.words words.now) }
    ensures { MatchOption result (¬ IsInOne regions.now is_cell_region a)
        (λ room. HasWordsUpTo regions.now (W.words words.now) a room) }
{
    let end = regions.cells_end(a)?;
    Some(end.min(words.count()) - a)
}

/// The layout of a shape.
fn layout_of<W: Reads>(words: &mut W, regions: &Regions, shape: u32) -> Option<LayoutWord>
    requires steady { W.IsSteady words.old }
    ensures layout { MatchOption result
        ((layout : LayoutWord) → IsLayoutOf regions.now (W.words words.old) shape layout → ⊥)
        (λ layout. IsLayoutOf regions.now (W.words words.old) shape layout) }
    ensures kept { W.words words.new ≡ W.words words.old }
    ensures rest { W.Rest words.old words.new }
{
    if shape >= COUNT {
        return None;
    }
    let at = regions.layout_at(shape);
    if at >= words.count() {
        return None;
    }
    LayoutWord::parse(words.load(at))
}

/// The length of the cell at an address, by its kind: its second word, or 0; none where that word is
/// wanted and is behind the last.
fn length_at<W: Reads>(words: &mut W, kind: Kind, a: u32) -> Option<u64>
    requires steady { W.IsSteady words.old }
    requires within { a < length (W.words words.old) }
    ensures length { result ≡ length_by (has_length kind) (slice_get (W.words words.old) (a + 1)) }
    ensures kept { W.words words.new ≡ W.words words.old }
    ensures rest { W.Rest words.old words.new }
{
    if !kind.has_length() {
        return Some(0);
    }
    if words.count() - a < 2 {
        return None;
    }
    Some(words.load(a + 1))
}
