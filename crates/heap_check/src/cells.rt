//! Flaws of what cells hold.
ghost use Rattle.std.specs.Prelude.{◌+◌, ◌≤◌};
ghost use Rattle.heap_model.specs.Images.{image_heap};
ghost use Rattle.heap_model.specs.Heaps.{words_of_cell};
ghost use Rattle.heap_model.specs.Kinds.{IsSoundCell};
ghost use Rattle.heap_model.specs.Wholeness.{HasRows};
ghost use Rattle.heap_check.specs.SoundCells.{HasSoundCells};
ghost use Rattle.image_walk.specs.Spans.{StandsIn};
ghost use Rattle.image_walk.specs.Words.{HasWords};
ghost use Rattle.heap_check.specs.Cells.{BreaksOf, BreaksCells};
ghost use Rattle.heap_check.specs.Firsts.{IsVerdict};
ghost use Rattle.heap_check.specs.Marks.{MarksStarts};

use crate::earlier::earlier;
use crate::entries::flaw_of_weak;
use crate::fields::flaw_of_plain;
use crate::flaw::Flaw;
use crate::lists::flaw_of_list;
use crate::stores::{flaw_of_box, flaw_of_number, flaw_of_store};
use cell_layout::Cell;
use heap_model::HeapImage;
use image_walk::next_from;
use tagged_word::Kind;

/// The flaw of the lowest address of what cells hold.
pub(crate) fn flaw_of_cells(image: &HeapImage, starts: &[bool]) -> Option<Flaw>
    requires sized { HasWords (image_heap image.now) }
    requires rows { HasRows (image_heap image.now) }
    requires marks { MarksStarts (image_heap image.now) starts.now }
    ensures { let heap = image_heap image.now in IsVerdict (HasSoundCells heap) (BreaksCells heap) result }
{
    let mut least = None;
    let mut at = 0;
    while let Some(cell) = next_from(image, at) {
        least = earlier(least, flaw_of_cell(image, starts, cell));
        at = cell.at + cell.size;
    }
    least
}

/// The first flaw of what a cell holds.
fn flaw_of_cell(image: &HeapImage, starts: &[bool], cell: Cell) -> Option<Flaw>
    requires sized { HasWords (image_heap image.now) }
    requires rows { HasRows (image_heap image.now) }
    requires marks { MarksStarts (image_heap image.now) starts.now }
    requires stands { StandsIn (image_heap image.now) cell }
    requires ends { cell.at + cell.size ≤ u32.MAX }
    ensures { let heap = image_heap image.now in IsVerdict (IsSoundCell heap cell (words_of_cell heap cell))
        (BreaksOf cell.layout.kind heap cell (words_of_cell heap cell)) result }
{
    match cell.layout.kind {
        Kind::Plain => flaw_of_plain(image, starts, cell),
        Kind::List => flaw_of_list(image, starts, cell),
        Kind::Weak => flaw_of_weak(image, starts, cell),
        Kind::Store => flaw_of_store(image, starts, cell),
        Kind::Table => flaw_of_store(image, starts, cell),
        Kind::Boxed => flaw_of_box(image, cell),
        Kind::Filler => flaw_of_number(cell),
        Kind::Gap => flaw_of_number(cell),
    }
}
