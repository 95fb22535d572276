//! Flaws of the rows of cells and of what is blank behind them. The flags of the cells that are come to are set.
ghost use Rattle.std.specs.Prelude.{◌≡◌, ◌≤◌, ◌↔◌, IsTrue, length, Some, Option, None, IfOk, IfErr};
ghost use Rattle.heap_model.specs.Images.{image_heap};
ghost use Rattle.heap_model.specs.RegionRows.{StandsBetween};
ghost use Rattle.heap_model.specs.Wholeness.{HasRows};
ghost use Rattle.heap_check.specs.RegionRows.{IsFew, IsZeroBetween, CountsRows};
ghost use Rattle.image_walk.specs.Words.{HasWords};
ghost use Rattle.heap_check.specs.Walks.{Stops};
ghost use Rattle.heap_check.specs.Firsts.{IsVerdict, IsFirst};
ghost use Rattle.heap_check.specs.Frames.{BreaksRows, BreaksSurvivors, filler_word};
ghost use Rattle.heap_check.specs.Marks.{MarksWalk, BreaksWalk, MarksRegion};
ghost use Rattle.heap_check.specs.Rows.{IsStepFrom, BreaksBlank, BreaksRegion, MarksRows};

use crate::flaw::Flaw;
use crate::region_rows::{Bound, bound_of, survivors_at};
use cell_layout::Cell;
use heap_model::HeapImage;
use image_walk::{cell_there, is_zero};
use tagged_word::{Header, shape};

/// What a walk comes to at an address.
#[derive(Clone, Copy)]
pub(crate) enum Step {
    /// The row may end here.
    Ended,
    /// A cell.
    Found(Cell),
    /// Words that are no cell of the row.
    Broken,
}

/// What a walk comes to at an address.
fn step_at(image: &HeapImage, at: u32, bound: Bound) -> Step
    requires sized { HasWords (image_heap image.now) }
    requires before { at ≤ bound.limit }
    ensures { IsStepFrom (image_heap image.now) bound at result }
{
    if may_end(image, at, bound) {
        return Step::Ended;
    }
    match cell_there(image, at) {
        Some(cell) => {
            if cell.size > bound.limit - at {
                Step::Broken
            } else {
                Step::Found(cell)
            }
        }
        None => Step::Broken,
    }
}

/// Whether a row may end at an address.
fn may_end(image: &HeapImage, at: u32, bound: Bound) -> bool
    ensures { IsTrue result ↔ Stops (image_heap image.now) bound at }
{
    if at == bound.limit {
        return true;
    }
    if bound.blank {
        is_zero(image, at)
    } else {
        false
    }
}

/// Sets the flags of the cells in a row from an address on. It answers where the row ends, or where it breaks off.
fn mark_row(image: &HeapImage, starts: &mut [bool], from: u32, bound: Bound) -> Result<u32, u32>
    requires sized { HasWords (image_heap image.now) }
    requires before { from ≤ bound.limit }
    requires room { bound.limit ≤ length starts.old }
    ensures ends { IfOk result (λ end.
        MarksWalk (image_heap image.now) bound from end starts.old starts.new) }
    ensures breaks { IfErr result (λ at. BreaksWalk (image_heap image.now) bound from at) }
{
    let mut at = from;
    'walk: loop {
        match step_at(image, at, bound) {
            Step::Ended => return Ok(at),
            Step::Found(cell) => {
                starts[at as usize] = true;
                at += cell.size;
            }
            Step::Broken => return Err(at),
        }
    }
}

/// The first word from an address to another that is not 0.
fn flaw_of_blank(image: &HeapImage, from: u32, end: u32) -> Option<Flaw>
    requires { end ≤ length image.now.words }
    ensures { let heap = image_heap image.now in
        IsVerdict (IsZeroBetween heap from end) (BreaksBlank heap from end) result }
{
    for at in from..end {
        let found = image.words.as_slice()[at as usize];
        if found != 0 {
            return Some(Flaw {
                at,
                found,
                wanted: 0,
            });
        }
    }
    None
}

/// Sets the flags of the cells in the row of the region that stands between two addresses. It answers where the row
/// ends, or the first flaw there.
fn mark_region(image: &HeapImage, starts: &mut [bool], start: u32, end: u32) -> Result<u32, Flaw>
    requires sized { HasWords (image_heap image.now) }
    requires few { IsFew (image_heap image.now) }
    requires stands { StandsBetween image.now.regions start end }
    requires room { end ≤ length starts.old }
    ensures marks { IfOk result (λ row_end.
        MarksRegion (image_heap image.now) start end row_end starts.old starts.new) }
    ensures breaks { IfErr result (IsFirst (BreaksRegion (image_heap image.now) start)) }
{
    match mark_row(image, starts, start, bound_of(image, start, end)) {
        Ok(row_end) => match flaw_of_blank(image, row_end, end) {
            None => Ok(row_end),
            Some(flaw) => Err(flaw),
        },
        Err(at) => Err(Flaw {
            at,
            found: image.words.as_slice()[at as usize],
            wanted: filler_word(),
        }),
    }
}

/// The header of a filler.
pub(crate) fn filler_word() -> u64
    ensures { result ≡ filler_word }
{
    let header = Header {
        shape: shape::FILLER,
        object: 0,
    };
    header.word().0
}

/// Sets the flags of all cells. It answers how many words the survivors have, or the first flaw of the rows and of
/// what is blank behind them.
pub(crate) fn mark_rows(image: &HeapImage, starts: &mut [bool]) -> Result<u32, Flaw>
    requires sized { HasWords (image_heap image.now) }
    requires few { IsFew (image_heap image.now) }
    requires room { length starts.old ≡ length image.now.words }
    ensures marks { IfOk result (λ survivors.
        MarksRows (image_heap image.now) survivors starts.old starts.new) }
    ensures breaks { IfErr result (IsFirst (BreaksRows (image_heap image.now))) }
    ensures as_many { length starts.new ≡ length starts.old }
{
    // Tells that the sizes are within their limits, so that no region is empty.
    image.regions.sizes_fit();
    let mut at = 0;
    let mut survivors = 0;
    while let Some(end) = image.regions.cells_end(at) {
        let row_end = mark_region(image, starts, at, end)?;
        survivors += survivors_at(image, at, end, row_end);
        at = end;
    }
    Ok(survivors)
}

/// The flaw of how many words the survivors have.
pub(crate) fn flaw_of_survivors(image: &HeapImage, counted: u32) -> Option<Flaw>
    requires few { IsFew (image_heap image.now) }
    requires counted { CountsRows (image_heap image.now) counted }
    ensures { let heap = image_heap image.now in
        IsVerdict (HasRows heap) (BreaksSurvivors heap) result }
{
    let at = image.regions.count();
    let found = image.survivors as u64;
    let most = (image.regions.sizes().young - image.used) as u64;
    if image.survivors != counted {
        return Some(Flaw {
            at,
            found,
            wanted: counted as u64,
        });
    }
    if found > most {
        return Some(Flaw {
            at,
            found,
            wanted: most,
        });
    }
    None
}
