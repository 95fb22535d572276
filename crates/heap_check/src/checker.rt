//! The check of an image.
ghost use Rattle.std.specs.Prelude.{◌≡◌, ◌↔◌, IfOk, IfErr, IsTrue, MatchOption, length, replicate, false};
ghost use Rattle.page_space.specs.Sizes.{AreWithin};
ghost use Rattle.page_space.specs.Extents.{marks_start};
ghost use Rattle.heap_model.specs.Images.{image_heap};
ghost use Rattle.heap_model.specs.Wholeness.{HasSizes};
ghost use Rattle.heap_check.specs.RegionRows.{IsFew};
ghost use Rattle.heap_check.specs.Flags.{AreClearedFor};
ghost use Rattle.heap_check.specs.Judging.{Judges, JudgesOnce, IsRowsFlaw};
ghost use Rattle.heap_check.specs.LayoutParts.{HasBlankRows};
ghost use Rattle.heap_check.specs.Marks.{MarksStarts};

use crate::cells::flaw_of_cells;
use crate::counts::{Counts, count};
use crate::flaw::Flaw;
use crate::owners::{flaw_of_owners, mark_beside};
use crate::roots::flaw_of_roots;
use crate::rows::{flaw_of_survivors, mark_rows};
use crate::sizes::{flaw_of_layouts, flaw_of_length, flaw_of_used};
use heap_model::HeapImage;
use page_space::Regions;
use std::alloc::Global;
use std::marker::Model;
use tagged_word::NoMemory;
use thiserror::Error;

/// Why a check did not end well.
#[derive(Clone, Copy, Debug, PartialEq, Eq, Error)]
pub enum CheckStop {
    /// The image is no whole heap: this is the first word that breaks it.
    #[error(transparent)]
    Flaw(Flaw),
    /// There is no memory for the check.
    #[error("no memory")]
    NoMemory,
}

/// Flags for the words of a heap, which a check sets. Its value is how many words these are.
#[derive(Drop)]
pub struct Checker {
    /// Where cells start.
    starts: Vec<bool>,
    /// To which cells slot 1 of an object refers.
    beside: Vec<bool>,
    /// Which stores, tables and boxes a slot names.
    named: Vec<bool>,
}

impl Model for Checker {
    ghost use Rattle.std.specs.Prelude.{ℕ};

    ghost Value = { ℕ };

    ghost use Rattle.heap_check.specs.Flags.{words_of, HasFlags};

    ghost view = { words_of };

    ghost invariant = { HasFlags };
}

/// Checks an image once. It takes three bytes for each word, and gives them back.
pub fn check(alloc: Global, image: &HeapImage) -> Result<Counts, CheckStop>
    ensures { JudgesOnce (image_heap image.now) result }
{
    let Ok(mut checker) = Checker::new(alloc, image.regions) else {
        return Err(CheckStop::NoMemory);
    };
    match checker.check(image) {
        Ok(counts) => Ok(counts),
        Err(flaw) => Err(CheckStop::Flaw(flaw)),
    }
}

impl Checker {
    /// A checker for images of these regions. It takes three bytes for each word; later calls take no memory.
    pub fn new(alloc: Global, regions: Regions) -> Result<Checker, NoMemory>
        ensures { IfOk result (λ checker. checker ≡ marks_start regions) }
    {
        let starts = cleared(alloc, regions)?;
        let beside = cleared(alloc, regions)?;
        let named = cleared(alloc, regions)?;
        Ok(Checker {
            starts,
            beside,
            named,
        })
    }

    /// Checks an image of the regions that the checker was made for: how many objects and entries it has, or the first
    /// word that breaks a whole heap. It goes along the words a few times, whatever they are.
    pub fn check(&mut self, image: &HeapImage) -> Result<Counts, Flaw>
        requires { self.old ≡ marks_start image.now.regions }
        ensures words { self.new ≡ self.old }
        ensures judges { Judges (image_heap image.now) result }
    {
        clear(&mut self.starts);
        clear(&mut self.beside);
        clear(&mut self.named);
        check_with(image, &mut self.starts, &mut self.beside, &mut self.named)
    }
}

/// Whether an image has the words and the layout words of its sizes, and cells in rows with 0 behind them. It takes a
/// byte for each word, and gives it back.
pub fn has_rows(alloc: Global, image: &HeapImage) -> Result<bool, NoMemory>
    ensures { IfOk result (λ answer. IsTrue answer ↔ HasBlankRows (image_heap image.now)) }
{
    let mut starts = cleared(alloc, image.regions)?;
    Ok(mark_starts(image, &mut starts).is_ok())
}

/// Checks an image with flags for its words, of which none is set.
fn check_with(
    image: &HeapImage,
    starts: &mut [bool],
    beside: &mut [bool],
    named: &mut [bool],
) -> Result<Counts, Flaw>
    requires starts { AreClearedFor (image_heap image.now) starts.old }
    requires beside { AreClearedFor (image_heap image.now) beside.old }
    requires named { AreClearedFor (image_heap image.now) named.old }
    ensures judges { Judges (image_heap image.now) result }
    ensures as_many { (length starts.new ≡ length starts.old) × (length beside.new ≡ length beside.old)
        × (length named.new ≡ length named.old) }
{
    mark_starts(image, starts)?;
    if let Some(flaw) = flaw_of_roots(image, starts) {
        return Err(flaw);
    }
    if let Some(flaw) = flaw_of_cells(image, starts) {
        return Err(flaw);
    }
    mark_beside(image, starts, beside);
    match flaw_of_owners(image, starts, beside, named) {
        Some(flaw) => Err(flaw),
        None => Ok(count(image)),
    }
}

/// Sets the flag of each address where a cell starts. It returns the first flaw of the sizes and the rows.
fn mark_starts(image: &HeapImage, starts: &mut [bool]) -> Result<(), Flaw>
    requires starts { AreClearedFor (image_heap image.now) starts.old }
    ensures rows { let heap = image_heap image.now in
        IfOk result (λ done. HasBlankRows heap × MarksStarts heap starts.new) }
    ensures flaw { IfErr result (IsRowsFlaw (image_heap image.now)) }
    ensures as_many { length starts.new ≡ length starts.old }
{
    if let Some(flaw) = flaw_of_sizes(image) {
        return Err(flaw);
    }
    let survivors = mark_rows(image, starts)?;
    match flaw_of_survivors(image, survivors) {
        Some(flaw) => Err(flaw),
        None => Ok(()),
    }
}

/// The first flaw of the sizes.
fn flaw_of_sizes(image: &HeapImage) -> Option<Flaw>
    ensures { let heap = image_heap image.now in MatchOption result (IsFew heap × HasSizes heap)
        (IsRowsFlaw heap) }
{
    // Opens the tree: its paths are those of a graph.
    image.shapes.paths_fit();
    if let Some(flaw) = flaw_of_used(image) {
        return Some(flaw);
    }
    if let Some(flaw) = flaw_of_length(image) {
        return Some(flaw);
    }
    flaw_of_layouts(image)
}

/// A flag for each word of the regions, and none of them is set.
fn cleared(alloc: Global, regions: Regions) -> Result<Vec<bool>, NoMemory>
    ensures flags { IfOk result (λ flags. flags.items ≡ replicate (marks_start regions) false) }
    ensures within { AreWithin regions.sizes regions.variables }
{
    Ok(vec![in alloc; false; regions.mark_of(0) as usize]?)
}

/// Clears flags.
fn clear(flags: &mut [bool])
    ensures { flags.new ≡ replicate (length flags.old) false }
{
    for at in 0..flags.len() {
        flags[at] = false;
    }
}
