//! Flaws of owners: a store, a table or a box that two slots name.
ghost use Rattle.std.specs.Prelude.{◌≡◌, ◌≢◌, ◌+◌, ◌<◌, ◌↔◌, Some, true, false};
ghost use Rattle.std.specs.Prelude.{length, slice_get, IsTrue, MatchOption};
ghost use Rattle.heap_model.specs.Images.{image_heap};
ghost use Rattle.heap_model.specs.Wholeness.{HasRows, IsOwned};
ghost use Rattle.image_walk.specs.Spans.{StandsIn};
ghost use Rattle.image_walk.specs.Words.{HasWords};
ghost use Rattle.heap_check.specs.Cells.{BreaksOwners};
ghost use Rattle.heap_check.specs.Firsts.{IsVerdict, IsFirst};
ghost use Rattle.heap_check.specs.Flags.{AreClearedFor};
ghost use Rattle.heap_check.specs.Marks.{MarksStarts};
ghost use Rattle.heap_check.specs.Names.{SetsFlag, MarksAt, MarksBeside, IsBesideOf, IsNamer, NamesBelow};
ghost use Rattle.heap_check.specs.Names.{IsNamedAgain, MarksName};

use crate::finding::find;
use crate::flaw::Flaw;
use cell_layout::{Cell, next_scavenge_slot};
use heap_model::HeapImage;
use image_walk::{is_owned, next_from, word_of};
use tagged_word::cell::STORE_SLOT;
use tagged_word::{Word, odd};

/// Sets the flag of each cell to which slot 1 of an object refers.
pub(crate) fn mark_beside(image: &HeapImage, starts: &[bool], beside: &mut [bool])
    requires sized { HasWords (image_heap image.now) }
    requires rows { HasRows (image_heap image.now) }
    requires marks { MarksStarts (image_heap image.now) starts.now }
    requires cleared { AreClearedFor (image_heap image.now) beside.old }
    ensures { MarksBeside (image_heap image.now) beside.new }
{
    let mut at = 0;
    while let Some(cell) = next_from(image, at) {
        mark_beside_cell(image, starts, beside, cell);
        at = cell.at + cell.size;
    }
}

/// Sets the flag of the cell to which slot 1 of a cell refers, if that is an object's.
fn mark_beside_cell(image: &HeapImage, starts: &[bool], beside: &mut [bool], cell: Cell)
    requires sized { HasWords (image_heap image.now) }
    requires rows { HasRows (image_heap image.now) }
    requires marks { MarksStarts (image_heap image.now) starts.now }
    requires stands { StandsIn (image_heap image.now) cell }
    requires as_many { length beside.old ≡ length image.now.words }
    ensures { MarksAt (IsBesideOf (image_heap image.now) cell) beside.old beside.new }
{
    // No address of a heap is past 32 bits.
    image.regions.sizes_fit();
    if !cell.layout.kind.is_object() {
        return;
    }
    let Some(at) = Word(word_of(image, cell, STORE_SLOT)).address() else {
        return;
    };
    if let Some(_other) = find(image, starts, at) {
        let _was = set(beside, at);
    }
}

/// The first slot that names what a slot before it names. Slots of objects name something, and those of the cells
/// beside them.
pub(crate) fn flaw_of_owners(
    image: &HeapImage,
    starts: &[bool],
    beside: &[bool],
    named: &mut [bool],
) -> Option<Flaw>
    requires sized { HasWords (image_heap image.now) }
    requires rows { HasRows (image_heap image.now) }
    requires marks { MarksStarts (image_heap image.now) starts.now }
    requires beside { MarksBeside (image_heap image.now) beside.now }
    requires cleared { AreClearedFor (image_heap image.now) named.old }
    ensures owned { let heap = image_heap image.now in IsVerdict (IsOwned heap) (BreaksOwners heap) result }
    ensures as_many { length named.new ≡ length named.old }
{
    let mut at = 0;
    while let Some(cell) = next_from(image, at) {
        if let Some(flaw) = flaw_of_cell(image, starts, beside, named, cell) {
            return Some(flaw);
        }
        at = cell.at + cell.size;
    }
    None
}

/// The first slot of a cell that names what a slot before it names, if the cell's slots name something.
fn flaw_of_cell(
    image: &HeapImage,
    starts: &[bool],
    beside: &[bool],
    named: &mut [bool],
    cell: Cell,
) -> Option<Flaw>
    requires sized { HasWords (image_heap image.now) }
    requires rows { HasRows (image_heap image.now) }
    requires marks { MarksStarts (image_heap image.now) starts.now }
    requires stands { StandsIn (image_heap image.now) cell }
    requires beside { MarksBeside (image_heap image.now) beside.now }
    requires names { NamesBelow (image_heap image.now) cell.at named.old }
    ensures owned { let heap = image_heap image.now in
        MatchOption result (NamesBelow heap (cell.at + cell.size) named.new) (IsFirst (BreaksOwners heap)) }
    ensures as_many { length named.new ≡ length named.old }
{
    if is_namer(image, beside, cell) {
        flaw_of_names(image, starts, named, cell)
    } else {
        None
    }
}

/// Whether the slots of a cell name something: it is an object's, or slot 1 of an object refers to it.
fn is_namer(image: &HeapImage, beside: &[bool], cell: Cell) -> bool
    requires stands { StandsIn (image_heap image.now) cell }
    requires beside { MarksBeside (image_heap image.now) beside.now }
    ensures { IsTrue result ↔ IsNamer (image_heap image.now) cell }
{
    // The image is what the flags are of.
    image.regions.sizes_fit();
    if cell.layout.kind.is_object() {
        return true;
    }
    beside[cell.at as usize]
}

/// The first slot of a cell that names what a slot before it names.
fn flaw_of_names(image: &HeapImage, starts: &[bool], named: &mut [bool], cell: Cell) -> Option<Flaw>
    requires sized { HasWords (image_heap image.now) }
    requires rows { HasRows (image_heap image.now) }
    requires marks { MarksStarts (image_heap image.now) starts.now }
    requires stands { StandsIn (image_heap image.now) cell }
    requires namer { IsNamer (image_heap image.now) cell }
    requires names { NamesBelow (image_heap image.now) cell.at named.old }
    ensures owned { let heap = image_heap image.now in
        MatchOption result (NamesBelow heap (cell.at + cell.size) named.new) (IsFirst (BreaksOwners heap)) }
    ensures as_many { length named.new ≡ length named.old }
{
    // No address of a heap is past 32 bits.
    image.regions.sizes_fit();
    let mut from = 0;
    while let Some(offset) = next_scavenge_slot(&cell, from) {
        let word = word_of(image, cell, offset);
        if is_named_again(image, starts, named, word) {
            return Some(Flaw {
                at: cell.at + offset,
                found: word,
                wanted: Word::odd(odd::UNDEFINED).0,
            });
        }
        from = offset + 1;
    }
    None
}

/// Whether a word names a store, a table or a box that was named already. Its flag is set.
fn is_named_again(image: &HeapImage, starts: &[bool], named: &mut [bool], word: u64) -> bool
    requires sized { HasWords (image_heap image.now) }
    requires rows { HasRows (image_heap image.now) }
    requires marks { MarksStarts (image_heap image.now) starts.now }
    requires as_many { length named.old ≡ length image.now.words }
    ensures again { IsTrue result → IsNamedAgain (image_heap image.now) word named.old }
    ensures fresh { result ≡ false → MarksName (image_heap image.now) word named.old named.new }
    ensures as_many { length named.new ≡ length named.old }
{
    // No address of a heap is past 32 bits.
    image.regions.sizes_fit();
    let Some(at) = Word(word).address() else {
        return false;
    };
    match find(image, starts, at) {
        Some(cell) => {
            if is_owned(cell.layout.kind) {
                set(named, at)
            } else {
                false
            }
        }
        None => false,
    }
}

/// Sets a flag. It answers whether it was set.
fn set(flags: &mut [bool], at: u32) -> bool
    requires { at < length flags.old }
    ensures sets { SetsFlag flags.old flags.new at }
    ensures was { IsTrue result → slice_get flags.old at ≡ Some true }
    ensures was_not { result ≡ false → slice_get flags.old at ≢ Some true }
{
    let was = flags[at as usize];
    flags[at as usize] = true;
    was
}
