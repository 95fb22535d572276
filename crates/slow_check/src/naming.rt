//! The slots that name a cell. Each function here returns one of them, or none.
ghost use Rattle.std.specs.Prelude.{◌≡◌, ◌↔◌, IsTrue, Some, slice_get};
ghost use Rattle.cell_layout.specs.Cells.{IsCell};
ghost use Rattle.heap_model.specs.Images.{image_heap};
ghost use Rattle.heap_model.specs.Slots.{is_object_kind, reference_word};
ghost use Rattle.heap_model.specs.Wholeness.{HasRows};
ghost use Rattle.image_walk.specs.Words.{HasWords};
ghost use Rattle.image_walk.specs.Spans.{StandsIn};
ghost use Rattle.image_walk.specs.Naming.{IsSlotIn, IsSlotNextTo, IsSlotOf, IsSlotOfObject, IsSomeSlot};
ghost use Rattle.slow_check.specs.NamingSlots.{IsFound};

use cell_layout::{Cell, next_scavenge_slot};
use heap_model::HeapImage;
use image_walk::{cell_there, find_cell, next_from, word_at, word_of};
use tagged_word::Word;
use tagged_word::cell::STORE_SLOT;

/// A slot of some object that refers to an address.
pub(crate) fn naming_slot(image: &HeapImage, named: u32) -> Option<u32>
    requires sized { HasWords (image_heap image.now) }
    requires rows { HasRows (image_heap image.now) }
    ensures { IsFound (IsSomeSlot (image_heap image.now) named) result }
{
    let mut at = 0;
    while let Some(cell) = next_from(image, at) {
        if let Some(slot) = slot_of_cell(image, cell, named) {
            return Some(slot);
        }
        at = cell.at + cell.size;
    }
    None
}

/// A slot of a cell that refers to an address, if the cell is an object's.
fn slot_of_cell(image: &HeapImage, cell: Cell, named: u32) -> Option<u32>
    requires sized { HasWords (image_heap image.now) }
    requires rows { HasRows (image_heap image.now) }
    requires stands { StandsIn (image_heap image.now) cell }
    ensures { IsFound (IsSlotOfObject (image_heap image.now) cell named) result }
{
    if cell.layout.kind.is_object() {
        slot_of(image, cell, named)
    } else {
        None
    }
}

/// A slot of an object that refers to an address: one of its own, or one of its store or table.
fn slot_of(image: &HeapImage, object: Cell, named: u32) -> Option<u32>
    requires sized { HasWords (image_heap image.now) }
    requires rows { HasRows (image_heap image.now) }
    requires stands { StandsIn (image_heap image.now) object }
    requires is { IsTrue (is_object_kind object.layout.kind) }
    ensures { IsFound (IsSlotOf (image_heap image.now) object named) result }
{
    match slot_in(image, object, named) {
        Some(slot) => Some(slot),
        None => slot_next_to(image, object, named),
    }
}

/// A slot that refers to an address, among those of the cell to which slot 1 of an object refers.
fn slot_next_to(image: &HeapImage, object: Cell, named: u32) -> Option<u32>
    requires sized { HasWords (image_heap image.now) }
    requires rows { HasRows (image_heap image.now) }
    requires stands { StandsIn (image_heap image.now) object }
    requires is { IsTrue (is_object_kind object.layout.kind) }
    ensures { IsFound (IsSlotNextTo (image_heap image.now) object named) result }
{
    // No address of a heap is past 32 bits.
    image.regions.sizes_fit();
    let Some(at) = Word(word_of(image, object, STORE_SLOT)).address() else {
        return None;
    };
    let Some(cell) = cell_there(image, at) else {
        return None;
    };
    let Some(slot) = slot_in(image, cell, named) else {
        return None;
    };
    // Words that read as a cell may be words of another one.
    match find_cell(image, at) {
        Some(_) => Some(slot),
        None => None,
    }
}

/// A slot that refers to an address, among those of a cell that words read as.
fn slot_in(image: &HeapImage, cell: Cell, named: u32) -> Option<u32>
    requires sized { HasWords (image_heap image.now) }
    requires is_cell { IsCell image.now.regions image.now.words cell }
    ensures { IsFound (IsSlotIn (image_heap image.now) cell named) result }
{
    // No address of a heap is past 32 bits.
    image.regions.sizes_fit();
    let mut from = 0;
    while let Some(offset) = next_scavenge_slot(&cell, from) {
        let slot = cell.at + offset;
        if refers_from(image, named, slot) {
            return Some(slot);
        }
        from = offset + 1;
    }
    None
}

/// Whether the word at an address refers to another.
fn refers_from(image: &HeapImage, named: u32, slot: u32) -> bool
    ensures { IsTrue result ↔ (slice_get image.now.words slot ≡ Some (reference_word named)) }
{
    word_at(image, slot) == Some(Word::reference(named).0)
}
