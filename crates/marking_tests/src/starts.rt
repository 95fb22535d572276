//! What a marking is given, with what it asks of that, looked at in the heap.
ghost use Rattle.std.specs.Prelude.{◌≡◌, ◌+◌, ◌<◌, ◌⊎◌, ℕ, Contains, IsTrue};
ghost use Rattle.tagged_word.specs.Cells.{tagged_offsets};
ghost use Rattle.page_space.specs.Extents.{roots_start, marks_start};
ghost use Rattle.heap_model.specs.Slots.{IsWeakCellAt};
ghost use Rattle.heap_model.specs.Wholeness.{Whole};
ghost use Rattle.live_cells.specs.Live.{HasSlotTo};
ghost use Rattle.write_barrier.specs.MutatorState.{heap_of};
ghost use Rattle.ephemeron_mark.specs.Marked.{StandsInHeap, SeenLeadToGiven};
ghost use Rattle.ephemeron_mark.specs.Progress.{HoldsReference, IsCellOf};

use crate::found_cells::find_cell;
use cell_layout::Cell;
use cell_list::CellList;
use ephemeron_mark::Marking;
use tagged_word::{Kind, Word};
use write_barrier::Main;

/// Gives the marking these cells as seen, and then those. Answers whether the heap has them all, and the seen ones lead
/// to given cells, unless they are weak maps.
pub(crate) fn give_all(main: &Main, marking: &mut Marking, seen: &[u32], given: &[u32]) -> bool
    requires whole { Whole (heap_of main.now) }
    requires bound { marking.old.bound ≡ roots_start main.now.seat.space }
    ensures stand { (at : ℕ) → Contains marking.new.cells at → StandsInHeap (heap_of main.now) at }
    ensures seen { IsTrue result → SeenLeadToGiven (heap_of main.now) marking.new }
    ensures bound { marking.new.bound ≡ marking.old.bound }
{
    marking.begin();
    if !give_each(main, marking, seen, true) {
        return false;
    }
    if !give_each(main, marking, given, false) {
        return false;
    }
    lead_on(main, marking.cells(), seen)
}

/// Gives the marking these cells, as seen or not. Answers whether the heap has them all.
fn give_each(main: &Main, marking: &mut Marking, given: &[u32], as_seen: bool) -> bool
    requires whole { Whole (heap_of main.now) }
    requires bound { marking.old.bound ≡ roots_start main.now.seat.space }
    requires stand { (at : ℕ) → Contains marking.old.cells at → StandsInHeap (heap_of main.now) at }
    ensures stand { (at : ℕ) → Contains marking.new.cells at → StandsInHeap (heap_of main.now) at }
    ensures seen { (at : ℕ) → Contains marking.new.seen at →
        Contains marking.old.seen at ⊎ (IsTrue as_seen × Contains given.now at) }
    ensures bound { marking.new.bound ≡ marking.old.bound }
{
    for place in 0..given.len() {
        if !give(main, marking, given[place], as_seen) {
            return false;
        }
    }
    true
}

/// Gives the marking the cell at an address, as seen or not. Answers whether the heap has one there.
fn give(main: &Main, marking: &mut Marking, given: u32, as_seen: bool) -> bool
    requires whole { Whole (heap_of main.now) }
    requires bound { marking.old.bound ≡ roots_start main.now.seat.space }
    requires stand { (at : ℕ) → Contains marking.old.cells at → StandsInHeap (heap_of main.now) at }
    ensures stand { (at : ℕ) → Contains marking.new.cells at → StandsInHeap (heap_of main.now) at }
    ensures seen { (at : ℕ) → Contains marking.new.seen at →
        Contains marking.old.seen at ⊎ (IsTrue as_seen × (at ≡ given)) }
    ensures bound { marking.new.bound ≡ marking.old.bound }
{
    let Some(cell) = find_cell(main, given) else {
        return false;
    };
    if as_seen {
        marking.give_seen(cell.at);
        return true;
    }
    marking.give(cell.at);
    true
}

/// Whether each of these cells leads to listed ones, unless it is a weak map.
fn lead_on(main: &Main, cells: &CellList, seen: &[u32]) -> bool
    requires whole { Whole (heap_of main.now) }
    requires bound { cells.now.bound ≡ roots_start main.now.seat.space }
    ensures { IsTrue result → (from to : ℕ) → Contains seen.now from → (IsWeakCellAt (heap_of main.now) from → ⊥) →
        HasSlotTo (heap_of main.now) from to → Contains cells.now.addresses to }
{
    for place in 0..seen.len() {
        if !leads_on(main, cells, seen[place]) {
            return false;
        }
    }
    true
}

/// Whether the cell at an address leads to listed ones, unless it is a weak map.
fn leads_on(main: &Main, cells: &CellList, from: u32) -> bool
    requires whole { Whole (heap_of main.now) }
    requires bound { cells.now.bound ≡ roots_start main.now.seat.space }
    ensures { IsTrue result → (to : ℕ) → (IsWeakCellAt (heap_of main.now) from → ⊥) →
        HasSlotTo (heap_of main.now) from to → Contains cells.now.addresses to }
{
    let Some(cell) = find_cell(main, from) else {
        return false;
    };
    match cell.layout.kind {
        Kind::Weak => true,
        _ => has_listed_targets(main, cells, &cell),
    }
}

/// Whether each slot of a cell that marking visits refers to a listed cell, or to none.
fn has_listed_targets(main: &Main, cells: &CellList, cell: &Cell) -> bool
    requires whole { Whole (heap_of main.now) }
    requires bound { cells.now.bound ≡ roots_start main.now.seat.space }
    requires stands { IsCellOf (heap_of main.now) cell.now }
    ensures { IsTrue result → (to : ℕ) → HasSlotTo (heap_of main.now) cell.now.at to → Contains cells.now.addresses to }
{
    for offset in 0..cell.size {
        if !is_listed_slot(main, cells, cell, offset) {
            return false;
        }
    }
    true
}

/// Whether the word at an offset of a cell is in no slot that marking visits, or refers to a listed cell, or to none.
fn is_listed_slot(main: &Main, cells: &CellList, cell: &Cell, offset: u32) -> bool
    requires whole { Whole (heap_of main.now) }
    requires bound { cells.now.bound ≡ roots_start main.now.seat.space }
    requires stands { IsCellOf (heap_of main.now) cell.now }
    ensures { IsTrue result → (to : ℕ) → Contains (tagged_offsets cell.now.layout cell.now.length) offset →
        HoldsReference (heap_of main.now) (cell.now.at + offset) to → Contains cells.now.addresses to }
{
    // No address is past 32 bits.
    main.addresses_fit();
    if !cell.layout.is_tagged(cell.length, offset) {
        return true;
    }
    has_listed_target(main, cells, cell.at + offset)
}

/// Whether the word at an address refers to a listed cell, or to none.
fn has_listed_target(main: &Main, cells: &CellList, slot: u32) -> bool
    requires within { slot < marks_start main.now.seat.space }
    requires bound { cells.now.bound ≡ roots_start main.now.seat.space }
    requires below { (to : ℕ) → HoldsReference (heap_of main.now) slot to → to < roots_start main.now.seat.space }
    ensures { IsTrue result → (to : ℕ) → HoldsReference (heap_of main.now) slot to → Contains cells.now.addresses to }
{
    // No address is past 32 bits.
    main.addresses_fit();
    let Some(to) = Word(main.word(slot)).address() else {
        return true;
    };
    cells.contains(to)
}
