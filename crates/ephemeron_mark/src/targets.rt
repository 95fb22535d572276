//! Marking what words refer to: those of variables, and those of the slots of a cell.
ghost use Rattle.std.specs.Prelude.{ℕ, ◌<◌, All, Contains};
ghost use Rattle.tagged_word.specs.Cells.{tagged_offsets};
ghost use Rattle.page_space.specs.Extents.{marks_start};
ghost use Rattle.live_cells.specs.Live.{HasSlotTo};
ghost use Rattle.live_cells.specs.Marked.{HasRootTargets};
ghost use Rattle.write_barrier.specs.MutatorState.{heap_of};
ghost use Rattle.ephemeron_mark.specs.Marked.{IsLiveFrom};
ghost use Rattle.ephemeron_mark.specs.Progress.{HoldsReference, IsMarking, HasGrown, IsCellOf};

use cell_layout::Cell;
use cell_list::CellList;
use tagged_word::cell::{PLAIN_HEAD, STORE_SLOT};
use tagged_word::{Kind, Word};
use write_barrier::Main;

/// Marks what the word at an address refers to, where it is a reference.
pub(crate) fn mark_target(main: &Main, cells: &mut CellList, slot: u32)
    requires marking { IsMarking main.now cells.old }
    requires within { slot < marks_start main.now.seat.space }
    requires live { (at : ℕ) → HoldsReference (heap_of main.now) slot at →
        IsLiveFrom (heap_of main.now) cells.old.addresses at }
    ensures grown { HasGrown main.now cells.old cells.new }
    ensures marked { (at : ℕ) → HoldsReference (heap_of main.now) slot at → Contains cells.new.addresses at }
{
    // No address is past 32 bits.
    main.addresses_fit();
    if let Some(at) = Word(main.word(slot)).address() {
        cells.push(at);
    }
}

/// Marks what the first root words of variables refer to.
pub(crate) fn mark_roots(main: &Main, cells: &mut CellList)
    requires marking { IsMarking main.now cells.old }
    ensures grown { HasGrown main.now cells.old cells.new }
    ensures targets { HasRootTargets (heap_of main.now) (Contains cells.new.addresses) }
{
    let regions = main.regions();
    for variable in 0..regions.variables() {
        mark_target(main, cells, regions.root_at(variable));
    }
}

/// Marks what the slots of a marked cell refer to, of those that marking visits. They stand before an
/// offset, up to which each offset is tried.
#[inline(always)]
fn mark_before(main: &Main, cells: &mut CellList, cell: &Cell, slots_end: u32)
    requires marking { IsMarking main.now cells.old }
    requires marked { Contains cells.old.addresses cell.now.at }
    requires stands { IsCellOf (heap_of main.now) cell.now }
    requires ends { All (λ offset. offset < slots_end) (tagged_offsets cell.now.layout cell.now.length) }
    ensures grown { HasGrown main.now cells.old cells.new }
    ensures slots { (at : ℕ) → HasSlotTo (heap_of main.now) cell.now.at at → Contains cells.new.addresses at }
{
    // No address is past 32 bits.
    main.addresses_fit();
    for offset in STORE_SLOT..slots_end {
        if cell.layout.is_tagged(cell.length, offset) {
            mark_target(main, cells, cell.at + offset);
        }
    }
}

/// Marks what the slots of a marked cell refer to, of those that marking visits.
pub(crate) fn mark_slots(main: &Main, cells: &mut CellList, cell: &Cell)
    requires marking { IsMarking main.now cells.old }
    requires marked { Contains cells.old.addresses cell.now.at }
    requires stands { IsCellOf (heap_of main.now) cell.now }
    ensures grown { HasGrown main.now cells.old cells.new }
    ensures slots { (at : ℕ) → HasSlotTo (heap_of main.now) cell.now.at at → Contains cells.new.addresses at }
{
    // Plain cells and stores have most of the slots: their loops do not ask for the kind at each.
    match cell.layout.kind {
        Kind::Plain => mark_before(main, cells, cell, PLAIN_HEAD + cell.layout.used),
        Kind::Store => mark_before(main, cells, cell, cell.size),
        _ => mark_before(main, cells, cell, STORE_SLOT + 1),
    }
}
