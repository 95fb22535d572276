//! The targets of a cell that a visit has kept are shaded.
ghost use Rattle.std.specs.Prelude.{◌≡◌, ℕ, ◌<◌, [], Contains, Some, length};
ghost use Rattle.mark_laws.specs.Types.{SnapSlot};
ghost use Rattle.mark_world.specs.Pages.{OfTarget};
ghost use Rattle.marker.specs.Shading.{HasListed, IsShaded, MayShade, Shades, word_of};

use cell_list::CellList;
use mark_world::{SnapSlot, target};
use shared_table::{Colour, HelperSeat, SharedTable};
use tagged_word::Word;

/// Shades the target of each slot, and lists those that were white.
pub(crate) fn shade_targets(
    seat: &mut HelperSeat,
    table: &SharedTable,
    list: &mut CellList,
    slots: &[SnapSlot],
)
    requires own { seat.old.table ≡ table.now.table.shared.table_id }
    requires listed { HasListed list.old seat.old.lent }
    requires may { (k : ℕ) (d : SnapSlot) → k < length slots.now →
        OfTarget seat.old.lent.counts.old (word_of slots.now k d) (MayShade seat.old.lent) }
    ensures listed { HasListed list.new seat.new.lent }
    ensures bound { list.new.bound ≡ list.old.bound }
    ensures shades { Shades seat.old seat.new }
    ensures shaded { (k : ℕ) (d : SnapSlot) → k < length slots.now → IsShaded seat.new (word_of slots.now k d) }
{
    for slot in slots {
        shade_target(seat, table, list, slot.word);
    }
}

/// Shades the target of a word, if it has one, and lists it where it was white.
#[inline(always)]
fn shade_target(seat: &mut HelperSeat, table: &SharedTable, list: &mut CellList, word: u64)
    requires own { seat.old.table ≡ table.now.table.shared.table_id }
    requires listed { HasListed list.old seat.old.lent }
    requires may { OfTarget seat.old.lent.counts.old word (MayShade seat.old.lent) }
    ensures listed { HasListed list.new seat.new.lent }
    ensures bound { list.new.bound ≡ list.old.bound }
    ensures shades { Shades seat.old seat.new }
    ensures shaded { IsShaded seat.new word }
{
    if let Some(at) = target(Word(word), seat.counts().old) {
        shade_cell(seat, table, list, at);
    }
}

/// Shades a cell, and lists it where it was white.
#[inline(always)]
fn shade_cell(seat: &mut HelperSeat, table: &SharedTable, list: &mut CellList, at: u32)
    requires own { seat.old.table ≡ table.now.table.shared.table_id }
    requires within { at < seat.old.lent.counts.old }
    requires listed { HasListed list.old seat.old.lent }
    requires may { MayShade seat.old.lent at }
    ensures listed { HasListed list.new seat.new.lent }
    ensures bound { list.new.bound ≡ list.old.bound }
    ensures shades { Shades seat.old seat.new }
    ensures shaded { Contains seat.new.lent.view.visit at → ⊥ }
{
    match seat.shade(table, at) {
        Colour::White => list.add(at),
        _ => {}
    }
}
