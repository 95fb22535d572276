//! A cell is made black, and the targets of its tagged slots are shaded.
ghost use Rattle.std.specs.Prelude.{◌≡◌, [], Contains, IsSome, Some};
ghost use Rattle.page_space.specs.Extents.{eden_start};
ghost use Rattle.cell_layout.specs.Cells.{layouts_in, reading_of};
ghost use Rattle.mark_world.specs.BetweenCommands.{Settled};
ghost use Rattle.shared_table.specs.declared.phase.Phase.TheVariants.{Mark};
ghost use Rattle.shared_table.specs.Worlds.{world_at_home};
ghost use Rattle.heap_table.specs.Overviews.{cycle_in, overview};
ghost use Rattle.mark_barrier.specs.CycleSteps.{made_black};
ghost use Rattle.mark_barrier.specs.Owing.{Owes, own_cell};
ghost use Rattle.mark_barrier.specs.Paid.{AreNoMore, IsBlackened, IsPaid, ListsGrey, ListsAllBut, StepsTo};

use crate::grey_cells::GreyCells;
use crate::shading::{pages_end, shade_target};
use cell_layout::{Cell, next_tagged};
use core_parts::read_cell;
use heap_table::{Colour, MainSeat};
use mark_world::page_end;
use tagged_word::{Word, shape};

/// Makes a born cell black, and shades the targets of its tagged slots, unless it was black. It waits no more then.
pub(crate) fn make_black(grey: &mut GreyCells, seat: &mut MainSeat, at: u32)
    requires mark { seat.old.phase ≡ Mark }
    requires lists { ListsAllBut seat.old grey.old at }
    requires owed { (overview seat.old).view.owed ≡ [] }
    requires born { Contains (overview seat.old).view.born at }
    requires layouts { layouts_in seat.old.space seat.old.table ≡ (overview seat.old).layouts }
    ensures paid { IsPaid seat.new grey.new }
    ensures passed { grey.new.passed ≡ grey.old.passed }
    ensures steps { let old = overview seat.old in
        let cycle = made_black old.old old.words old.layouts (cycle_in seat.old) at in
        StepsTo seat.old seat.new seat.old.table cycle }
    ensures black { IsBlackened seat.new at }
    ensures settled { Settled (world_at_home (overview seat.old)) → Settled (world_at_home (overview seat.new)) }
    ensures no_more { AreNoMore seat.old grey.old seat.new grey.new }
{
    // A born cell is of a page, and so are the targets of its tagged slots.
    seat.sound();
    seat.colours_fit();
    match seat.blacken(at) {
        Colour::Black => {}
        _ => {
            let cell = known_cell(seat, at);
            shade_slots(grey, seat, &cell);
        }
    }
}

/// The cell of a page at an address, where there is one.
fn known_cell(seat: &MainSeat, at: u32) -> Cell
    requires { IsSome (own_cell seat.now.space seat.now.table at) }
    ensures at { result.at ≡ at }
    ensures reads { own_cell seat.now.space seat.now.table at ≡ Some (reading_of result) }
{
    let regions = seat.regions();
    let words = seat.own().as_slice();
    let old = pages_end(regions);
    let rest = &words[regions.layout_at(0) as usize..];
    let layouts = &rest[..shape::COUNT as usize];
    let pages = &words[..old as usize];
    let bound = (old as u64).min(page_end(at)) as u32;
    let Some(cell) = read_cell(pages, layouts, at, bound) else {
        unreachable!()
    };
    Cell {
        at,
        header: cell.header,
        layout: cell.layout,
        length: cell.length,
        size: cell.size,
    }
}

/// Shades the target of each tagged slot of a cell. Nothing is owed then.
fn shade_slots(grey: &mut GreyCells, seat: &mut MainSeat, cell: &Cell)
    requires mark { seat.old.phase ≡ Mark }
    requires lists { ListsGrey seat.old grey.old }
    requires owes { Owes seat.old cell.now 0 }
    ensures lists { ListsGrey seat.new grey.new }
    ensures passed { grey.new.passed ≡ grey.old.passed }
    ensures owed { (overview seat.new).view.owed ≡ [] }
    ensures steps { StepsTo seat.old seat.new seat.old.table (cycle_in seat.old) }
    ensures no_more { AreNoMore seat.old grey.old seat.new grey.new }
{
    seat.colours_fit();
    let mut from = 0;
    while let Some(offset) = next_tagged(cell, from) {
        let word = Word(seat.slot(cell.at, offset));
        shade_target(grey, seat, word);
        from = offset + 1;
    }
}
