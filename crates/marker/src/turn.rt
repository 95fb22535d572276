//! One turn: a cell is visited, or a place of the board is looked at.
ghost use Rattle.std.specs.Prelude.{◌≡◌, ◌≢◌, ◌<◌, true, false, [], Contains};
ghost use Rattle.page_space.specs.Extents.{board_words};
ghost use Rattle.marker.specs.Resting.{Looks, Rests, StaysAt, next_place};
ghost use Rattle.marker.specs.Shading.{HasListed, HasListedOthers, IsAtRest};
ghost use Rattle.marker.specs.Turns.{AddsVisit};

use crate::shading::shade_targets;
use cell_list::CellList;
use crew::Gate;
use page_space::BOARD_WORDS;
use shared_table::{HelperSeat, SharedTable};
use slot_snapshot::{Helper, Visit};
use work_board::take;

/// What a marker works with, beside its seat.
#[derive(Drop)]
pub(crate) struct Room {
    pub(crate) helper: Helper,
    pub(crate) list: CellList,
    pub(crate) place: u32,
}

/// Visits a cell that was taken off the list, and shades its targets where the visit kept them.
pub(crate) fn visit_cell<G: Gate>(
    seat: &mut HelperSeat,
    table: &SharedTable,
    room: &mut Room,
    cell: u32,
    gate: &G,
)
    requires own { seat.old.table ≡ table.now.table.shared.table_id }
    requires rest { IsAtRest seat.old.lent }
    requires waits { Contains seat.old.lent.view.grey cell }
    requires listed { HasListedOthers room.old.list seat.old.lent cell }
    ensures stays { StaysAt seat.old seat.new }
    ensures rests { Rests room.new.list seat.new.lent }
    ensures log { AddsVisit seat.old.lent.view.log seat.new.lent.view.log }
    ensures place { room.new.place ≡ room.old.place }
    ensures bound { room.new.list.bound ≡ room.old.list.bound }
{
    match room.helper.visit(seat, table, cell, gate) {
        Visit::Kept(snapshot) => shade_targets(seat, table, &mut room.list, snapshot.slots),
        Visit::Dropped { found: _ } => {}
    }
}

/// Looks at the next place of the board, and takes the cell that is there. Returns whether there was none.
pub(crate) fn look(seat: &mut HelperSeat, table: &SharedTable, room: &mut Room) -> bool
    requires own { seat.old.table ≡ table.now.table.shared.table_id }
    requires rests { Rests room.old.list seat.old.lent }
    requires place { room.old.place < board_words }
    ensures stays { StaysAt seat.old seat.new }
    ensures rests { Rests room.new.list seat.new.lent }
    ensures log { Looks seat.old.lent.view.log seat.new.lent.view.log room.old.place result }
    ensures place { room.new.place ≡ next_place room.old.place }
    ensures bound { room.new.list.bound ≡ room.old.list.bound }
    ensures same { result ≡ true → room.new.list ≡ room.old.list }
    ensures found { result ≡ false → room.new.list.addresses ≢ [] }
{
    let place = room.place;
    room.place = (place + 1) % BOARD_WORDS;
    match take(seat, table, place) {
        Some(at) => {
            room.list.add(at);
            false
        }
        None => true,
    }
}
