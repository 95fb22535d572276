//! Runs of turns.
ghost use Rattle.std.specs.Prelude.{◌≡◌, ◌<◌};
ghost use Rattle.page_space.specs.Extents.{board_words};
ghost use Rattle.marker.specs.Marking.{IsMarked};
ghost use Rattle.marker.specs.Resting.{IsNext, Rests, StaysAt, Turned};

use crate::offer::offer;
use crate::turn::{Room, look, visit_cell};
use cell_list::CellList;
use crew::Gate;
use page_space::BOARD_WORDS;
use shared_table::{HelperSeat, SharedTable};

/// Why a run of turns stopped.
#[derive(Clone, Copy, Debug, PartialEq, Eq)]
pub enum Outcome {
    /// As many turns were made as there might be.
    Spent { turns: u32 },
    /// No cell waits, and nothing was found at any place of the board since the last one.
    Drained,
}

/// Makes so many turns at most: a turn visits a cell that waits, or else looks at the next place of the board.
pub(crate) fn mark<G: Gate>(
    seat: &mut HelperSeat,
    table: &SharedTable,
    room: &mut Room,
    turns: u32,
    gate: &G,
) -> Outcome
    requires own { seat.old.table ≡ table.now.table.shared.table_id }
    requires rests { Rests room.old.list seat.old.lent }
    requires place { room.old.place < board_words }
    ensures stays { StaysAt seat.old seat.new }
    ensures rests { Rests room.new.list seat.new.lent }
    ensures place { room.new.place < board_words }
    ensures bound { room.new.list.bound ≡ room.old.list.bound }
    ensures marked { IsMarked seat.old.lent.view.log seat.new.lent.view.log room.new.list.addresses turns result }
{
    let mut made = 0u32;
    let mut idle = 0u32;
    while made < turns && idle < BOARD_WORDS {
        if turn(seat, table, room, gate) {
            idle += 1;
        } else {
            idle = 0;
        }
        made += 1;
    }
    if idle == BOARD_WORDS {
        Outcome::Drained
    } else {
        Outcome::Spent { turns: made }
    }
}

/// Makes one turn. Returns whether it was a look that found nothing.
fn turn<G: Gate>(seat: &mut HelperSeat, table: &SharedTable, room: &mut Room, gate: &G) -> bool
    requires own { seat.old.table ≡ table.now.table.shared.table_id }
    requires rests { Rests room.old.list seat.old.lent }
    requires place { room.old.place < board_words }
    ensures stays { StaysAt seat.old seat.new }
    ensures rests { Rests room.new.list seat.new.lent }
    ensures turned { Turned seat.old.lent.view.log seat.new.lent.view.log room.old.place room.new.place
        room.old.list.addresses room.new.list.addresses result }
    ensures bound { room.new.list.bound ≡ room.old.list.bound }
{
    match next_cell(&mut room.list) {
        Some(cell) => {
            visit_cell(seat, table, room, cell, gate);
            offer(seat, table, room);
            false
        }
        None => look(seat, table, room),
    }
}

/// Takes the cell off a list that was listed last.
pub(crate) fn next_cell(list: &mut CellList) -> Option<u32>
    ensures { IsNext list.old list.new result }
{
    if list.len() == 0 { None } else { list.pop() }
}
