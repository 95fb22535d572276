//! Cells are offered to other seats.
ghost use Rattle.std.specs.Prelude.{◌≡◌, ◌<◌, Contains};
ghost use Rattle.page_space.specs.Extents.{board_words};
ghost use Rattle.marker.specs.Resting.{Rests, StaysAt};
ghost use Rattle.marker.specs.Shading.{HasListedOthers, IsAtRest};
ghost use Rattle.marker.specs.Turns.{AddsNoTurn};

use crate::marking::next_cell;
use crate::turn::Room;
use shared_table::{HelperSeat, SharedTable};
use work_board::give;

/// Gives a cell to the board where more than one waits, and the place that is looked at next has none.
pub(crate) fn offer(seat: &mut HelperSeat, table: &SharedTable, room: &mut Room)
    requires own { seat.old.table ≡ table.now.table.shared.table_id }
    requires rests { Rests room.old.list seat.old.lent }
    requires place { room.old.place < board_words }
    ensures stays { StaysAt seat.old seat.new }
    ensures rests { Rests room.new.list seat.new.lent }
    ensures log { AddsNoTurn seat.old.lent.view.log seat.new.lent.view.log }
    ensures place { room.new.place ≡ room.old.place }
    ensures bound { room.new.list.bound ≡ room.old.list.bound }
{
    if room.list.len() > 1 {
        let place = seat.counts().board_place(room.place);
        if seat.look(table, place) == 0 {
            give_last(seat, table, room);
        }
    }
}

/// Gives the cell to the board that was listed last.
fn give_last(seat: &mut HelperSeat, table: &SharedTable, room: &mut Room)
    requires own { seat.old.table ≡ table.now.table.shared.table_id }
    requires rests { Rests room.old.list seat.old.lent }
    requires place { room.old.place < board_words }
    ensures stays { StaysAt seat.old seat.new }
    ensures rests { Rests room.new.list seat.new.lent }
    ensures log { AddsNoTurn seat.old.lent.view.log seat.new.lent.view.log }
    ensures place { room.new.place ≡ room.old.place }
    ensures bound { room.new.list.bound ≡ room.old.list.bound }
{
    if let Some(at) = next_cell(&mut room.list) {
        give_cell(seat, table, room, at);
    }
}

/// Gives a cell to the board that was taken off the list. It comes back to the list where the place has one by then.
fn give_cell(seat: &mut HelperSeat, table: &SharedTable, room: &mut Room, at: u32)
    requires own { seat.old.table ≡ table.now.table.shared.table_id }
    requires rest { IsAtRest seat.old.lent }
    requires waits { Contains seat.old.lent.view.grey at }
    requires listed { HasListedOthers room.old.list seat.old.lent at }
    requires place { room.old.place < board_words }
    requires within { at < room.old.list.bound }
    ensures stays { StaysAt seat.old seat.new }
    ensures rests { Rests room.new.list seat.new.lent }
    ensures log { AddsNoTurn seat.old.lent.view.log seat.new.lent.view.log }
    ensures place { room.new.place ≡ room.old.place }
    ensures bound { room.new.list.bound ≡ room.old.list.bound }
{
    match give(seat, table, room.place, at) {
        Ok(()) => {}
        Err(_) => room.list.add(at),
    }
}
