//! The board, over which seats hand grey cells to one another: a place has the reference to one cell, or 0.
//!
//! Model: none. A call is one step of a seat on the shared table, and returns what its note says.
//! Invariant: none of its own.
#![tactic(auto)]

ghost use Rattle.std.specs.Prelude.{◌≡◌, ◌<◌};
ghost use Rattle.page_space.specs.Extents.{board_words};
ghost use Rattle.mark_world.specs.declared.event.Event.TheVariants as event;
ghost use Rattle.mark_world.specs.Conditions.{MayGive};
ghost use Rattle.shared_table.specs.declared.phase.Phase.TheVariants.{Mark};
ghost use Rattle.shared_table.specs.Changes.{MayDo};
ghost use Rattle.work_board.specs.Handed.{IfEmpty, IsGiven, IsTaken, IsGivenByMain, IsTakenByMain};

use shared_table::{HelperSeat, MainSide, SharedTable};
use tagged_word::Word;

/// A place of the board had a word already.
#[derive(Clone, Copy, Debug, PartialEq, Eq)]
pub struct Occupied {
    pub found: u64,
}

/// Gives a cell that waits with a seat to a place of the board.
///
/// # Errors
/// The place had a word. Then the cell waits with the seat still.
pub fn give(seat: &mut HelperSeat, table: &SharedTable, place: u32, at: u32) -> Result<(), Occupied>
    requires own { seat.old.table ≡ table.now.table.shared.table_id }
    requires may { MayGive seat.old.lent.view.grey place at }
    ensures { IsGiven seat.old seat.new place at result }
{
    if_empty(seat.give_board(table, place, at))
}

/// Takes the cell at a place of the board, which waits with the seat then; nothing where no cell is there.
#[inline(always)]
pub fn take(seat: &mut HelperSeat, table: &SharedTable, place: u32) -> Option<u32>
    requires own { seat.old.table ≡ table.now.table.shared.table_id }
    requires on_board { place < board_words }
    ensures { IsTaken seat.old seat.new place result }
{
    Word(seat.take_board(table, place)).address()
}

/// Gives a cell that waits with the main seat to a place of the board.
///
/// # Errors
/// The place had a word. Then the cell waits with the main seat still.
pub fn main_give(side: &mut MainSide, place: u32, at: u32) -> Result<(), Occupied>
    requires mark { side.old.main.phase ≡ Mark }
    requires may { MayDo side.old.main (event.GiveMain place at) }
    ensures { IsGivenByMain side.old side.new place at result }
{
    if_empty(side.give_board(place, at))
}

/// Takes the cell at a place of the board, which waits with the main seat then; nothing where no cell is there.
pub fn main_take(side: &mut MainSide, place: u32) -> Option<u32>
    requires mark { side.old.main.phase ≡ Mark }
    requires on_board { place < board_words }
    ensures { IsTakenByMain side.old side.new place result }
{
    Word(side.take_board(place)).address()
}

/// A place had no word.
fn if_empty(found: u64) -> Result<(), Occupied>
    ensures { IfEmpty found result }
{
    if found == 0 {
        Ok(())
    } else {
        Err(Occupied { found })
    }
}
