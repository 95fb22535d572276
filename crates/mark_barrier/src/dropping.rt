//! A cycle that is closed before its marking has ended.
ghost use Rattle.std.specs.Prelude.{◌≡◌, true};
ghost use Rattle.page_space.specs.Extents.{eden_start};
ghost use Rattle.core_parts.specs.Boards.{empty_board};
ghost use Rattle.shared_table.specs.declared.phase.Phase.TheVariants.{Mark};
ghost use Rattle.heap_table.specs.Overviews.{cycle_in, overview};
ghost use Rattle.mark_barrier.specs.Paid.{IsDropped, IsPaid, StepsTo};
ghost use Rattle.mark_barrier.specs.Waiting.{HasRoom, IsEmpty};

use crate::grey_cells::GreyCells;
use heap_table::MainSeat;
use page_space::BOARD_WORDS;

impl GreyCells {
    /// Closes the cycle: no cell waits or is on the board then, and all are white.
    pub fn drop_cycle(&mut self, seat: &mut MainSeat)
        requires mark { seat.old.phase ≡ Mark }
        requires paid { IsPaid seat.old self.old }
        requires home { (overview seat.old).home ≡ true }
        ensures dropped { IsDropped seat.old seat.new }
        ensures empty { IsEmpty self.new }
        ensures room { HasRoom self.new (eden_start seat.old.space) }
    {
        self.take_all(seat);
        self.list.clear();
        self.passed.clear();
        seat.drop_cycle();
    }

    /// Takes all cells from the board.
    fn take_all(&mut self, seat: &mut MainSeat)
        requires mark { seat.old.phase ≡ Mark }
        requires paid { IsPaid seat.old self.old }
        requires home { (overview seat.old).home ≡ true }
        ensures room { HasRoom self.new (eden_start seat.old.space) }
        ensures steps { StepsTo seat.old seat.new seat.old.table (cycle_in seat.old) }
        ensures empty { (overview seat.new).board ≡ empty_board }
    {
        seat.layouts_fit();
        // There are as many places as words of a board.
        seat.whole();
        for place in 0..BOARD_WORDS {
            self.take(seat, place);
        }
    }
}
