//! Cells that wait are made black until none waits.
ghost use Rattle.std.specs.Prelude.{◌≡◌, true, MatchOption, IfNone};
ghost use Rattle.cell_layout.specs.Cells.{layouts_in};
ghost use Rattle.shared_table.specs.declared.phase.Phase.TheVariants.{Mark};
ghost use Rattle.heap_table.specs.Overviews.{overview};
ghost use Rattle.mark_barrier.specs.Paid.{IsPaid, Scans};
ghost use Rattle.mark_barrier.specs.Waiting.{IsEmpty, TakesOff};

use crate::blackening::make_black;
use crate::grey_cells::GreyCells;
use heap_table::MainSeat;

impl GreyCells {
    /// Takes a cell off the lists: the one that was listed last, and once none is listed the one that was passed over
    /// last. None where both lists are empty.
    fn next(&mut self) -> Option<u32>
        ensures taken { MatchOption result (IsEmpty self.old) (TakesOff self.old self.new) }
        ensures unchanged { IfNone result (self.new ≡ self.old) }
    {
        match self.list.pop() {
            Some(at) => Some(at),
            None => self.passed.pop(),
        }
    }
}

/// Takes cells off the lists, and makes each black, until none is on them. One that is black already costs a look at
/// its colour.
pub(crate) fn blacken_listed(grey: &mut GreyCells, seat: &mut MainSeat)
    requires mark { seat.old.phase ≡ Mark }
    requires paid { IsPaid seat.old grey.old }
    requires home { (overview seat.old).home ≡ true }
    requires layouts { layouts_in seat.old.space seat.old.table ≡ (overview seat.old).layouts }
    ensures paid { IsPaid seat.new grey.new }
    ensures scans { Scans seat.old seat.new }
    ensures none { IsEmpty grey.new }
{
    seat.colours_fit();
    while let Some(at) = grey.next() {
        make_black(grey, seat, at);
    }
}
