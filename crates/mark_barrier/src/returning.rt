//! Seats that come back, with the cells that waited with them.
ghost use Rattle.std.specs.Prelude.{◌≡◌, ◌↔◌, ◌<◌, ◌≤◌, [], ℕ, List, Contains, None};
ghost use Rattle.page_space.specs.Extents.{eden_start};
ghost use Rattle.shared_table.specs.declared.phase.Phase.TheVariants.{Mark};
ghost use Rattle.shared_table.specs.Changes.{home_with, taking};
ghost use Rattle.heap_table.specs.Overviews.{known, knowing, overview};
ghost use Rattle.mark_barrier.specs.Paid.{IsPaid};

use crate::grey_cells::GreyCells;
use cell_list::CellList;
use heap_table::{HelperSeat, MainSeat};

impl GreyCells {
    /// Takes a seat back that the main seat lent, and lists the cells that waited with it. Those that were passed over
    /// are listed again. After the last seat the colours and the board are known again.
    pub fn take_back(&mut self, seat: &mut MainSeat, helper: HelperSeat, waiting: &mut CellList)
        requires mark { seat.old.phase ≡ Mark }
        requires paid { IsPaid seat.old self.old }
        requires own { helper.table ≡ (known seat.old.shared).id }
        requires some { 0 < (overview seat.old).out }
        requires snap { helper.lent.view.snap ≡ None }
        requires visit { helper.lent.view.visit ≡ [] }
        requires listed { (at : ℕ) → Contains waiting.old.addresses at ↔ Contains helper.lent.view.grey at }
        requires room { waiting.old.bound ≤ eden_start seat.old.space }
        ensures paid { IsPaid seat.new self.new }
        ensures passed { self.new.passed.addresses ≡ [] }
        ensures taken { 1 < (overview seat.old).out →
            seat.new ≡ knowing seat.old seat.old.table (taking (overview seat.old) helper.lent.view) }
        ensures last { (overview seat.old).out ≡ 1 → (colours : List ℕ) × (board : List ℕ)
            × (seat.new ≡ knowing seat.old seat.old.table
            (home_with (taking (overview seat.old) helper.lent.view) colours board)) }
        ensures empty { waiting.new ≡ record waiting.old { addresses = [] } }
    {
        seat.take_back(helper);
        // What waits with the mutator then is born.
        seat.sound();
        self.list.join(waiting);
        waiting.clear();
        // The colours may be known from now on, and tell nothing of those that were found black before.
        self.list.join(&self.passed);
        self.passed.clear();
    }
}
