//! Seats that are lent to helpers, and taken back.
ghost use Rattle.std.specs.Prelude.{◌≡◌, ◌<◌, List, ℕ, [], length};
ghost use Rattle.page_space.specs.Sizes.{helpers_most};
ghost use Rattle.mark_world.specs.Steps.{lent as lent_helper};
ghost use Rattle.shared_table.specs.declared.phase.Phase.TheVariants.{Mark};
ghost use Rattle.shared_table.specs.Changes.{lending, taking, home_with, lent_by};

use crate::helper::HelperSeat;
use crate::main_side::MainSide;
use crate::plays::{ComesHome, Lends, TakesBack};

impl MainSide {
    /// Lends a seat to a helper, of which at most seven are out.
    pub fn lend(&mut self) -> HelperSeat
        requires mark { self.old.main.phase ≡ Mark }
        requires few { self.old.main.out < helpers_most }
        ensures lent { self.new ≡ record self.old { main = lending self.old.main } }
        ensures of_table { result.table ≡ self.old.table }
        ensures knows { result.lent ≡ lent_by self.old.main }
    {
        // What a lent seat keeps of its table's sizes.
        self.sound();
        let seat = self.shared.table.shared.split_seat::<Lends>(&mut self.seat);
        self.out += 1;
        HelperSeat {
            counts: self.counts,
            seat,
        }
    }

    /// Takes a seat back that this one lent. After the last one the colours and the board are known again.
    pub fn take_back(&mut self, helper: HelperSeat)
        requires mark { self.old.main.phase ≡ Mark }
        requires own { helper.table ≡ self.old.table }
        requires some { 0 < self.old.main.out }
        ensures taken { 1 < self.old.main.out →
            self.new ≡ record self.old { main = taking self.old.main helper.lent.view } }
        ensures last { self.old.main.out ≡ 1 → (colours : List ℕ) × (board : List ℕ)
            × (self.new ≡ record self.old { main = home_with (taking self.old.main helper.lent.view) colours board }) }
    {
        let HelperSeat { counts: _, seat } = helper;
        self.shared
            .table
            .shared
            .join_seat::<TakesBack>(&mut self.seat, seat);
        self.out -= 1;
        if self.out == 0 {
            self.shared
                .table
                .shared
                .load::<ComesHome>(&mut self.seat, 0);
        }
    }
}
