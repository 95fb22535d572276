//! Seats that are lent to helpers, and taken back.
ghost use Rattle.std.specs.Prelude.{◌≡◌, ◌<◌, List, ℕ, IfOk, IsTrue, is_some};
ghost use Rattle.std.specs.Arc.{arc_value};
ghost use Rattle.page_space.specs.Sizes.{helpers_most};
ghost use Rattle.shared_table.specs.declared.phase.Phase.TheVariants.{Mark};
ghost use Rattle.shared_table.specs.Changes.{lending, taking, home_with, lent_by};
ghost use Rattle.heap_table.specs.Overviews.{known, overview, knowing};

use crate::main_seat::MainSeat;
use shared_table::{HelperSeat, SharedTable};
use std::alloc::Global;
use std::sync::Arc;
use tagged_word::NoMemory;

impl MainSeat {
    /// The shared table, for a helper's thread.
    ///
    /// # Errors
    /// Out of memory.
    pub fn table(&self) -> Result<Arc<SharedTable, Global>, NoMemory>
        requires shared { IsTrue (is_some self.now.shared) }
        ensures same { IfOk result (λ shared.
            (arc_value shared).table.shared.table_id ≡ (known self.now.shared).id) }
    {
        let Some(side) = &self.shared else {
            unreachable!()
        };
        side.table()
    }

    /// Lends a seat to a helper, of which at most seven are out.
    pub fn lend(&mut self) -> HelperSeat
        requires mark { self.old.phase ≡ Mark }
        requires few { (overview self.old).out < helpers_most }
        ensures lent { self.new ≡ knowing self.old self.old.table (lending (overview self.old)) }
        ensures of_table { result.table ≡ (known self.old.shared).id }
        ensures knows { result.lent ≡ lent_by (overview self.old) }
    {
        let Some(side) = &mut self.shared else {
            unreachable!()
        };
        side.lend()
    }

    /// Takes a seat back that this one lent. After the last one the colours and the board are known again.
    pub fn take_back(&mut self, helper: HelperSeat)
        requires mark { self.old.phase ≡ Mark }
        requires own { helper.table ≡ (known self.old.shared).id }
        requires some { 0 < (overview self.old).out }
        ensures taken { 1 < (overview self.old).out →
            self.new ≡ knowing self.old self.old.table (taking (overview self.old) helper.lent.view) }
        ensures last { (overview self.old).out ≡ 1 → (colours : List ℕ) × (board : List ℕ)
            × (self.new ≡ knowing self.old self.old.table
            (home_with (taking (overview self.old) helper.lent.view) colours board)) }
    {
        let Some(side) = &mut self.shared else {
            unreachable!()
        };
        side.take_back(helper);
    }
}
