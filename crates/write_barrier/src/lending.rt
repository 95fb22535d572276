//! Seats that are lent to helpers, and what helpers are given: grey cells on the board.
ghost use Rattle.std.specs.Prelude.{◌≡◌, ◌↔◌, ◌+◌, ◌<◌, ◌≤◌, ℕ, [], None, Some, IsSome, IfOk, Contains};
ghost use Rattle.std.specs.Arc.{arc_value};
ghost use Rattle.page_space.specs.Extents.{board_words, eden_start};
ghost use Rattle.page_space.specs.Sizes.{helpers_most};
ghost use Rattle.mark_world.specs.Steps.{lent};
ghost use Rattle.heap_table.specs.Phases.{Mark};
ghost use Rattle.heap_table.specs.Seats.{counts_of};
ghost use Rattle.write_barrier.specs.Seats.{seat_back, seat_lent};

use crate::main_side::Main;
use cell_list::CellList;
use heap_table::{HelperSeat, SharedTable};
use page_space::BOARD_WORDS;
use std::alloc::Global;
use std::sync::Arc;
use tagged_word::NoMemory;

impl Main {
    /// The shared table, for a helper's thread.
    ///
    /// # Errors
    /// Out of memory.
    pub fn table(&self) -> Result<Arc<SharedTable, Global>, NoMemory>
        requires shared { IsSome self.now.seat.shared }
        ensures same { IfOk result (λ shared.
            self.now.seat.shared ≡ Some (arc_value shared).table.shared.table_id) }
    {
        self.seat.table()
    }

    /// Lends a seat to a helper, of which at most seven are out.
    pub fn lend(&mut self) -> HelperSeat
        requires mark { self.old.seat.phase ≡ Mark }
        requires few { self.old.seat.out < helpers_most }
        ensures lent { self.new ≡ record self.old { seat = seat_lent self.old.seat } }
        ensures of_table { self.old.seat.shared ≡ Some result.table }
        ensures counts { result.lent.counts ≡ counts_of self.old.seat.space }
        ensures view { result.lent.view ≡ lent }
    {
        self.seat.layouts_fit();
        self.seat.lend()
    }

    /// Takes a seat back, with the cells that wait with its helper: they wait with the mutator then. The helper has no
    /// cell to visit and reads none. After the last seat the colours and the board are known again.
    pub fn take_back(&mut self, helper: HelperSeat, waiting: &mut CellList)
        requires mark { self.old.seat.phase ≡ Mark }
        requires own { self.old.seat.shared ≡ Some helper.table }
        requires some { 0 < self.old.seat.out }
        requires snap { helper.lent.view.snap ≡ None }
        requires visit { helper.lent.view.visit ≡ [] }
        requires listed { (at : ℕ) → Contains waiting.old.addresses at ↔ Contains helper.lent.view.grey at }
        requires room { waiting.old.bound ≤ eden_start self.old.seat.space }
        ensures back { self.new ≡ record self.old { seat = seat_back self.old.seat } }
        ensures empty { waiting.new ≡ record waiting.old { addresses = [] } }
    {
        self.seat.layouts_fit();
        let Some(grey) = &mut self.grey else {
            unreachable!()
        };
        grey.take_back(&mut self.seat, helper, waiting);
    }

    /// Puts cells that wait on the board, as far as cells wait and places are free.
    pub fn give_board(&mut self)
        requires mark { self.old.seat.phase ≡ Mark }
        ensures same { self.new ≡ self.old }
    {
        for place in 0..BOARD_WORDS {
            self.give_place(place);
        }
    }

    /// Gives a cell that waits to a place of the board, if none stands there.
    fn give_place(&mut self, place: u32)
        requires mark { self.old.seat.phase ≡ Mark }
        requires within { place < board_words }
        ensures same { self.new ≡ self.old }
    {
        self.seat.layouts_fit();
        let Some(grey) = &mut self.grey else {
            unreachable!()
        };
        grey.give(&mut self.seat, place);
    }
}
