//! The grey cells that wait with the mutator, and the steps that shade and store.
ghost use Rattle.std.specs.Prelude.{◌≡◌, ◌<◌, [], Contains, IfOk, slice_set, true};
ghost use Rattle.page_space.specs.Extents.{eden_start};
ghost use Rattle.cell_layout.specs.Cells.{layouts_in};
ghost use Rattle.mark_world.specs.declared.event.Event.TheVariants as event;
ghost use Rattle.mark_world.specs.Pages.{OfTarget};
ghost use Rattle.shared_table.specs.declared.phase.Phase.TheVariants.{Mark};
ghost use Rattle.heap_table.specs.Overviews.{cycle_in, MayStep, overview};
ghost use Rattle.mark_barrier.specs.CycleSteps.{made_black, published, sure_of, sure_of_target};
ghost use Rattle.mark_barrier.specs.Paid.{IsBlackened, IsColoured, IsPaid, Scans, StepsTo};
ghost use Rattle.mark_barrier.specs.Waiting.{IsEmpty, empty_to};

use crate::blackening::make_black;
use crate::scanning::blacken_listed;
use crate::shading::{pages_end, shade_cell, shade_target};
use cell_list::CellList;
use heap_table::MainSeat;
use page_space::Regions;
use std::alloc::Global;
use std::marker::Model;
use tagged_word::{NoMemory, Word};

/// The cells that wait with the mutator to be visited: those that it found white and shaded, and those that came from
/// the board or with a helper's seat. A cell that is made black stays on its list, since a list is not searched: what
/// takes from it asks for the colour.
#[derive(Drop)]
pub struct GreyCells {
    pub(crate) list: CellList,
    // Cells that were found black when one was to be given. They are kept, since one of them may wait still, and apart,
    // so that each is looked at once. When a seat comes back they are listed again.
    pub(crate) passed: CellList,
}

impl Model for GreyCells {
    ghost use Rattle.mark_barrier.specs.Waiting.{Waiting};

    ghost Value = { Waiting };

    ghost use Rattle.mark_barrier.specs.Model.{waiting_in};

    ghost view = { waiting_in };
}

impl GreyCells {
    /// No cell waits. It takes all the memory that it needs.
    ///
    /// # Errors
    /// Out of memory.
    pub fn new(alloc: Global, regions: Regions) -> Result<GreyCells, NoMemory>
        ensures { IfOk result (λ grey. grey ≡ empty_to (eden_start regions)) }
    {
        let list = CellList::new(alloc, pages_end(regions))?;
        let passed = CellList::new(alloc, pages_end(regions))?;
        Ok(GreyCells { list, passed })
    }

    /// Shades a born cell.
    pub fn shade(&mut self, seat: &mut MainSeat, at: u32)
        requires mark { seat.old.phase ≡ Mark }
        requires paid { IsPaid seat.old self.old }
        requires born { Contains (overview seat.old).view.born at }
        ensures paid { IsPaid seat.new self.new }
        ensures passed { self.new.passed ≡ self.old.passed }
        ensures steps { StepsTo seat.old seat.new seat.old.table (sure_of (cycle_in seat.old) at) }
        ensures coloured { IsColoured seat.new at }
    {
        // A born cell is of a page.
        seat.sound();
        shade_cell(self, seat, at);
    }

    /// Stores a word in a slot of a page, and shades its target, if it has one in a page.
    #[inline(always)]
    pub fn store(&mut self, seat: &mut MainSeat, a: u32, word: Word)
        requires mark { seat.old.phase ≡ Mark }
        requires paid { IsPaid seat.old self.old }
        requires within { a < eden_start seat.old.space }
        requires may { MayStep seat.old (event.StoreSlot a word.0) }
        ensures paid { IsPaid seat.new self.new }
        ensures passed { self.new.passed ≡ self.old.passed }
        ensures steps { let cycle = sure_of_target (eden_start seat.old.space) (cycle_in seat.old) word.0 in
            StepsTo seat.old seat.new (slice_set seat.old.table a word.0) cycle }
        ensures coloured { OfTarget (eden_start seat.old.space) word.0 (IsColoured seat.new) }
    {
        seat.store_slot(a, word.0);
        shade_target(self, seat, word);
    }

    /// Publishes a cell that was just made: it is black first.
    pub fn publish(&mut self, seat: &mut MainSeat, a: u32)
        requires mark { seat.old.phase ≡ Mark }
        requires paid { IsPaid seat.old self.old }
        requires may { MayStep seat.old (event.NewBlack a) }
        ensures paid { IsPaid seat.new self.new }
        ensures passed { self.new.passed ≡ self.old.passed }
        ensures steps { StepsTo seat.old seat.new seat.old.table (published (cycle_in seat.old) a) }
        ensures black { IsBlackened seat.new a }
    {
        seat.colours_fit();
        // A colour is one of three, so none is darker than black.
        let _colour = seat.colour(a);
        seat.new_black(a);
    }

    /// Makes a born cell black, and shades the targets of its tagged slots, unless it was black. No list is
    /// searched for it.
    pub fn blacken(&mut self, seat: &mut MainSeat, at: u32)
        requires mark { seat.old.phase ≡ Mark }
        requires paid { IsPaid seat.old self.old }
        requires born { Contains (overview seat.old).view.born at }
        requires layouts { layouts_in seat.old.space seat.old.table ≡ (overview seat.old).layouts }
        ensures paid { IsPaid seat.new self.new }
        ensures passed { self.new.passed ≡ self.old.passed }
        ensures steps { let old = overview seat.old in
            let cycle = made_black old.old old.words old.layouts (cycle_in seat.old) at in
            StepsTo seat.old seat.new seat.old.table cycle }
        ensures black { IsBlackened seat.new at }
    {
        make_black(self, seat, at);
    }

    /// Visits the cells that wait, and those that are found by it, until none waits: each is made black.
    pub fn scan(&mut self, seat: &mut MainSeat)
        requires mark { seat.old.phase ≡ Mark }
        requires paid { IsPaid seat.old self.old }
        requires home { (overview seat.old).home ≡ true }
        requires layouts { layouts_in seat.old.space seat.old.table ≡ (overview seat.old).layouts }
        ensures paid { IsPaid seat.new self.new }
        ensures scans { Scans seat.old seat.new }
        ensures none { IsEmpty self.new }
        ensures grey { (overview seat.new).view.grey ≡ [] }
    {
        blacken_listed(self, seat);
    }
}
