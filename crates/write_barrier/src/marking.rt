//! Steps of marking that store nothing: cells of pages that are published, made black, shaded, or taken from the board.
ghost use Rattle.std.specs.Prelude.{◌≡◌, ◌<◌, Contains};
ghost use Rattle.page_space.specs.Extents.{board_words, marks_start};
ghost use Rattle.mark_world.specs.declared.event.Event.TheVariants as event;
ghost use Rattle.heap_table.specs.Phases.{Mark};
ghost use Rattle.mark_barrier.specs.CycleSteps.{published, sure_of};
ghost use Rattle.write_barrier.specs.Marking.{MayPut, blackened, with_published, with_blackened};
ghost use Rattle.write_barrier.specs.MutatorState.{while_open};

use crate::main_side::Main;
use heap_table::Phase;

impl Main {
    /// Makes a new cell black, and publishes it.
    #[inline(always)]
    pub fn publish(&mut self, a: u32)
        requires may_store { MayPut self.old a (event.NewBlack a) }
        requires within { a < marks_start self.old.seat.space }
        ensures published { self.new ≡ with_published self.old a }
        ensures same { (self.old.seat.phase ≡ Mark → ⊥) → self.new ≡ self.old }
    {
        // Other calls for the cell make this test too, so it comes first.
        if self.remembered.covers(a) {
            self.publish_in_page(a);
        }
    }

    /// The same of a cell of a page.
    #[inline(always)]
    fn publish_in_page(&mut self, a: u32)
        requires may_store { MayPut self.old a (event.NewBlack a) }
        requires of_page { a < self.old.recorded.bound }
        ensures { let next = published self.old.cycle a in
            self.new ≡ record self.old { cycle = while_open self.old.seat.phase self.old.cycle next } }
    {
        // No cycle is open where there is no shared table.
        self.seat.layouts_fit();
        if self.seat.is_shared() {
            self.publish_to_helpers(a);
        }
    }

    /// The same where there is a shared table.
    #[cold]
    #[inline(never)]
    fn publish_to_helpers(&mut self, a: u32)
        requires may_store { MayPut self.old a (event.NewBlack a) }
        requires of_page { a < self.old.recorded.bound }
        ensures { let next = published self.old.cycle a in
            self.new ≡ record self.old { cycle = while_open self.old.seat.phase self.old.cycle next } }
    {
        self.seat.layouts_fit();
        self.addresses_fit();
        if self.seat.phase() == Phase::Mark {
            let Some(grey) = &mut self.grey else {
                unreachable!()
            };
            grey.publish(&mut self.seat, a);
        }
    }

    /// Makes a cell black before its slots move or go: the targets of its slots are shaded, unless it was black.
    #[inline(always)]
    pub fn blacken(&mut self, cell: u32)
        requires may_store { MayPut self.old cell (event.Blacken cell) }
        requires within { cell < marks_start self.old.seat.space }
        ensures blackened { self.new ≡ with_blackened self.old cell }
        ensures same { (self.old.seat.phase ≡ Mark → ⊥) → self.new ≡ self.old }
    {
        if self.remembered.covers(cell) {
            self.blacken_in_page(cell);
        }
    }

    /// The same of a cell of a page.
    #[inline(always)]
    fn blacken_in_page(&mut self, cell: u32)
        requires may_store { MayPut self.old cell (event.Blacken cell) }
        requires of_page { cell < self.old.recorded.bound }
        ensures { let next = blackened self.old cell in
            self.new ≡ record self.old { cycle = while_open self.old.seat.phase self.old.cycle next } }
    {
        self.seat.layouts_fit();
        if self.seat.is_shared() {
            self.blacken_for_helpers(cell);
        }
    }

    /// The same where there is a shared table.
    #[cold]
    #[inline(never)]
    fn blacken_for_helpers(&mut self, cell: u32)
        requires may_store { MayPut self.old cell (event.Blacken cell) }
        requires of_page { cell < self.old.recorded.bound }
        ensures { let next = blackened self.old cell in
            self.new ≡ record self.old { cycle = while_open self.old.seat.phase self.old.cycle next } }
    {
        self.seat.layouts_fit();
        self.addresses_fit();
        if self.seat.phase() == Phase::Mark {
            let Some(grey) = &mut self.grey else {
                unreachable!()
            };
            grey.blacken(&mut self.seat, cell);
        }
    }

    /// Shades a born cell of a page in an open cycle, for the root that refers to it.
    pub fn shade(&mut self, at: u32)
        requires mark { self.old.seat.phase ≡ Mark }
        requires born { Contains self.old.cycle.born at }
        ensures { self.new ≡ record self.old { cycle = sure_of self.old.cycle at } }
    {
        self.seat.layouts_fit();
        let Some(grey) = &mut self.grey else {
            unreachable!()
        };
        grey.shade(&mut self.seat, at);
    }

    /// Takes the cell at a place of the board, if there is one. It waits with the mutator then.
    pub fn take_board(&mut self, place: u32)
        requires mark { self.old.seat.phase ≡ Mark }
        requires within { place < board_words }
        ensures { self.new ≡ self.old }
    {
        self.seat.layouts_fit();
        let Some(grey) = &mut self.grey else {
            unreachable!()
        };
        grey.take(&mut self.seat, place);
    }
}
