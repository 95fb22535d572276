//! Cells that go from the lists to the board, and from the board to the list.
ghost use Rattle.std.specs.Prelude.{◌≡◌, ◌≢◌, ◌<◌, ◌↔◌, ℕ, [], Contains, IsTrue, IfNone, IfSome, MatchOption};
ghost use Rattle.page_space.specs.Extents.{board_words, eden_start};
ghost use Rattle.cell_list.specs.Listing.{pushed};
ghost use Rattle.shared_table.specs.declared.phase.Phase.TheVariants.{Mark};
ghost use Rattle.heap_table.specs.Overviews.{cycle_in, overview};
ghost use Rattle.mark_barrier.specs.Paid.{FindsLast, FindsNone, Gives, IsGivenTo, IsPaid, ListsAllBut, MovesTo};
ghost use Rattle.mark_barrier.specs.Paid.{IsNotBlack, PassedAreBlack, StepsTo, Takes};
ghost use Rattle.mark_barrier.specs.Waiting.{IsOn};

use crate::grey_cells::GreyCells;
use heap_table::{Colour, MainSeat};
use tagged_word::Word;

impl GreyCells {
    /// Takes the cell at a place of the board, if there is one. It waits with the mutator then.
    pub fn take(&mut self, seat: &mut MainSeat, place: u32)
        requires mark { seat.old.phase ≡ Mark }
        requires paid { IsPaid seat.old self.old }
        requires within { place < board_words }
        ensures paid { IsPaid seat.new self.new }
        ensures passed { self.new.passed ≡ self.old.passed }
        ensures steps { StepsTo seat.old seat.new seat.old.table (cycle_in seat.old) }
        ensures takes { Takes seat.old seat.new place }
    {
        // The cell is born, and so of a page.
        seat.sound();
        if let Some(at) = Word(seat.take_board(place)).address() {
            self.list.add(at);
        }
    }

    /// Gives the cell that was listed last, of those that are not passed over, to a place of the board, if no cell
    /// stands there. Else it stays listed. Black ones are passed over.
    pub fn give(&mut self, seat: &mut MainSeat, place: u32)
        requires mark { seat.old.phase ≡ Mark }
        requires paid { IsPaid seat.old self.old }
        requires within { place < board_words }
        ensures paid { IsPaid seat.new self.new }
        ensures moves { MovesTo seat.old seat.new seat.old.table (cycle_in seat.old) }
        ensures gives { Gives seat.old seat.new self.old self.new place }
    {
        seat.colours_fit();
        if let Some(at) = self.last_not_black(seat) {
            self.give_cell(seat, place, at);
        }
    }

    /// Takes the cell off the list that was listed last, of those that are not passed over: it waits. Black ones that
    /// were listed after it are passed over. None where each listed one is.
    fn last_not_black(&mut self, seat: &mut MainSeat) -> Option<u32>
        requires mark { seat.old.phase ≡ Mark }
        requires paid { IsPaid seat.old self.old }
        ensures same { seat.new ≡ seat.old }
        ensures found { let finds = FindsLast seat.old self.old self.new in
            MatchOption result (FindsNone seat.old self.old self.new) finds }
    {
        while let Some(at) = self.pop_listed() {
            if !self.passes(seat, at) {
                return Some(at);
            }
        }
        None
    }

    /// Takes the cell off the list that was listed last.
    fn pop_listed(&mut self) -> Option<u32>
        ensures last { MatchOption result
            (self.old.list.addresses ≡ []) (λ at. self.old.list ≡ pushed self.new.list at) }
        ensures below { IfSome result (λ at. at < self.old.list.bound) }
        ensures gone { IfSome result (λ at. ¬ Contains self.new.list.addresses at) }
        ensures bound { self.new.list.bound ≡ self.old.list.bound }
        ensures passed { self.new.passed ≡ self.old.passed }
        ensures unchanged { IfNone result (self.new ≡ self.old) }
    {
        self.list.pop()
    }

    /// Passes a cell over if it is black, and answers whether it is among those that are passed over.
    fn passes(&mut self, seat: &mut MainSeat, at: u32) -> bool
        requires mark { seat.old.phase ≡ Mark }
        requires within { at < eden_start seat.old.space }
        requires room { self.old.passed.bound ≡ eden_start seat.old.space }
        requires black { PassedAreBlack seat.old self.old }
        ensures same { seat.new ≡ seat.old }
        ensures list { self.new.list ≡ self.old.list }
        ensures bound { self.new.passed.bound ≡ self.old.passed.bound }
        ensures told { IsTrue result ↔ Contains self.new.passed.addresses at }
        ensures mine { Contains (overview seat.old).view.mine at → IsTrue result }
        ensures black { PassedAreBlack seat.old self.new }
        ensures not_black { ¬ IsTrue result → IsNotBlack seat.old at }
        ensures others { (one : ℕ) → one ≢ at
            → Contains self.new.passed.addresses one ↔ Contains self.old.passed.addresses one }
        ensures kept { Contains self.old.passed.addresses at → IsTrue result }
    {
        seat.colours_fit();
        match seat.colour(at) {
            Colour::Black => {
                self.passed.add(at);
                true
            }
            // It may have been passed over before, and been listed again.
            _ => self.passed.contains(at),
        }
    }

    /// Gives a cell to a place of the board that was taken off the list. It is listed again where a cell stands there.
    fn give_cell(&mut self, seat: &mut MainSeat, place: u32, at: u32)
        requires mark { seat.old.phase ≡ Mark }
        requires lists { ListsAllBut seat.old self.old at }
        requires owed { (overview seat.old).view.owed ≡ [] }
        requires waits { Contains (overview seat.old).view.grey at }
        requires off { IsOn self.old at → ⊥ }
        requires born { Contains (overview seat.old).view.born at }
        requires below { at < eden_start seat.old.space }
        requires within { place < board_words }
        ensures paid { IsPaid seat.new self.new }
        ensures moves { MovesTo seat.old seat.new seat.old.table (cycle_in seat.old) }
        ensures given { IsGivenTo seat.old seat.new place at }
        ensures passed { self.new.passed ≡ self.old.passed }
    {
        if seat.give_board(place, at) != 0 {
            self.list.add(at);
        }
    }
}
