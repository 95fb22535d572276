//! The main seat's gifts to the board.
ghost use Rattle.std.specs.Prelude.{◌≡◌, true, slice_index, Contains, IfSome};
ghost use Rattle.tagged_word.specs.Readings.{reference_in};
ghost use Rattle.mark_world.specs.declared.event.Event.TheVariants as event;
ghost use Rattle.shared_table.specs.declared.phase.Phase.TheVariants.{Mark};
ghost use Rattle.shared_table.specs.Changes.{MayDo, told};

use crate::main_side::MainSide;
use crate::plays::PutsCell;
use tagged_word::Word;

impl MainSide {
    /// Gives a cell that waits with it to a place of the board where nothing is, and returns the word that was found
    /// there.
    pub fn give_board(&mut self, place: u32, at: u32) -> u64
        requires mark { self.old.main.phase ≡ Mark }
        requires may { MayDo self.old.main (event.GiveMain place at) }
        ensures given { self.new ≡ record self.old { main = told self.old.main (event.GiveMain place at) result } }
        ensures home { self.old.main.home ≡ true → result ≡ slice_index self.old.main.board place }
        ensures born { IfSome (reference_in result) (λ other. Contains self.old.main.view.born other) }
    {
        let place = self.counts.board_place(place);
        self.shared
            .table
            .shared
            .compare_exchange::<PutsCell>(&mut self.seat, place, 0, Word::reference(at).0)
    }
}
