//! The main seat's gifts to the board.
ghost use Rattle.std.specs.Prelude.{◌≡◌, true, slice_index};
ghost use Rattle.mark_world.specs.declared.event.Event.TheVariants as event;
ghost use Rattle.shared_table.specs.declared.phase.Phase.TheVariants.{Mark};
ghost use Rattle.heap_table.specs.Overviews.{MayStep, overview, stepped};

use crate::main_seat::MainSeat;

impl MainSeat {
    /// Gives a cell that waits with it to a place of the board where nothing is, and returns the word that was found
    /// there.
    pub fn give_board(&mut self, place: u32, at: u32) -> u64
        requires mark { self.old.phase ≡ Mark }
        requires may { MayStep self.old (event.GiveMain place at) }
        ensures given { self.new ≡ stepped self.old (event.GiveMain place at) result }
        ensures home { (overview self.old).home ≡ true
            → result ≡ slice_index (overview self.old).board place }
    {
        let Some(side) = &mut self.shared else {
            unreachable!()
        };
        side.give_board(place, at)
    }
}
