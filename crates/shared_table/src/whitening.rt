//! All cells become white again.
ghost use Rattle.std.specs.Prelude.{◌≡◌, ◌<◌, true};
ghost use Rattle.mark_laws.specs.Types.{Spot};
ghost use Rattle.mark_world.specs.Steps.{white};
ghost use Rattle.shared_table.specs.declared.phase.Phase.TheVariants.{Quiet};
ghost use Rattle.shared_table.specs.Changes.{whitened};
ghost use Rattle.shared_table.specs.Spots.{with_spot};

use crate::main_side::MainSide;
use crate::plays::PutsColour;

impl MainSide {
    /// Makes all cells white while no cycle is open.
    pub fn whiten(&mut self)
        requires quiet { self.old.main.phase ≡ Quiet }
        requires home { self.old.main.home ≡ true }
        ensures whitened { self.new ≡ record self.old { main = whitened self.old.main } }
    {
        // There is a colour for each word of the pages.
        let counts = self.counts();
        for a in 0..counts.old {
            self.put_white(a);
        }
    }

    /// Makes one cell white.
    #[inline(always)]
    fn put_white(&mut self, a: u32)
        requires quiet { self.old.main.phase ≡ Quiet }
        requires within { a < self.old.main.old }
        ensures { self.new ≡ record self.old { main = with_spot self.old.main (Spot.Colour a) white } }
    {
        let place = self.counts.colour_place(a);
        self.shared
            .table
            .shared
            .store::<PutsColour>(&mut self.seat, place, 0);
    }
}
