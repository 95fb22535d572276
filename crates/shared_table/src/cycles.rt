//! Opening and closing cycles, and what happens while one waits.
ghost use Rattle.std.specs.Prelude.{◌≡◌, ◌<◌, true};
ghost use Rattle.core_parts.specs.Boards.{empty_board};
ghost use Rattle.mark_laws.specs.Runs.{IsSoundAndBorn};
ghost use Rattle.mark_laws.specs.Types.{Spot};
ghost use Rattle.mark_world.specs.BetweenCommands.{Fresh};
ghost use Rattle.mark_world.specs.Cycles.{Cycle};
ghost use Rattle.mark_world.specs.Steps.{black};
ghost use Rattle.shared_table.specs.declared.phase.Phase.TheVariants.{Quiet, Mark, Paused};
ghost use Rattle.shared_table.specs.Changes.{IsContinued, opened, resumed, paused, closed, whitened};
ghost use Rattle.shared_table.specs.Spots.{with_spot};
ghost use Rattle.shared_table.specs.Worlds.{world_at_home};

use crate::main_side::MainSide;
use crate::own_words::OwnWords;
use crate::phase::Phase;
use crate::plays::{Choice, Closes, Opens, Pauses, PutsColour, Resumes};

impl MainSide {
    /// Opens a cycle, one that the caller's predicate allows for the own words, how many objects were made, and what
    /// the seat knew. Nothing is copied.
    pub fn open_cycle<M: Choice>(&mut self, own: &OwnWords, made: u32)
        requires quiet { self.old.main.phase ≡ Quiet }
        requires home { self.old.main.home ≡ true }
        requires chosen { (cycle : Cycle) × M.fits own.now made self.old.main cycle
            × Fresh (world_at_home (opened self.old.main cycle)) }
        ensures opened { (cycle : Cycle) × M.fits own.now made self.old.main cycle
            × Fresh (world_at_home (opened self.old.main cycle))
            × (self.new ≡ record self.old { main = opened self.old.main cycle }) }
    {
        self.shared
            .table
            .shared
            .compare_exchange_with::<Opens<M>>(&mut self.seat, 0, made as u64, made as u64, own);
        self.phase = Phase::Mark;
    }

    /// Closes a cycle once no cell is on the board. The colours stay. It says that the world was sound.
    pub fn close_cycle(&mut self)
        requires mark { self.old.main.phase ≡ Mark }
        requires home { self.old.main.home ≡ true }
        requires board { self.old.main.board ≡ empty_board }
        ensures closed { self.new ≡ record self.old { main = closed self.old.main } }
        ensures whole { IsSoundAndBorn (world_at_home self.old.main) }
    {
        self.shared.table.shared.load::<Closes>(&mut self.seat, 0);
        self.phase = Phase::Quiet;
    }

    /// Closes a cycle, and makes all cells white.
    pub fn drop_cycle(&mut self)
        requires mark { self.old.main.phase ≡ Mark }
        requires home { self.old.main.home ≡ true }
        requires board { self.old.main.board ≡ empty_board }
        ensures dropped { self.new ≡ record self.old { main = whitened (closed self.old.main) } }
    {
        self.close_cycle();
        self.whiten();
    }

    /// Lets a cycle wait while the young generation is copied. It says that the world was sound.
    pub fn pause_cycle(&mut self)
        requires mark { self.old.main.phase ≡ Mark }
        requires home { self.old.main.home ≡ true }
        ensures paused { self.new ≡ record self.old { main = paused self.old.main } }
        ensures whole { IsSoundAndBorn (world_at_home self.old.main) }
    {
        self.shared.table.shared.load::<Pauses>(&mut self.seat, 0);
        self.phase = Phase::Paused;
    }

    /// Makes a cell of a page black while a cycle waits.
    pub fn put_black(&mut self, a: u32)
        requires paused { self.old.main.phase ≡ Paused }
        requires within { a < self.old.main.old }
        ensures put { self.new ≡ record self.old { main = with_spot self.old.main (Spot.Colour a) black } }
    {
        let place = self.counts.colour_place(a);
        self.shared
            .table
            .shared
            .store::<PutsColour>(&mut self.seat, place, 2);
    }

    /// Goes on with a cycle that waited, as one that the caller's predicate allows for the own words, how many objects
    /// were made, and what the seat knew. Its lists are those of the cycle that waited, with promoted cells joined.
    /// What was found at the opening stays.
    pub fn resume_cycle<M: Choice>(&mut self, own: &OwnWords, made: u32)
        requires paused { self.old.main.phase ≡ Paused }
        requires home { self.old.main.home ≡ true }
        requires chosen { (cycle : Cycle) × M.fits own.now made self.old.main cycle
            × IsContinued self.old.main cycle
            × IsSoundAndBorn (world_at_home (resumed self.old.main cycle)) }
        ensures resumed { (cycle : Cycle) × M.fits own.now made self.old.main cycle
            × IsContinued self.old.main cycle
            × IsSoundAndBorn (world_at_home (resumed self.old.main cycle))
            × (self.new ≡ record self.old { main = resumed self.old.main cycle }) }
    {
        self.shared
            .table
            .shared
            .compare_exchange_with::<Resumes<M>>(&mut self.seat, 0, made as u64, made as u64, own);
        self.phase = Phase::Mark;
    }
}
