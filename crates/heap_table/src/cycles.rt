//! Opening and closing cycles of marking, and what happens while one waits.
ghost use Rattle.std.specs.Prelude.{◌≡◌, ◌<◌, true, IsTrue, is_some};
ghost use Rattle.page_space.specs.Extents.{eden_start};
ghost use Rattle.core_parts.specs.Boards.{empty_board};
ghost use Rattle.mark_laws.specs.Runs.{IsSoundAndBorn};
ghost use Rattle.mark_laws.specs.Types.{Spot};
ghost use Rattle.mark_world.specs.BetweenCommands.{Fresh};
ghost use Rattle.mark_world.specs.Cycles.{Cycle};
ghost use Rattle.mark_world.specs.Steps.{black};
ghost use Rattle.shared_table.specs.declared.phase.Phase.TheVariants.{Quiet, Mark, Paused};
ghost use Rattle.shared_table.specs.Changes.{IsContinued, opened, resumed, paused, closed, whitened};
ghost use Rattle.shared_table.specs.Spots.{with_spot};
ghost use Rattle.shared_table.specs.Worlds.{world_at_home};
ghost use Rattle.heap_table.specs.Overviews.{overview, knowing};
ghost use Rattle.heap_table.specs.Seats.{own_in};

use crate::main_seat::MainSeat;
use shared_table::Choice;

impl MainSeat {
    /// Opens a cycle, one that the caller's predicate allows for the own words, how many objects were made, and what
    /// the seat knew. Nothing is copied.
    pub fn open_cycle<M: Choice>(&mut self, made: u32)
        requires shared { IsTrue (is_some self.old.shared) }
        requires quiet { self.old.phase ≡ Quiet }
        requires home { (overview self.old).home ≡ true }
        requires chosen { (cycle : Cycle) × M.fits (own_in self.old) made (overview self.old) cycle
            × Fresh (world_at_home (opened (overview self.old) cycle)) }
        ensures opened { (cycle : Cycle) × M.fits (own_in self.old) made (overview self.old) cycle
            × Fresh (world_at_home (opened (overview self.old) cycle))
            × (self.new ≡ knowing self.old self.old.table (opened (overview self.old) cycle)) }
    {
        let Some(side) = &mut self.shared else {
            unreachable!()
        };
        side.open_cycle::<M>(&self.own, made);
    }

    /// Closes a cycle once no cell is on the board. The colours stay. It says that the world was sound.
    pub fn close_cycle(&mut self)
        requires mark { self.old.phase ≡ Mark }
        requires home { (overview self.old).home ≡ true }
        requires board { (overview self.old).board ≡ empty_board }
        ensures closed { self.new ≡ knowing self.old self.old.table (closed (overview self.old)) }
        ensures whole { IsSoundAndBorn (world_at_home (overview self.old)) }
    {
        let Some(side) = &mut self.shared else {
            unreachable!()
        };
        side.close_cycle();
    }

    /// Makes all cells white while no cycle is open.
    pub fn whiten(&mut self)
        requires shared { IsTrue (is_some self.old.shared) }
        requires quiet { self.old.phase ≡ Quiet }
        requires home { (overview self.old).home ≡ true }
        ensures whitened { self.new ≡ knowing self.old self.old.table (whitened (overview self.old)) }
    {
        let Some(side) = &mut self.shared else {
            unreachable!()
        };
        side.whiten();
    }

    /// Closes a cycle, and makes all cells white.
    pub fn drop_cycle(&mut self)
        requires mark { self.old.phase ≡ Mark }
        requires home { (overview self.old).home ≡ true }
        requires board { (overview self.old).board ≡ empty_board }
        ensures dropped { self.new ≡ knowing self.old self.old.table (whitened (closed (overview self.old))) }
    {
        let Some(side) = &mut self.shared else {
            unreachable!()
        };
        side.drop_cycle();
    }

    /// Lets a cycle wait while the young generation is copied. It says that the world was sound.
    pub fn pause_cycle(&mut self)
        requires mark { self.old.phase ≡ Mark }
        requires home { (overview self.old).home ≡ true }
        ensures paused { self.new ≡ knowing self.old self.old.table (paused (overview self.old)) }
        ensures whole { IsSoundAndBorn (world_at_home (overview self.old)) }
    {
        let Some(side) = &mut self.shared else {
            unreachable!()
        };
        side.pause_cycle();
    }

    /// Makes a cell of a page black while a cycle waits.
    pub fn put_black(&mut self, a: u32)
        requires paused { self.old.phase ≡ Paused }
        requires within { a < eden_start self.old.space }
        ensures put { let main = with_spot (overview self.old) (Spot.Colour a) black in
            self.new ≡ knowing self.old self.old.table main }
    {
        let Some(side) = &mut self.shared else {
            unreachable!()
        };
        side.put_black(a);
    }

    /// Goes on with a cycle that waited, as one that the caller's predicate allows for the own words, how many objects
    /// were made, and what the seat knew. Its lists are those of the cycle that waited, with promoted cells joined.
    /// What was found at the opening stays.
    pub fn resume_cycle<M: Choice>(&mut self, made: u32)
        requires paused { self.old.phase ≡ Paused }
        requires home { (overview self.old).home ≡ true }
        requires chosen { (cycle : Cycle) × M.fits (own_in self.old) made (overview self.old) cycle
            × IsContinued (overview self.old) cycle
            × IsSoundAndBorn (world_at_home (resumed (overview self.old) cycle)) }
        ensures resumed { (cycle : Cycle) × M.fits (own_in self.old) made (overview self.old) cycle
            × IsContinued (overview self.old) cycle
            × IsSoundAndBorn (world_at_home (resumed (overview self.old) cycle))
            × (self.new ≡ knowing self.old self.old.table (resumed (overview self.old) cycle)) }
    {
        let Some(side) = &mut self.shared else {
            unreachable!()
        };
        side.resume_cycle::<M>(&self.own, made);
    }
}
