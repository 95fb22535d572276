//! Cycles of marking: how one is opened, visited, ended, and what is known of its world. While the young generation is
//! copied the cycle waits.
ghost use Rattle.std.specs.Prelude.{◌≡◌, ◌<◌, ℕ, List, IsSome, IsSomeAnd, Some, None, slice_index, true};
ghost use Rattle.page_space.specs.Extents.{eden_start};
ghost use Rattle.mark_laws.specs.Runs.{IsSoundAndBorn};
ghost use Rattle.mark_world.specs.Cycles.{Cycle};
ghost use Rattle.shared_table.specs.declared.overview.Overview.{Overview};
ghost use Rattle.shared_table.specs.Colours.{number_of};
ghost use Rattle.heap_table.specs.Overviews.{unopened};
ghost use Rattle.heap_table.specs.Phases.{Mark, Paused, Quiet};
ghost use Rattle.write_barrier.specs.Cycles.{HasSoundView, HasWholeWorld, IsQuietOverview, MayOpenWith};
ghost use Rattle.write_barrier.specs.Cycles.{HasOpened, ScansOn, in_cycle};
ghost use Rattle.write_barrier.specs.Layouts.{HasLayouts};
ghost use Rattle.write_barrier.specs.Pauses.{HasPaused, HasResumed, IsItself, MayResume, with_black_mark, with_marks};
ghost use Rattle.write_barrier.specs.Pauses.{world_with};
ghost use Rattle.write_barrier.specs.Seats.{Marks};

use crate::main_side::Main;
use heap_table::{Choice, Colour};

/// The cycle that waited, with no cell promoted meanwhile.
pub(crate) struct Itself;

impl Choice for Itself {
    ghost use Rattle.write_barrier.specs.Pauses.{IsItself};

    ghost fits = { IsItself };
}

impl Main {
    /// Opens a cycle, one that the caller's predicate allows for the words, how many objects were made, and what the
    /// main seat knew. It copies nothing. No seat is out.
    pub fn open_cycle<M: Choice>(&mut self, made: u32)
        requires shared { IsSome self.old.seat.shared }
        requires quiet { self.old.seat.phase ≡ Quiet }
        requires layouts { HasLayouts self.old }
        requires chosen { (any : Overview) → IsQuietOverview self.old any
            → (cycle : Cycle) × MayOpenWith M.fits self.old made any cycle }
        ensures opened { HasOpened M.fits self.old self.new made }
        ensures home { self.new.seat.home ≡ true }
        ensures out { self.new.seat.out ≡ 0 }
    {
        self.seat.layouts_fit();
        self.addresses_fit();
        self.seat.open_cycle::<M>(made);
    }

    /// Lets the cycle wait while the young generation is copied. Its marks are told, and the world that the heap's
    /// pages are by them is whole. No seat is out.
    pub fn pause_cycle(&mut self)
        requires mark { self.old.seat.phase ≡ Mark }
        requires home { self.old.seat.home ≡ true }
        requires layouts { HasLayouts self.old }
        ensures paused { HasPaused self.old self.new }
    {
        self.seat.layouts_fit();
        self.addresses_fit();
        self.seat.pause_cycle();
    }

    /// The colour of a cell of a page while a cycle waits.
    pub fn colour(&mut self, at: u32) -> Colour
        requires paused { self.old.seat.phase ≡ Paused }
        requires within { at < eden_start self.old.seat.space }
        ensures same { self.new ≡ self.old }
        ensures told { IsSomeAnd self.old.seat.marks (λ marks. number_of result ≡ slice_index marks.colours at) }
    {
        self.seat.colour(at)
    }

    /// Makes a cell of a page black while a cycle waits. No other mark changes.
    pub fn put_black(&mut self, at: u32)
        requires paused { self.old.seat.phase ≡ Paused }
        requires within { at < eden_start self.old.seat.space }
        ensures put { self.new ≡ with_black_mark self.old at }
    {
        self.seat.put_black(at);
    }

    /// Goes on with a cycle that waited, as one that the caller's predicate allows for the words, how many objects were
    /// made, and what the main seat knows. The mutator may not be sure of what promoted cells refer to: the caller
    /// shades that before the heap rests.
    pub fn resume_cycle<M: Choice>(&mut self, made: u32)
        requires paused { self.old.seat.phase ≡ Paused }
        requires layouts { HasLayouts self.old }
        requires chosen { (marks : Marks) → self.old.seat.marks ≡ Some marks
            → (cycle : Cycle) × MayResume M.fits self.old made marks cycle }
        ensures resumed { HasResumed M.fits self.old self.new made }
        ensures home { self.new.seat.home ≡ true }
        ensures out { self.new.seat.out ≡ 0 }
    {
        self.seat.layouts_fit();
        self.addresses_fit();
        self.seat.resume_cycle::<M>(made);
    }

    /// Ends a cycle that waits, where the world is sound as it is: it goes on, and is closed. All cells are white.
    pub fn end_cycle(&mut self)
        requires paused { self.old.seat.phase ≡ Paused }
        requires layouts { HasLayouts self.old }
        requires sound { (marks : Marks) → self.old.seat.marks ≡ Some marks
            → IsSoundAndBorn (world_with self.old marks) }
        ensures ended { self.new ≡ with_marks self.old Quiet unopened None }
    {
        self.resume_cycle::<Itself>(0);
        self.drop_cycle();
    }

    /// Closes the cycle before its marking has ended: what waits is forgotten, and all cells are white. One that waits
    /// is closed by `end_cycle`.
    pub fn drop_cycle(&mut self)
        requires mark { self.old.seat.phase ≡ Mark }
        requires home { self.old.seat.home ≡ true }
        ensures dropped { self.new ≡ in_cycle self.old Quiet unopened }
    {
        self.seat.layouts_fit();
        let Some(grey) = &mut self.grey else {
            unreachable!()
        };
        grey.drop_cycle(&mut self.seat);
    }

    /// Visits the cells that wait, and those that are found by it, until none waits. Each is made black.
    pub fn scan(&mut self)
        requires mark { self.old.seat.phase ≡ Mark }
        requires home { self.old.seat.home ≡ true }
        requires layouts { HasLayouts self.old }
        ensures scans { ScansOn self.old self.new }
    {
        self.seat.layouts_fit();
        self.addresses_fit();
        let Some(grey) = &mut self.grey else {
            unreachable!()
        };
        grey.scan(&mut self.seat);
    }

    /// The mutator's view of the heap's pages is as in a sound world. The call says so, by one load, and does nothing
    /// else.
    pub fn sound(&mut self)
        requires mark { self.old.seat.phase ≡ Mark }
        requires layouts { HasLayouts self.old }
        ensures same { self.new ≡ self.old }
        ensures sound { HasSoundView self.old }
    {
        self.seat.layouts_fit();
        self.addresses_fit();
        self.seat.sound();
    }

    /// With no seat out the heap's pages are a sound world of the cycle. The call says so, by one load, and does
    /// nothing else.
    pub fn whole_world(&mut self)
        requires mark { self.old.seat.phase ≡ Mark }
        requires home { self.old.seat.home ≡ true }
        requires layouts { HasLayouts self.old }
        ensures same { self.new ≡ self.old }
        ensures whole { HasWholeWorld self.old }
    {
        self.seat.layouts_fit();
        self.addresses_fit();
        self.seat.whole();
    }
}
