//! Emptying what a scavenge leaves: where no cell is to stand, the first word is 0.
ghost use Rattle.std.specs.Prelude.{◌≡◌, ◌≤◌};
ghost use Rattle.page_space.specs.Extents.{marks_start};
ghost use Rattle.write_barrier.specs.Seats.{heap_words};
ghost use Rattle.write_barrier.specs.MutatorState.{MayStore};
ghost use Rattle.scavenger.specs.Filling.{ChangesWords, IsEmptied};
ghost use Rattle.scavenger.specs.Walking.{EndsCopies, EmptiesSegments};

use page_space::Region;
use write_barrier::Main;

/// Puts a 0 behind the copies, where the room has a word more.
fn end_copies(main: &mut Main, fill: u32, end: u32)
    requires quiet { MayStore main.old }
    requires within { end ≤ marks_start main.old.seat.space }
    ensures ends { EndsCopies (heap_words main.old.seat) (heap_words main.new.seat) fill end }
    ensures changes { ChangesWords main.old main.new }
    ensures free { main.new.free ≡ main.old.free }
    ensures recorded { main.old.recorded.bound ≤ fill → main.new.recorded ≡ main.old.recorded }
{
    // There is a word for each address before the marks.
    main.addresses_fit();
    if fill < end {
        main.write(fill, 0);
    }
}

/// Makes the first word of each segment of a half 0.
fn empty_segments(main: &mut Main, half: u32)
    requires quiet { MayStore main.old }
    requires half { half ≤ 1 }
    ensures empties { let space = main.old.seat.space in
        EmptiesSegments space half (heap_words main.old.seat) (heap_words main.new.seat) }
    ensures changes { ChangesWords main.old main.new }
    ensures free { main.new.free ≡ main.old.free }
    ensures recorded { main.new.recorded ≡ main.old.recorded }
{
    // Segments stand behind the pages, and what is recorded is of pages.
    main.addresses_fit();
    let regions = main.regions();
    for worker in 0..regions.sizes().helpers + 1 {
        main.write(regions.start(Region::Segment { half, worker }), 0);
    }
}

/// Empties a half that is left, and the room behind the copies.
pub(crate) fn empty_left(main: &mut Main, half: u32, fill: u32, end: u32)
    requires quiet { MayStore main.old }
    requires half { half ≤ 1 }
    requires within { end ≤ marks_start main.old.seat.space }
    ensures emptied { let space = main.old.seat.space in
        IsEmptied space half fill end (heap_words main.old.seat) (heap_words main.new.seat) }
    ensures changes { ChangesWords main.old main.new }
    ensures free { main.new.free ≡ main.old.free }
    ensures recorded { main.old.recorded.bound ≤ fill → main.new.recorded ≡ main.old.recorded }
{
    end_copies(main, fill, end);
    empty_segments(main, half);
}
