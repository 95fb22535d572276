//! A cycle is opened with what can be reached, and its roots are shaded.
ghost use Rattle.std.specs.Prelude.{◌≡◌, length, true, IsSome};
ghost use Rattle.object_graph.specs.Graphs.{Graph};
ghost use Rattle.heap_table.specs.Phases.{Quiet};
ghost use Rattle.write_barrier.specs.Cycles.{HasOpened};
ghost use Rattle.write_barrier.specs.MutatorState.{MainShows};
ghost use Rattle.cycle_opening.specs.Opened.{HasNoYoung, OpensCycle, OpensEach, ShowsMade};

use crate::shading::shade_roots;
use shared_table::Choice;
use write_barrier::Main;

/// The cycle that opens for each graph that the words show.
struct Shown;

impl Choice for Shown {
    ghost use Rattle.cycle_opening.specs.Opened.{OpensEach};

    ghost fits = { OpensEach };
}

/// Opens a cycle with what can be reached.
fn begin(main: &mut Main, made: u32)
    requires shown { ShowsMade main.old made }
    requires shared { IsSome main.old.seat.shared }
    requires quiet { main.old.seat.phase ≡ Quiet }
    requires empty { HasNoYoung main.old }
    ensures opened { HasOpened OpensEach main.old main.new made }
    ensures home { main.new.seat.home ≡ true }
    ensures out { main.new.seat.out ≡ 0 }
{
    main.addresses_fit();
    main.open_cycle::<Shown>(made);
}

/// Opens a cycle on a heap that shows a graph of so many objects and has no young cell. Published and born is what can
/// be reached. Each cell of a page that a variable refers to is shaded. The heap shows the graph, and nothing of the
/// mutator changes but the phase and what is known of the cycle. No seat is out.
pub fn open_cycle(main: &mut Main, made: u32)
    requires shown { ShowsMade main.old made }
    requires shared { IsSome main.old.seat.shared }
    requires quiet { main.old.seat.phase ≡ Quiet }
    requires empty { HasNoYoung main.old }
    ensures opens { (graph : Graph) → MainShows main.old graph → length graph.objects ≡ made →
        OpensCycle main.old main.new graph }
    ensures home { main.new.seat.home ≡ true }
    ensures out { main.new.seat.out ≡ 0 }
{
    begin(main, made);
    shade_roots(main);
    // The mutator's view of the shaded cycle is as in a sound world.
    main.sound();
}
