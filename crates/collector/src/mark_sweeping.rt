//! What is live is marked, dead entries are cleared, and what is not marked is made free.
ghost use Rattle.std.specs.Prelude.{◌≡◌, ℕ, List, length};
ghost use Rattle.page_space.specs.Extents.{roots_start};
ghost use Rattle.object_graph.specs.Graphs.{Graph};
ghost use Rattle.live_cells.specs.Live.{AreLive};
ghost use Rattle.write_barrier.specs.MutatorState.{MayStore, MainShows, heap_of};
ghost use Rattle.collector.specs.MarkSwept.{IsMarkedFrom, MarkSweeps, SweepsMarked, Ungrants};

use ephemeron_clear::clear;
use ephemeron_mark::{Marking, mark_live};
use page_space::Run;
use sweeper::sweep;
use write_barrier::Main;

/// Grants nothing any more. What was granted are fillers of a page, which stay.
fn ungrant(main: &mut Main)
    requires quiet { MayStore main.old }
    requires tied { main.old.young.space ≡ main.old.seat.space }
    ensures { Ungrants main.old main.new }
{
    main.grant(Run { at: 0, words: 0 });
}

/// Keeps what is marked and makes all else free: it takes out the pairs of weak maps whose keys are not
/// marked, and sweeps. Only the mutator runs. The marking may have begun at any cells, besides those that
/// variables refer to. What was granted is granted no more: its words are fillers of a page, which the sweep
/// makes free. Where just the live cells are marked, nothing else is kept.
pub(crate) fn sweep_marked(main: &mut Main, marking: &Marking)
    requires quiet { MayStore main.old }
    requires shown { (graph : Graph) × MainShows main.old graph }
    requires rows { length main.old.free ≡ main.old.seat.space.sizes.pages }
    requires bound { marking.now.bound ≡ roots_start main.old.seat.space }
    requires marked { (given : List ℕ) × IsMarkedFrom (heap_of main.old) given marking.now }
    ensures swept { (graph : Graph) → MainShows main.old graph →
        SweepsMarked main.old main.new marking.now.cells graph }
    ensures exact { (graph : Graph) → MainShows main.old graph →
        AreLive (heap_of main.old) marking.now.cells → MarkSweeps main.old main.new graph }
{
    ungrant(main);
    // The sizes are within their limits.
    main.addresses_fit();
    let marked = marking.cells();
    clear(main, marking.maps(), marked);
    sweep(main, marked);
}

/// Keeps what is live and makes all else free: it marks the live cells, takes out the pairs of weak maps
/// whose keys are dead, and sweeps. Only the mutator runs. What was granted is granted no more: its words
/// are fillers of a page, which the sweep makes free.
pub(crate) fn mark_sweep(main: &mut Main, marking: &mut Marking)
    requires quiet { MayStore main.old }
    requires shown { (graph : Graph) × MainShows main.old graph }
    requires rows { length main.old.free ≡ main.old.seat.space.sizes.pages }
    requires bound { marking.old.bound ≡ roots_start main.old.seat.space }
    ensures collected { (graph : Graph) → MainShows main.old graph → MarkSweeps main.old main.new graph }
    ensures bound { marking.new.bound ≡ marking.old.bound }
{
    mark_live(main, marking);
    sweep_marked(main, marking);
}
