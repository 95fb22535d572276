//! A cycle is closed before its marking has ended.
ghost use Rattle.std.specs.Prelude.{◌≡◌, true};
ghost use Rattle.object_graph.specs.Graphs.{Graph};
ghost use Rattle.heap_table.specs.Overviews.{unopened};
ghost use Rattle.heap_table.specs.Phases.{Mark, Quiet};
ghost use Rattle.write_barrier.specs.Cycles.{in_cycle};
ghost use Rattle.write_barrier.specs.MutatorState.{MainShows};

use write_barrier::Main;

/// Closes the open cycle: what waits is forgotten, and all cells are white. The heap shows what it showed. No seat is
/// out.
pub fn drop_cycle(main: &mut Main)
    requires mark { main.old.seat.phase ≡ Mark }
    requires home { main.old.seat.home ≡ true }
    ensures dropped { main.new ≡ in_cycle main.old Quiet unopened }
    ensures shows { (graph : Graph) → MainShows main.old graph → MainShows main.new graph }
{
    main.drop_cycle();
}
