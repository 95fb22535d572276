//! The sweep of all regions of cells, one after another.
ghost use Rattle.std.specs.Prelude.{◌≡◌, length};
ghost use Rattle.page_space.specs.Extents.{roots_start};
ghost use Rattle.heap_model.specs.Wholeness.{Whole};
ghost use Rattle.write_barrier.specs.MutatorState.{Mutator, MayStore, heap_of};
ghost use Rattle.sweeper.specs.Swept.{IsSweepable, Sweeps};
ghost use Rattle.sweeper.specs.Sweeping.{IsBegun, Sweeping};

use crate::covering::clear_pages;
use crate::rows::sweep_row;
use cell_list::CellList;
use write_barrier::Main;

/// Sweeps all regions of cells.
fn sweep_regions(main: &mut Main, marked: &CellList)
    requires begun { (first : Mutator) × IsBegun first × Sweeping first main.old marked.now.addresses 0 }
    requires bound { marked.now.bound ≡ roots_start main.old.seat.space }
    ensures { (first : Mutator) → IsBegun first → Sweeping first main.old marked.now.addresses 0 →
        Sweeping first main.new marked.now.addresses (roots_start first.seat.space) }
{
    let regions = main.regions();
    let mut at = 0;
    while let Some(end) = regions.cells_end(at) {
        sweep_row(main, marked, at, end);
        at = end;
    }
}

/// Makes free what is not marked. In each region of cells a stretch of cells that are not marked becomes one free
/// cell, or more, where it has more words than a cell may have. Those of a page are its free runs from then on. What is
/// marked stays where it stands, word for word. Only the mutator runs. The time goes by how many cells there are:
/// of what becomes free no more than the first two words are written.
pub fn sweep(main: &mut Main, marked: &CellList)
    requires quiet { MayStore main.old }
    requires whole { Whole (heap_of main.old) }
    requires rows { length main.old.free ≡ main.old.seat.space.sizes.pages }
    requires bound { marked.now.bound ≡ roots_start main.old.seat.space }
    requires closed { IsSweepable (heap_of main.old) marked.now.addresses }
    ensures swept { Sweeps main.old main.new marked.now.addresses }
{
    // The sizes are within their limits.
    main.addresses_fit();
    clear_pages(main);
    sweep_regions(main, marked);
    // Free runs are apart.
    main.free_runs_fit();
}
